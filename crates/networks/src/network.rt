// Small networks, sound by the way they are made.
ghost use Rattle.std.specs.Prelude.{◌<◌, ◌≤◌};

use crate::dice::{draw, part};
use crate::driving::{add_hop, add_line};
pub use crate::tables::Network;
use crate::walking::add_walks;

// The most that a network may have: of stops and positions beside two, of trips beside one.
#[derive(Clone, Copy)]
struct Size {
    stops: u32,
    routes: u32,
    n: u32,
    m: u32,
    limit: u32,
    ghost few: { (stops ≤ 4) × (n ≤ 3) × (m ≤ 2) },
}

// Networks so tiny that eight rides can be tried, and others.
const TINY: Size = Size {
    stops: 2,
    routes: 2,
    n: 1,
    m: 1,
    limit: 8,
};

const SMALL: Size = Size {
    stops: 4,
    routes: 5,
    n: 3,
    m: 2,
    limit: 4,
};

// When trips begin: mostly early, now and then so late that times end.
fn begin(seed: u32) -> u32 {
    if draw(seed, 0, 7) == 0 {
        172780
    } else {
        draw(seed, 1, 9)
    }
}

fn lines(seed: u32, size: Size) -> Network {
    let last = draw(seed, 0, size.stops) + 1;
    let count = draw(seed, 1, size.routes).max(draw(seed, 2, size.routes));
    let mut net = Network::new(last + 1, begin(part(seed, 3)), size.limit);
    for r in 0..count {
        let seed = part(part(seed, 4), r);
        let n = draw(seed, 0, size.n) + 2;
        let m = draw(seed, 1, size.m) + 1;
        add_line(&mut net, seed, n, m, last);
    }
    net
}

// Two routes of a ladder, whose first rung is left when trips begin: from a rung a ride to the last stop, and
// a hop to the next rung.
fn add_rung(net: &mut Network, seed: u32, rung: u32, rungs: u32, begins: u32)
    requires rung { rung < rungs }
    requires few { rungs ≤ 8 }
    requires early { begins ≤ 9 }
{
    let ride = part(seed, 2 * rung);
    let time = begins + 3 * rung + draw(ride, 0, 1);
    let late = begins + 3 * (rungs - rung) + 28 + draw(ride, 1, 3);
    add_hop(net, rung, rungs, time, late);
    let hop = part(seed, 2 * rung + 1);
    let time = begins + 3 * rung + draw(hop, 0, 1);
    add_hop(net, rung, rung + 1, time, time + 1);
}

// A ladder: the more hops, the earlier the ride to the last stop mostly is, so that there is an entry for
// nearly each number of rides.
fn ladder(seed: u32) -> Network {
    let rungs = draw(seed, 0, 6) + 2;
    let begins = draw(seed, 1, 9);
    let mut net = Network::new(rungs + 1, begins, 8);
    for rung in 0..rungs {
        add_rung(&mut net, part(seed, 2), rung, rungs, begins);
    }
    net
}

// Of eight networks two are ladders and two are tiny.
fn drawn_lines(seed: u32) -> Network {
    match draw(seed, 0, 7) {
        0 | 1 => ladder(part(seed, 1)),
        2 | 3 => lines(part(seed, 1), TINY),
        _ => lines(part(seed, 1), SMALL),
    }
}

pub fn build(seed: u32) -> Network {
    let mut net = drawn_lines(part(seed, 0));
    add_walks(&mut net, part(seed, 1));
    net
}
