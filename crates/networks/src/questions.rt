// Questions of a network.
use crate::dice::{draw, part, spread};
use crate::network::Network;
use paper::{MARK, Question};
use second::lines::{Line, line_of};

// What stands at i, or 0 past the end.
fn at(table: &[u32], i: u32) -> u32 {
    table.get(i as usize).copied().unwrap_or(0)
}

// A drawn route.
fn drawn_line(net: &Network, seed: u32) -> Line<'_> {
    let last = net.heads.routes.saturating_sub(1);
    line_of(net.tables.lent(net.heads), draw(seed, 0, last))
}

// A stop of a drawn route.
fn served(net: &Network, seed: u32) -> u32 {
    let line = drawn_line(net, seed);
    at(line.stops, draw(seed, 1, line.n.saturating_sub(1)))
}

// Another stop than the start, mostly.
fn target_from(net: &Network, seed: u32, start: u32) -> u32 {
    let target = served(net, part(seed, 0));
    if target != start {
        return target;
    }
    served(net, part(seed, 1))
}

// From where a drawn trip is boarded, just in time or with a second or two to spare.
fn boarding(net: &Network, seed: u32) -> Question {
    let line = drawn_line(net, seed);
    let i = draw(seed, 1, line.n.saturating_sub(2));
    let trip = draw(seed, 2, line.m.saturating_sub(1));
    let start = at(line.stops, i);
    let departs = line
        .departures
        .chunks_exact(line.n as usize)
        .nth(trip as usize)
        .map_or(0, |d| at(d, i));
    Question {
        start,
        target: target_from(net, part(seed, 3), start),
        time: departs.saturating_sub(draw(seed, 4, 2)),
        limit: draw(seed, 5, net.limit),
        budget: MARK,
    }
}

// From any stop to any stop.
fn anywhere(net: &Network, seed: u32) -> Question {
    let last = net.heads.stops.saturating_sub(1);
    let later = draw(seed, 0, spread(seed, 1));
    Question {
        start: draw(seed, 2, last),
        target: draw(seed, 3, last),
        time: net.begins.saturating_add(later).min(172799),
        limit: draw(seed, 4, net.limit),
        budget: MARK,
    }
}

// Question number i of a network. The first one goes from its first stop to its last one, early and with all
// the rides.
pub fn question(net: &Network, seed: u32, i: u32) -> Question {
    match i {
        0 => Question {
            start: 0,
            target: net.heads.stops.saturating_sub(1),
            time: net.begins,
            limit: net.limit,
            budget: MARK,
        },
        1 => anywhere(net, seed),
        _ if net.heads.routes == 0 => anywhere(net, seed),
        _ => boarding(net, seed),
    }
}

// The same question with a budget about its work: the work itself, one less, or any that is smaller.
pub fn with_budget(seed: u32, q: Question, work: u32) -> Question {
    let budget = match draw(seed, 0, 2) {
        0 => work,
        1 => work.saturating_sub(1),
        _ => draw(seed, 1, work),
    };
    Question { budget, ..q }
}
