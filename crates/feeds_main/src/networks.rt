// Sound networks from a generator's numbers, and the one whose feed is the longest.
use crate::dice::Seed;
use crate::network::{Network, Planned};
use crate::times::put_times;
use crate::walks::{put_most_walks, put_walks};

// The limits of a kind of network: its stops, its routes, and a route's positions less one and events.
#[derive(Clone, Copy)]
struct Shape {
    stops: u32,
    routes: u32,
    n: u32,
    events: u32,
}

// Few of all, many routes, long routes, many trips.
const SHAPES: [Shape; 4] = [
    Shape {
        stops: 6,
        routes: 4,
        n: 4,
        events: 20,
    },
    Shape {
        stops: 256,
        routes: 64,
        n: 6,
        events: 60,
    },
    Shape {
        stops: 256,
        routes: 8,
        n: 63,
        events: 700,
    },
    Shape {
        stops: 40,
        routes: 4,
        n: 2,
        events: 1025,
    },
];

fn draw_route(shape: Shape, seed: Seed) -> Planned {
    Planned {
        n: seed.drawn(shape.n).saturating_add(2),
        events: seed.next().drawn(shape.events),
    }
}

// Route r of the longest feed: of 64 positions 16 with one trip, of 34 one with one trip, of two 46 with ten
// trips and one with 35.
fn longest_route(r: u32) -> Planned {
    match r {
        0..16 => Planned { n: 64, events: 64 },
        16 => Planned { n: 34, events: 34 },
        17..63 => Planned { n: 2, events: 20 },
        _ => Planned { n: 2, events: 70 },
    }
}

// Network k, its kind by k. Every third has no walks.
pub fn network(k: u32) -> Network {
    let shape = SHAPES[(k % 4) as usize];
    let mut seed = Seed(k).next().next();
    let mut net = Network::new(seed.drawn(shape.stops).saturating_add(1));
    for _ in 0..seed.next().drawn(shape.routes.saturating_add(1)) {
        net.add_route(draw_route(shape, seed));
        seed = seed.next().next();
    }
    seed = net.put_stops(seed);
    seed = put_times(&mut net, seed);
    if k % 3 != 0 {
        put_walks(&mut net, seed);
    }
    net
}

// The network whose feed is the longest.
pub fn longest() -> Network {
    let mut net = Network::new(256);
    let mut seed = Seed(400).next().next();
    for r in 0..64 {
        net.add_route(longest_route(r));
        seed = seed.next().next();
    }
    seed = net.put_stops(seed);
    put_times(&mut net, seed);
    put_most_walks(&mut net);
    net
}
