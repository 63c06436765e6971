// Walks that are closed by the way they are made: groups of neighbouring stops, in which each member walks to
// every other one way or both.
use crate::dice::Seed;
use crate::network::Network;
use std::ops::Range;

// How members of a group walk: both ways, one way, or both ways and evenly.
#[derive(Clone, Copy)]
enum Way {
    Both,
    Upwards,
    Downwards,
    Evenly,
}

// A drawn number; 0 is both ways.
impl From<u32> for Way {
    fn from(number: u32) -> Way {
        match number {
            1 => Way::Upwards,
            2 => Way::Downwards,
            3 => Way::Evenly,
            _ => Way::Both,
        }
    }
}

impl Way {
    // Whether members walk from a to b.
    fn leads(self, a: u32, b: u32) -> bool {
        match self {
            Way::Upwards => a < b,
            Way::Downwards => b < a,
            Way::Both | Way::Evenly => a != b,
        }
    }

    // The seconds between stops a and b, along a line: evenly, where two walks take as long as the one past
    // both; or scattered.
    fn seconds(self, a: u32, b: u32, seed: Seed) -> u32 {
        if let Way::Evenly = self {
            return a.abs_diff(b) % 512 * 7;
        }
        let [x, y] = [a, b].map(|stop| Seed(seed.0.wrapping_add(stop)).next().drawn(3600));
        x.abs_diff(y).saturating_add(1)
    }
}

// The walks from the stops of one range to those of another.
fn put_group(net: &mut Network, from: Range<u32>, to: Range<u32>, way: Way, seed: Seed) {
    for a in from {
        for b in to.start..to.end {
            if way.leads(a, b) {
                net.add_walk([a, b, way.seconds(a, b, seed)]);
            }
        }
    }
}

// 512 walks, which no other walk follows.
pub fn put_most_walks(net: &mut Network) {
    put_group(net, 0..32, 32..48, Way::Both, Seed(1));
}

// A group of up to 23 stops and then groups of up to 8, as long as there are stops for them and walks for the
// largest.
pub fn put_walks(net: &mut Network, mut seed: Seed) {
    let mut first: u32 = 0;
    let mut size = seed.drawn(23).saturating_add(1);
    for _ in 0..net.heads.stops {
        seed = seed.next();
        let end = first.saturating_add(size);
        if end <= net.heads.stops && net.heads.walks <= 456 {
            put_group(net, first..end, first..end, Way::from(seed.drawn(4)), seed);
            first = end;
        }
        size = seed.part(16).drawn(8).saturating_add(1);
    }
}
