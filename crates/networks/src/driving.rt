// The routes of a network, with their stops and their trips' times.
use crate::dice::{draw, part, spread};
use crate::tables::{Network, Times};

// The last second of a time.
const LAST: u32 = 172799;

// Positions are at any stops up to the last, so that some routes are circle lines.
fn add_positions(net: &mut Network, seed: u32, n: u32, last: u32) {
    for i in 0..n {
        net.add_position(draw(seed, i, last));
    }
}

// The times at a position: it arrives not before it is ready, nor before the trip ahead. At both ends there
// is no halt, and elsewhere it departs not before the trip ahead. All are zero ahead of the first trip.
fn drive_on(ready: u32, gap: u32, halt: u32, ends: bool, ahead: Times) -> Times {
    let arrive = ready.max(ahead.arrive).saturating_add(gap).min(LAST);
    let depart = if ends {
        arrive
    } else {
        arrive.saturating_add(halt).min(LAST).max(ahead.depart)
    };
    Times { arrive, depart }
}

// A trip's times by position, put over those of the trip ahead. Where nothing is drawn between its times it
// may equal the trip ahead.
fn drive(times: &mut [Times], seed: u32, n: u32, begins: u32, pace: u32) {
    let mut ready = begins.saturating_add(draw(seed, 0, 40));
    let gaps = pace.min(spread(seed, 1));
    let halts = spread(seed, 2);
    let last = n.saturating_sub(1);
    for (i, time) in (0..n).zip(times) {
        let gap = draw(part(seed, 3), i, gaps);
        let halt = draw(part(seed, 4), i, halts);
        *time = drive_on(ready, gap, halt, i == 0 || i == last, *time);
        ready = time.depart;
    }
}

fn add_trips(net: &mut Network, seed: u32, n: u32, m: u32, pace: u32) {
    let mut times = [Times {
        arrive: 0,
        depart: 0,
    }; 64];
    for trip in 0..m {
        drive(&mut times, part(seed, trip), n, net.begins, pace);
        for time in times.iter().take(n as usize) {
            net.add_event(*time);
        }
    }
}

// A route of n positions and m trips.
pub fn add_line(net: &mut Network, seed: u32, n: u32, m: u32, last: u32) {
    net.add_route(n, m);
    add_positions(net, part(seed, 3), n, last);
    add_trips(net, part(seed, 4), n, m, spread(seed, 2));
}

// A route of one trip between two stops.
pub fn add_hop(net: &mut Network, from: u32, to: u32, depart: u32, arrive: u32) {
    net.add_route(2, 1);
    net.add_position(from);
    net.add_position(to);
    for time in [depart, arrive] {
        net.add_event(Times {
            arrive: time,
            depart: time,
        });
    }
}
