// Times that follow the rules by the way they are made.
use crate::dice::Seed;
use crate::network::Network;

// The times at a position of a trip.
#[derive(Clone, Copy, Default)]
pub struct Times {
    pub arrival: u32,
    pub departure: u32,
}

// Later than a time by so much, and not past the second day.
fn later(time: u32, by: u32) -> u32 {
    time.saturating_add(by).min(172799)
}

// A ride, and the halt after it: at both ends of a trip there is none, and the first ride of a route begins at
// any time.
fn ride_and_halt(begins: bool, at_end: bool, seed: Seed) -> (u32, u32) {
    let ride = seed.drawn(if begins { 172800 } else { 300 });
    let halt = if at_end { 0 } else { seed.part(512).drawn(40) };
    (ride, halt)
}

// A trip's times by position, put over those of the trip ahead: no time is before the one there. All are zero
// ahead of the first trip.
fn drive(times: &mut [Times], is_first: bool, mut seed: Seed) -> Seed {
    let last = times.len().saturating_sub(1);
    let mut ready = times.first().map_or(0, |time| time.departure);
    for (i, time) in times.iter_mut().enumerate() {
        seed = seed.next();
        let (ride, halt) = ride_and_halt(is_first && i == 0, i == 0 || i == last, seed);
        let arrival = later(ready, ride).max(time.arrival);
        let departure = later(arrival, halt).max(time.departure);
        *time = Times { arrival, departure };
        ready = departure;
    }
    seed
}

// The events of a route of n positions and m trips.
fn put_events(net: &mut Network, route: [u32; 4], mut seed: Seed) -> Seed {
    let [n, m, _, first] = route;
    let mut row = [Times::default(); 64];
    let Some(times) = row.get_mut(..n as usize) else {
        return seed;
    };
    for trip in 0..m {
        seed = drive(times, trip == 0, seed);
        let begin = first.saturating_add(trip.saturating_mul(n));
        for (e, time) in (begin..begin.saturating_add(n)).zip(times.iter()) {
            net.put_event(e as usize, *time);
        }
    }
    seed
}

// The events of all routes, the last route first.
pub fn put_times(net: &mut Network, mut seed: Seed) -> Seed {
    let tables = net.tables;
    let (routes, _) = tables.routes.as_chunks();
    for route in routes.iter().take(net.heads.routes as usize).rev() {
        seed = put_events(net, *route, seed);
    }
    seed
}
