// Every step that the network has: a ride, and then staying where it ends or one walk from there.
use crate::lines::{Line, line_of};
use arrayvec::ArrayVec;
use paper::{Leg, Lent};

// By what the tie rule compares steps, in the rule's order: whether one walks, the stop where its ride ends,
// its route, trip, leaving and boarding position.
#[derive(Clone, Copy, Default, PartialEq, Eq, PartialOrd, Ord)]
pub struct Key {
    pub walks: bool,
    pub alights: u32,
    pub route: u32,
    pub trip: u32,
    pub leave: u32,
    pub board: u32,
}

// From the stop where it boards to the one that it comes to.
#[derive(Clone, Copy, Default)]
pub struct Step {
    pub from: u32,
    pub departs: u32,
    pub to: u32,
    pub arrives: u32,
    pub key: Key,
}

pub type Steps = ArrayVec<Step, 930>;

impl Step {
    pub fn leg(&self) -> Leg {
        let Key {
            walks,
            route,
            trip,
            leave,
            board,
            ..
        } = self.key;
        Leg {
            route,
            trip,
            board,
            leave,
            after: walks.then_some(self.to),
        }
    }

    // A ride, after which the traveller stays, with a walk from where it ends.
    fn then_walks(self, to: u32, seconds: u32) -> Step {
        Step {
            to,
            arrives: self.arrives.saturating_add(seconds),
            key: Key {
                walks: true,
                ..self.key
            },
            ..self
        }
    }
}

// A ride, and that ride with each walk. Those for which there is no room are left out.
fn add_ride(steps: &mut Steps, tables: Lent, ride: Step) {
    let _ = steps.try_push(ride);
    let (walks, _) = tables.walks.as_chunks::<3>();
    for [from, to, seconds] in walks.iter().take(tables.heads.walks as usize) {
        if *from == ride.to {
            let _ = steps.try_push(ride.then_walks(*to, *seconds));
        }
    }
}

// The rides of a line's trip, from every position to every later one.
fn add_trip(steps: &mut Steps, tables: Lent, line: Line, trip: u32, times: (&[u32], &[u32])) {
    let (arrivals, departures) = times;
    for (leave, (to, arrives)) in (0u32..).zip(line.stops.iter().zip(arrivals)) {
        for (board, (from, departs)) in (0..leave).zip(line.stops.iter().zip(departures)) {
            let ride = Step {
                from: *from,
                departs: *departs,
                to: *to,
                arrives: *arrives,
                key: Key {
                    walks: false,
                    alights: *to,
                    route: line.route,
                    trip,
                    leave,
                    board,
                },
            };
            add_ride(steps, tables, ride);
        }
    }
}

// The list of all steps.
pub fn list(tables: Lent) -> Steps {
    let mut steps = Steps::new();
    for route in 0..tables.heads.routes {
        let line = line_of(tables, route);
        let arrivals = line.arrivals.chunks_exact(line.n as usize);
        let departures = line.departures.chunks_exact(line.n as usize);
        for (trip, times) in (0u32..).zip(arrivals.zip(departures)) {
            add_trip(&mut steps, tables, line, trip, times);
        }
    }
    steps
}
