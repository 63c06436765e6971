// The trips of a route, read into tables 3 and 4.
ghost use Rattle.std.specs.Prelude.{◌*◌};
ghost use Rattle.laws.specs.Below.{iterate};
ghost use Rattle.paper.specs.Reading.{trip_at};
ghost use Rattle.route_records.specs.State.{trips_of, TripRoom, TripsOn};

use crate::keep::keep_times;
use paper::{Reason, Refusal, Room};
use standing::stands;

// How far the reading of a route's trips has come: the offset, and how many events the tables hold.
#[derive(Clone, Copy)]
pub struct TripsRead {
    pub at: usize,
    pub events: usize,
}

// m trips, from s on. The test stands in the loop: a Result from trip to trip would cost more than a short trip.
pub fn read_trips(
    f: &[u8],
    e: usize,
    n: usize,
    m: usize,
    s: TripsRead,
    room: &mut Room,
) -> Result<TripsRead, Refusal>
    requires { TripRoom e n (n * m) s f.now room.old }
    ensures { TripsOn e (n * m) s (iterate m (trip_at f.now e n) (trips_of s room.old)) result room.old room.new }
{
    let mut q = s;
    for _ in 0..m {
        if !stands(f, e, q.at, 2 + 6 * n, b'T', b'P') {
            return Err(Reason::Form.at(q.at as u32));
        }
        keep_times(f, q.at + 2, n, room.arrivals, room.departures, q.events);
        q = TripsRead {
            at: q.at + (2 + 6 * n),
            events: q.events + n,
        };
    }
    Ok(q)
}
