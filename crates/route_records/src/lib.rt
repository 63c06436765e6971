// Route records and their trips, read into tables 1 to 4. A bad record ends the reading; the tables hold what was read before it.
#![tactic(auto)]

ghost use Rattle.std.specs.Prelude.{◌≡◌};
ghost use Rattle.laws.specs.Below.{iterate};
ghost use Rattle.paper.specs.Rules.{counted};
ghost use Rattle.paper.specs.Reading.{next_route, no_routes};
ghost use Rattle.route_records.specs.State.{routes_of, CountsSmall, route_bad, RouteNear, RecordSound, RowRoom, RoutesOn, RoutesRoom, no_mid};

mod keep;
mod trips;

use crate::keep::{keep_row, keep_stops};
use crate::trips::{TripsRead, read_trips};
use fields::Fields;
use paper::{Reason, Refusal, Room};
use standing::stands;

// How far the reading of the routes has come: the offset, the trips so far, and how much each table holds.
#[derive(Clone, Copy)]
pub struct RoutesRead {
    pub at: usize,
    pub trips: usize,
    pub heads: usize,
    pub positions: usize,
    pub events: usize,
}

// Whether n and m are allowed, and the totals with them. Here all are known to be small; `timetable` tests before it adds.
fn counts_fit(n: usize, m: usize, trips: usize, events: usize) -> bool
    requires { CountsSmall n m trips events }
    ensures { result ≡ counted n m trips events }
{
    (2 <= n) & (n <= 64) & ((1 <= m) & (m <= 512)) & ((trips + m <= 512) & (events + n * m <= 2048))
}

// What refuses a route record of n and m. All tests come before any store: mark, counts and totals so far, rest fits.
fn check_route(f: &[u8], e: usize, n: usize, m: usize, s: RoutesRead) -> Result<(), Refusal>
    requires { RouteNear e n m s f.now }
    ensures { RecordSound (route_bad f.now e n m s) s.at result }
{
    let at = s.at as u32;
    if !stands(f, e, s.at, 5, b'R', b'T') {
        return Err(Reason::Form.at(at));
    }
    if !counts_fit(n, m, s.trips, s.events) {
        return Err(Reason::Count.at(at));
    }
    if e < s.at + 5 + n {
        return Err(Reason::Form.at(at));
    }
    Ok(())
}

// A route record: its row, its stops, and then its trips.
fn read_route(f: &[u8], e: usize, s: RoutesRead, room: &mut Room) -> Result<RoutesRead, Refusal>
    requires { RowRoom e s f.now room.old }
    ensures { RoutesOn e 1 s (next_route f.now e (routes_of s room.old)) result room.old room.new }
{
    let record = Fields { feed: f, at: s.at };
    let n = record.byte(2) as usize;
    let m = record.two(3) as usize;
    check_route(f, e, n, m, s)?;
    keep_row(room.routes, s.heads, n, m, s.positions, s.events);
    keep_stops(f, s.at + 5, n, room.positions, s.positions);
    let start = TripsRead {
        at: s.at + 5 + n,
        events: s.events,
    };
    let q = read_trips(f, e, n, m, start, room)?;
    Ok(RoutesRead {
        at: q.at,
        trips: s.trips + m,
        heads: s.heads + 4,
        positions: s.positions + n,
        events: q.events,
    })
}

// The first k routes.
pub fn read_routes(f: &[u8], e: usize, k: usize, room: &mut Room) -> Result<RoutesRead, Refusal>
    requires { RoutesRoom e k f.now room.old }
    ensures { RoutesOn e k no_mid (iterate k (next_route f.now e) no_routes) result room.old room.new }
{
    let mut q = RoutesRead {
        at: 9,
        trips: 0,
        heads: 0,
        positions: 0,
        events: 0,
    };
    for _ in 0..k {
        q = read_route(f, e, q, room)?;
    }
    Ok(q)
}
