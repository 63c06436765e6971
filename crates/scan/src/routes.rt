// Every route is looked at once. The count is kept in `board`, right before a trip's departure is compared.
ghost use Rattle.std.specs.Prelude.{◌≡◌, ◌+◌, ◌*◌, ◌<◌, length, get_or, ltb};
ghost use Rattle.laws.specs.Below.{only};
ghost use Rattle.laws.specs.Lists.{lower_at};
ghost use Rattle.paper.specs.Timetable.{lent};
ghost use Rattle.scan.specs.Look.{Boardable, Boarded, Landing, cut, Scannable, Looked, route_at, Standing, Rideable, Ridden};

use extents::{Extent, extent_of};
use paper::{Lent, MARK};

// The trip that is caught after a position, by 01 the number of trips if there is none; and the departures compared there.
#[derive(Clone, Copy)]
struct Caught {
    trip: usize,
    work: u32,
}

// Goes down from trip c while the trip before it departs from position i not before `at`, and counts each departure compared.
fn board(departures: &[u32], n: usize, i: usize, c: usize, at: u32) -> Caught
    requires { Boardable departures.now n i c }
    ensures { Boarded departures.now n i c at result.trip result.work }
{
    if at == MARK {
        return Caught { trip: c, work: 0 };
    }
    let mut work: u32 = 0;
    for j in (0..c).rev() {
        let cell = j * n + i;
        work += 1;
        if departures[cell] < at {
            return Caught { trip: j + 1, work };
        }
    }
    Caught { trip: 0, work }
}

// The arrival of trip c at position i, or the mark if there is no such trip.
fn arrival(arrivals: &[u32], n: usize, m: usize, c: usize, i: usize) -> u32
    requires { Landing arrivals.now n m i }
    ensures { result ≡ only (ltb c m) (get_or arrivals.now (c * n + i) 0) }
{
    if c < m {
        let cell = c * n + i;
        return arrivals[cell];
    }
    MARK
}

// Lowers row[s] to t.
pub fn lower(row: &mut [u32], s: usize, t: u32)
    requires { s < length row.old }
    ensures { row.new ≡ lower_at row.old s t }
{
    if t < row[s] {
        row[s] = t;
    }
}

// A route cut out of tables 2 to 4, with its number of trips.
#[derive(Clone, Copy)]
struct Parts<'a> {
    stops: &'a [u32],
    arrivals: &'a [u32],
    departures: &'a [u32],
    trips: usize,
}

// One look at a route: lowers `reach` to the earliest arrivals by a ride on it, boarded where `row` permits it.
fn look(route: Parts, row: &[u32], reach: &mut [u32]) -> u32
    requires { Scannable (cut route) (length row.now) (length reach.old) }
    ensures { Looked (cut route.entry) row.now reach.old reach.new result }
{
    let n = route.stops.len();
    let last = n - 1;
    let mut c = route.trips;
    let mut work: u32 = 0;
    for i in 0..last {
        let here = route.stops[i] as usize;
        let caught = board(route.departures, n, i, c, row[here]);
        c = caught.trip;
        work += caught.work;
        let k = i + 1;
        let next = route.stops[k] as usize;
        lower(reach, next, arrival(route.arrivals, n, route.trips, c, k));
    }
    work
}

// The look at the route of this extent in the tables.
fn look_at(tables: Lent, x: Extent, row: &[u32], reach: &mut [u32]) -> u32
    requires { Standing x tables.positions.now tables.arrivals.now tables.departures.now (length row.now) (length reach.old) }
    ensures { Looked (route_at x tables.entry.positions.now tables.entry.arrivals.now tables.entry.departures.now) row.now reach.old reach.new result }
{
    let n = x.n as usize;
    let trips = x.m as usize;
    let past = x.first + n;
    let end = x.event + n * trips;
    let route = Parts {
        stops: &tables.positions[x.first..past],
        arrivals: &tables.arrivals[x.event..end],
        departures: &tables.departures[x.event..end],
        trips,
    };
    look(route, row, reach)
}

// Every route is looked at once: lowers `reach` to the earliest arrivals by one ride.
pub fn ride(tables: Lent, row: &[u32], reach: &mut [u32]) -> u32
    requires { Rideable (lent tables) (length row.now) (length reach.old) }
    ensures { Ridden (lent tables.entry) row.now reach.old reach.new result }
{
    let mut work: u32 = 0;
    for r in 0..tables.heads.routes {
        work += look_at(tables, extent_of(tables.routes, r), row, reach);
    }
    work
}
