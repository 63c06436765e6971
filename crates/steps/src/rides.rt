// The first ride that a way in goes on from: over routes, trips, leaving and boarding positions, in the tie rule's order.
ghost use Rattle.std.specs.Prelude.{◌≡◌, ◌+◌, ◌<◌, ◌≤◌, length, MatchOption};
ghost use Rattle.paper.specs.Timetable.{lent};
ghost use Rattle.steps.specs.Search.{NeverAt, FirstAt, LastAt, Between, Unvisited, Ending, ends_in, Boarding, boards_in};
ghost use Rattle.steps.specs.Rides.{Seeking, Looking, Trying, boarded_by, left_by, trip_by, ride_by};

use crate::Way;
use extents::{Extent, extent_of};
use paper::{Leg, Lent, MARK};

// A ride is sought that boards where the row permits it, and from where it ends the way in leads on until v.
#[derive(Clone, Copy)]
pub(crate) struct Sought<'a> {
    pub(crate) tables: Lent<'a>,
    pub(crate) row: &'a [u32],
    pub(crate) way: Way,
    pub(crate) v: u32,
}

// A route's positions from its first visit of a stop to past its last.
#[derive(Clone, Copy)]
struct Span {
    first: u32,
    past: u32,
}

// The first of a route's positions that is at the stop s.
fn first_visit(stops: &[u32], s: u32) -> Option<usize>
    ensures { MatchOption result (NeverAt stops.now s) (λ i. FirstAt stops.now s i) }
{
    stops.iter().position(|stop| *stop == s)
}

// The last that is.
fn last_visit(stops: &[u32], s: u32) -> Option<usize>
    ensures { MatchOption result (NeverAt stops.now s) (λ i. LastAt stops.now s i) }
{
    stops.iter().rposition(|stop| *stop == s)
}

// From the route's first visit of the stop s to past its last: where there is none, none of its trips has to be looked at.
fn visits(positions: &[u32], route: Extent, s: u32) -> Option<Span>
    requires { route.first + route.n ≤ length positions.now }
    ensures { MatchOption result (Unvisited positions.now route s) (λ v. Between positions.now route s v.first v.past) }
{
    let past = route.first + route.n as usize;
    let stops = &positions[route.first..past];
    let first = first_visit(stops, s)?;
    let last = last_visit(stops, s)?;
    Some(Span {
        first: first as u32,
        past: last as u32 + 1,
    })
}

// Is trip j at position l at the stop s, so that so many seconds later it is v?
fn ends(tables: Lent, route: Extent, j: u32, l: u32, way: Way, v: u32) -> bool
    requires { Ending tables.positions.now tables.arrivals.now route j l }
    ensures { result ≡ ends_in tables.entry.positions.now tables.entry.arrivals.now route j l way.stop way.seconds v }
{
    let at = route.first + (l as usize);
    if tables.positions[at] == way.stop {
        let event = route.event + ((j as usize) * (route.n as usize) + (l as usize));
        let time = tables.arrivals[event];
        return (time as u64) + (way.seconds as u64) == (v as u64);
    }
    false
}

// Does the row permit boarding trip j at position i?
fn boards(tables: Lent, row: &[u32], route: Extent, j: u32, i: u32) -> bool
    requires { Boarding tables.positions.now tables.departures.now row.now route j i }
    ensures { result ≡ boards_in tables.entry.positions.now tables.entry.departures.now row.now route j i }
{
    let at = route.first + (i as usize);
    let here = row[tables.positions[at] as usize];
    if here == MARK {
        return false;
    }
    let event = route.event + ((j as usize) * (route.n as usize) + (i as usize));
    here <= tables.departures[event]
}

impl<'a> Sought<'a> {
    // The first ride on trip j of route r that leaves at position l.
    fn boarded(self, r: u32, route: Extent, j: u32, l: u32) -> Option<Leg>
        requires looking { Looking (lent self.tables) self.row.now r route }
        requires trying { Trying route j l }
        ensures { result ≡ boarded_by self.entry r j l }
    {
        for i in 0..l {
            if boards(self.tables, self.row, route, j, i) {
                return Some(Leg {
                    route: r,
                    trip: j,
                    board: i,
                    leave: l,
                    after: self.way.after,
                });
            }
        }
        None
    }

    // The first ride on trip j of route r.
    fn left(self, r: u32, route: Extent, visits: Span, j: u32) -> Option<Leg>
        requires looking { Looking (lent self.tables) self.row.now r route }
        requires visited { Between self.tables.positions.now route self.way.stop visits.first visits.past }
        requires trip { j < route.m }
        ensures { result ≡ left_by self.entry r j }
    {
        for l in visits.first..visits.past {
            if ends(self.tables, route, j, l, self.way, self.v) {
                if let Some(leg) = self.boarded(r, route, j, l) {
                    return Some(leg);
                }
            }
        }
        None
    }

    // The first ride on route r.
    fn on_route(self, r: u32) -> Option<Leg>
        requires seeking { Seeking (lent self.tables) self.row.now }
        requires route { r < self.tables.heads.routes }
        ensures { result ≡ trip_by self.entry r }
    {
        let route = extent_of(self.tables.routes, r);
        let visits = visits(self.tables.positions, route, self.way.stop)?;
        for j in 0..route.m {
            if let Some(leg) = self.left(r, route, visits, j) {
                return Some(leg);
            }
        }
        None
    }

    // The first ride of all.
    pub(crate) fn ride(self) -> Option<Leg>
        requires { Seeking (lent self.tables) self.row.now }
        ensures { result ≡ ride_by self.entry }
    {
        for r in 0..self.tables.heads.routes {
            if let Some(leg) = self.on_route(r) {
                return Some(leg);
            }
        }
        None
    }
}
