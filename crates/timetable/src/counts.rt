// 5: head counts, routes and their running sums; and the totals that follow from them.
ghost use Rattle.std.specs.Prelude.{◌≡◌};
ghost use Rattle.paper.specs.Timetable.{lent};
ghost use Rattle.paper.specs.Rules.{lowest_of, heads_broken, route_broken, count_rules, first_broken};
ghost use Rattle.paper.specs.Work.{limit_of};
ghost use Rattle.paper.specs.Reply.{done};
ghost use Rattle.trips.specs.Needed.{Laid};
ghost use Rattle.timetable.specs.Counts.{totals_of};
ghost use Rattle.timetable.specs.Needed.{CountsLent, LimitLent, Before, RoutesLent};

use crate::{Totals, unbroken};
use extents::extent_of;
use paper::{Lent, Reason, Refusal};

// 5: the head counts.
pub fn heads_broken(tables: Lent) -> bool
    ensures { result ≡ heads_broken (lent tables.entry) }
{
    let heads = tables.heads;
    (heads.stops < 1) | (256 < heads.stops) | (64 < heads.routes) | (512 < heads.walks)
}

// 5: a route's counts, after so many trips and events. They are tested before they are added.
pub fn counted(n: u32, m: u32, trips: u32, events: u32) -> bool
    requires { Before trips events }
    ensures { result ≡ Rattle.paper.specs.Rules.counted n m trips events }
{
    if (2 <= n) & (n <= 64) & ((1 <= m) & (m <= 512)) {
        return (trips + m <= 512) & (events + n * m <= 2048);
    }
    false
}

// 5: the lowest route with a wrong count, total or running sum.
pub fn lowest_route(tables: Lent) -> Option<u32>
    requires { RoutesLent (lent tables) }
    ensures { let T = lent tables.entry in result ≡ lowest_of T.routes (route_broken T) }
{
    let mut positions: u32 = 0;
    let mut trips: u32 = 0;
    let mut events: u32 = 0;
    for r in 0..tables.heads.routes {
        let route = extent_of(tables.routes, r);
        if !(counted(route.n, route.m, trips, events)
            & (route.first == positions as usize)
            & (route.event == events as usize))
        {
            return Some(r);
        }
        positions += route.n;
        trips += route.m;
        events += route.n * route.m;
    }
    None
}

// All positions and trips of routes whose counts are right.
pub fn totals_of(tables: Lent) -> Totals
    requires { Laid (lent tables) }
    ensures { result ≡ totals_of (lent tables.entry) }
{
    let mut positions: u32 = 0;
    let mut trips: u32 = 0;
    for r in 0..tables.heads.routes {
        let route = extent_of(tables.routes, r);
        positions += route.n;
        trips += route.m;
    }
    Totals { positions, trips }
}

// 5: the head counts, then the routes upwards.
pub fn count_fault(tables: Lent) -> Result<(), Refusal>
    requires { CountsLent (lent tables) }
    ensures { result ≡ done tt (first_broken count_rules (lent tables.entry)) }
{
    if heads_broken(tables) {
        return Err(Reason::Count.at(64));
    }
    unbroken(Reason::Count, lowest_route(tables))
}

// The work limit, 8 x (positions - routes + trips + walks).
pub fn limit_of(tables: Lent) -> u32
    requires { LimitLent (lent tables) }
    ensures { result ≡ limit_of (lent tables.entry) }
{
    let heads = tables.heads;
    let all = totals_of(tables);
    8 * (all.positions - heads.routes + all.trips + heads.walks)
}
