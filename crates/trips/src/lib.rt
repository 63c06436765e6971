// 8 and 9: the lowest event at which times within a trip are wrong, or a trip overtakes.
#![tactic(auto)]

ghost use Rattle.std.specs.Prelude.{◌≡◌};
ghost use Rattle.paper.specs.Timetable.{lent};
ghost use Rattle.paper.specs.Rules.{time_broken, overtakes};
ghost use Rattle.route_times.specs.Route.{timed, ahead, event_broken, InRoute};
ghost use Rattle.trips.specs.Places.{own_broken, broken_in, broken_at, lowest_event};
ghost use Rattle.trips.specs.Needed.{TimesLaid, Lies, AtEvent};

use extents::{Extent, extent_of};
use paper::Lent;
use route_times::{Sought, Times, any_wrong};

// 8 of an event's own times, which are equal at both ends of a trip.
fn own_broken(outer: bool, arrive: u32, depart: u32) -> bool
    ensures { result ≡ own_broken outer arrive depart }
{
    (arrive >= 172800) | (depart >= 172800) | (arrive > depart) | outer & (arrive != depart)
}

// 8: the event of trip j at position i of one route.
fn time_broken(times: Times, j: usize, i: usize) -> bool
    requires { AtEvent 0 (timed times) j i }
    ensures { result ≡ time_broken (timed times.entry) j i }
{
    let event = j * times.n + i;
    let depart = times.departures[event];
    let outer = (i == 0) | (i + 1 == times.n);
    if own_broken(outer, times.arrivals[event], depart) {
        return true;
    }
    if i + 1 < times.n {
        return depart > times.arrivals[event + 1];
    }
    false
}

// 9: trip j + 1 is before trip j at position i of one route.
fn is_overtaken(times: Times, j: usize, i: usize) -> bool
    requires { AtEvent 1 (timed times) j i }
    ensures { result ≡ overtakes (timed times.entry) j i }
{
    let arrivals = times.arrivals;
    let departures = times.departures;
    let before = j * times.n + i;
    let later = before + times.n;
    (arrivals[later] < arrivals[before]) | (departures[later] < departures[before])
}

// The rule that is sought, at one place: trip j's event at position i, or trip j + 1's against it.
fn event_broken(sought: Sought, times: Times, j: usize, i: usize) -> bool
    requires { AtEvent (ahead sought) (timed times) j i }
    ensures { result ≡ event_broken sought (timed times.entry) j i }
{
    match sought {
        Sought::Time => time_broken(times, j, i),
        Sought::Overtake => is_overtaken(times, j, i),
    }
}

// The rule that is sought, on one route: the lowest broken event, counted within the route.
fn broken_in(sought: Sought, times: Times) -> Option<u32>
    requires { InRoute (timed times) }
    ensures { result ≡ broken_in sought (timed times.entry) }
{
    if !any_wrong(sought, times) {
        return None;
    }
    let ahead = sought.ahead();
    let trips = times.m - ahead;
    for j in 0..trips {
        for i in 0..times.n {
            if event_broken(sought, times, j, i) {
                return Some(((j + ahead) * times.n + i) as u32);
            }
        }
    }
    None
}

// The rule that is sought, on the route of this extent: its lowest broken event, counted among all events.
fn broken_at(sought: Sought, route: Extent, arrivals: &[u32], departures: &[u32]) -> Option<u32>
    requires { Lies route arrivals.now departures.now }
    ensures { result ≡ broken_at sought route arrivals.now departures.now }
{
    let start = route.event;
    let end = start + (route.n * route.m) as usize;
    let times = Times {
        n: route.n as usize,
        m: route.m as usize,
        arrivals: &arrivals[start..end],
        departures: &departures[start..end],
    };
    let place = broken_in(sought, times)?;
    Some(start as u32 + place)
}

// The rule that is sought: the lowest broken event, route after route.
pub fn lowest_event(sought: Sought, tables: Lent) -> Option<u32>
    requires { TimesLaid (lent tables) }
    ensures { result ≡ lowest_event sought (lent tables.entry) }
{
    for r in 0..tables.heads.routes {
        let route = extent_of(tables.routes, r);
        if let Some(p) = broken_at(sought, route, tables.arrivals, tables.departures) {
            return Some(p);
        }
    }
    None
}
