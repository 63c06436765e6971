// 8 and 9 on one route: whether any event is broken.
// The loops leave nowhere early, so that several places are tested at a time.
#![tactic(auto)]

ghost use Rattle.std.specs.Prelude.{◌≡◌, ◌+◌, ◌*◌, ◌-◌, ◌&&◌, fold, zip, nat_le, true};
ghost use Rattle.laws.specs.Below.{sum_below};
ghost use Rattle.route_times.specs.Route.{timed, InRoute, ahead};
ghost use Rattle.route_times.specs.Folds.{Steps, EndsTold, fall_at, TimesTold, OrderTold, BrokenTold};

// Which of the two rules is sought: 8, times within a trip, or 9, trips that overtake.
#[derive(Clone, Copy, Debug, PartialEq, Eq)]
pub enum Sought {
    Time,
    Overtake,
}

impl Sought {
    // How many trips before the place the tested trip is: of 9 the place is the next trip's event.
    pub fn ahead(self) -> usize
        ensures { result ≡ ahead self }
    {
        match self {
            Sought::Time => 0,
            Sought::Overtake => 1,
        }
    }
}

// One route's own times: m trips, one after the other, of n events each.
#[derive(Clone, Copy)]
pub struct Times<'a> {
    pub n: usize,
    pub m: usize,
    pub arrivals: &'a [u32],
    pub departures: &'a [u32],
}

// 8 at both ends of each trip, which bounds all its times where they rise.
fn ends_wrong(times: Times) -> bool
    requires { InRoute (timed times) }
    ensures { EndsTold (timed times.entry) result }
{
    let arrivals = times.arrivals;
    let departures = times.departures;
    let mut wrong = false;
    for j in 0..times.m {
        let first = j * times.n;
        let last = first + (times.n - 1);
        wrong = wrong
            | (arrivals[first] != departures[first])
            | (arrivals[last] != departures[last])
            | (departures[last] >= 172800);
    }
    wrong
}

// Whether none of these times is after the one beside it.
fn in_order(times: &[u32], others: &[u32]) -> bool
    ensures { result ≡ fold (λ all pair. all && nat_le pair.0 pair.1) true (zip times.now others.now) }
{
    times
        .iter()
        .zip(others)
        .fold(true, |all, (time, other)| all & (*time <= *other))
}

// How many of the last events of so many runs of `step` events depart after the arrival of the event behind them.
fn falls(times: Times, step: usize, runs: usize) -> u32
    requires { Steps (timed times) step runs }
    ensures { result ≡ sum_below runs (λ k. fall_at (timed times.entry) (k * step + (step - 1))) }
{
    let mut count: u32 = 0;
    for k in 0..runs {
        let last = k * step + (step - 1);
        count += (times.departures[last] > times.arrivals[last + 1]) as u32;
    }
    count
}

// 8 on one route: whether any event is broken. Where as many events fall as between trips, none falls within a trip.
fn times_wrong(times: Times) -> bool
    requires { InRoute (timed times) }
    ensures { TimesTold (timed times.entry) result }
{
    let events = times.n * times.m;
    let ends = ends_wrong(times);
    let halts = !in_order(&times.arrivals[..events], &times.departures[..events]);
    let all = falls(times, 1, events - 1);
    let between = falls(times, times.n, times.m - 1);
    ends | halts | (all != between)
}

// 9 on one route: whether any trip overtakes. The next trip's event stands n further on. The two parts of a table are equally
// long, so that one end is asked at each step.
fn order_wrong(times: Times) -> bool
    requires { InRoute (timed times) }
    ensures { OrderTold (timed times.entry) result }
{
    let n = times.n;
    let events = n * times.m;
    let last = events - n;
    let arrive = in_order(&times.arrivals[..last], &times.arrivals[n..events]);
    let depart = in_order(&times.departures[..last], &times.departures[n..events]);
    !(arrive & depart)
}

// The rule that is sought, on one route: whether any event is broken.
pub fn any_wrong(sought: Sought, times: Times) -> bool
    requires { InRoute (timed times) }
    ensures { BrokenTold sought (timed times.entry) result }
{
    match sought {
        Sought::Time => times_wrong(times),
        Sought::Overtake => order_wrong(times),
    }
}
