// 7: each position is at a stop.
#![tactic(auto)]

ghost use Rattle.std.specs.Prelude.{◌≡◌, ◌≤◌, ◌&&◌, length, fold, position, nat_lt, nat_le, true};
ghost use Rattle.paper.specs.Rules.{lowest_of, stop_broken};
ghost use Rattle.stops.specs.Stops.{of_stops};

// Whether each of these numbers is a stop's. The fold leaves nowhere early, so that several are tested at a time.
fn all_stops(stops: u32, positions: &[u32]) -> bool
    ensures { result ≡ fold (λ all stop. all && nat_lt stop stops) true positions.now }
{
    positions
        .iter()
        .fold(true, |all, stop| all & (*stop < stops))
}

// Where the first of these numbers is that is not a stop's.
fn first_wrong(stops: u32, positions: &[u32]) -> Option<usize>
    ensures { result ≡ position (λ stop. nat_le stops stop) positions.now }
{
    positions.iter().position(|stop| *stop >= stops)
}

// The lowest position whose number is not a stop's. It is sought only where something is wrong.
pub fn lowest_stop(stops: u32, count: u32, positions: &[u32]) -> Option<u32>
    requires { count ≤ length positions.now }
    ensures { result ≡ lowest_of count (stop_broken (of_stops stops positions.now)) }
{
    let used = &positions[..count as usize];
    if all_stops(stops, used) {
        return None;
    }
    first_wrong(stops, used).map(|p| p as u32)
}
