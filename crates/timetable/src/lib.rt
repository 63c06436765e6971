// Checking lent tables: 01's rules 6, 5, 7 to 11, in that order, each at its lowest place.
#![tactic(auto)]

ghost use Rattle.std.specs.Prelude.{◌≡◌, ◌≤◌, ◌<◌, length, position, nat_lt, zip, IfSome};
ghost use Rattle.paper.specs.Timetable.{lent};
ghost use Rattle.paper.specs.Rules.{number_of, refused_by, whole_rules, first_broken, fault_of};
ghost use Rattle.paper.specs.Reply.{done, short_table, check_of};
ghost use Rattle.timetable.specs.Fault.{tables_fault};
ghost use Rattle.timetable.specs.Needed.{Full, CountsRight};

mod counts;

use crate::counts::{count_fault, limit_of, totals_of};
use closure::lowest_open;
use footpaths::lowest_walk;
use paper::{Lent, Reason, Refusal};
use route_times::Sought;
use stops::lowest_stop;
use trips::lowest_event;

// The full sizes of tables 1 to 7.
const FULL_SIZES: [usize; 7] = [256, 2048, 2048, 2048, 1536, 2304, 320];

// All positions and all trips together.
#[derive(Clone, Copy, Debug, PartialEq, Eq)]
pub struct Totals {
    pub positions: u32,
    pub trips: u32,
}

// A rule that is broken nowhere, or its refusal at its lowest place.
fn unbroken(reason: Reason, lowest: Option<u32>) -> Result<(), Refusal>
    ensures { result ≡ done tt (refused_by (number_of reason) lowest) }
{
    match lowest {
        Some(place) => Err(reason.at(place)),
        None => Ok(()),
    }
}

// Where the first of these lengths is that is less than its table's full size.
fn first_short(lengths: &[usize]) -> Option<usize>
    ensures first { result ≡ position (λ pair. nat_lt pair.0 pair.1) (zip lengths.now FULL_SIZES) }
    ensures within { IfSome result (λ i. i < 7) }
{
    lengths
        .iter()
        .zip(&FULL_SIZES)
        .position(|(length, full)| length < full)
}

// 6: the lowest of tables 1, 2, .. that is too short, by their lengths.
pub fn short_table(lengths: &[usize]) -> Result<(), Refusal>
    ensures { result ≡ done tt (short_table lengths.now) }
{
    let short = first_short(lengths);
    unbroken(Reason::Table, short.map(|i| i as u32 + 1))
}

// 7 to 11, over a whole timetable whose counts are right: what reading a feed and checking tables have in common.
pub fn whole_fault(tables: Lent) -> Result<(), Refusal>
    requires { CountsRight (lent tables) }
    ensures { result ≡ done tt (first_broken whole_rules (lent tables.entry)) }
{
    let all = totals_of(tables);
    let stop = lowest_stop(tables.heads.stops, all.positions, tables.positions);
    unbroken(Reason::Stop, stop)?;
    unbroken(Reason::Time, lowest_event(Sought::Time, tables))?;
    unbroken(Reason::Overtake, lowest_event(Sought::Overtake, tables))?;
    unbroken(Reason::Walk, lowest_walk(tables))?;
    unbroken(Reason::Open, lowest_open(tables))
}

// 5, then 7 to 11, over tables of full size: what checking, writing and asking have in common.
pub fn fault_of(tables: Lent) -> Result<(), Refusal>
    requires { Full (lent tables) }
    ensures { result ≡ done tt (fault_of (lent tables.entry)) }
{
    count_fault(tables)?;
    whole_fault(tables)
}

// 6, then 5 and 7 to 11: what refuses lent tables, whether they are checked or written.
pub fn tables_fault(tables: Lent) -> Result<(), Refusal>
    ensures { result ≡ done tt (tables_fault (lent tables.entry)) }
{
    short_table(&[
        tables.routes.len(),
        tables.positions.len(),
        tables.arrivals.len(),
        tables.departures.len(),
        tables.walks.len(),
    ])?;
    fault_of(tables)
}

// Checks lent tables: their work limit, or the refusal of the first broken rule at its lowest place.
pub fn check(tables: Lent) -> Result<u32, Refusal>
    ensures { result ≡ check_of (lent tables.entry) }
{
    tables_fault(tables)?;
    Ok(limit_of(tables))
}
