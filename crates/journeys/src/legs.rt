// The legs of one entry, from its last back to its first.
ghost use Rattle.std.specs.Prelude.{◌≡◌, ◌+◌, ◌*◌, ◌-◌, ◌≤◌, length};
ghost use Rattle.std.proofs.lemmas.List.Edits.{sets};
ghost use Rattle.paper.specs.Timetable.{lent};
ghost use Rattle.paper.specs.Tie.{numbers_of};
ghost use Rattle.paper.specs.Reply.{leg_numbers};
ghost use Rattle.journeys.specs.ReadBack.{step_in, Stepping, Numbered, Placed, placed_stop, legs_in, Traceable};

use extents::extent_of;
use paper::{Leg, Lent, MARK};
use steps::last_step;

// A leg as the legs table holds it: route, trip, boarding position, leaving position, stop walked to or the mark.
pub fn numbers(leg: Leg) -> [u32; 5]
    ensures { result ≡ numbers_of leg }
{
    let to = leg.after.unwrap_or(MARK);
    [leg.route, leg.trip, leg.board, leg.leave, to]
}

// Writes a leg's numbers from index `at` on.
pub fn put_leg(legs: &mut [u32], at: usize, leg: Leg)
    requires { at + 5 ≤ length legs.old }
    ensures { legs.new ≡ sets legs.old at (numbers_of leg) }
{
    legs[at..at + 5].copy_from_slice(&numbers(leg));
}

// Where leg j of k rides begins: in row k - 1 of the legs table, in travel order.
pub fn place_of(k: u32, j: u32) -> usize
    requires { Numbered k j }
    ensures { result ≡ k * 40 - 40 + j * 5 }
{
    (k as usize) * 40 + (j as usize) * 5 - 40
}

// The stop where a leg is boarded.
pub fn board_stop(tables: Lent, leg: Leg) -> u32
    requires { Placed tables.routes.now tables.positions.now leg }
    ensures { result ≡ placed_stop tables.entry.routes.now tables.entry.positions.now leg }
{
    let route = extent_of(tables.routes, leg.route);
    let at = route.first + (leg.board as usize);
    tables.positions[at]
}

// The first last step to stop p at row k + 1's time that boards where row k permits it.
pub fn step_back(tables: Lent, labels: &[u32], k: u32, p: u32) -> Option<Leg>
    requires { Stepping (lent tables) labels.now k p }
    ensures { result ≡ step_in (lent tables.entry) labels.now k p }
{
    let from = (k as usize) * 256;
    let upto = from + (tables.heads.stops as usize);
    let v = labels[from + 256 + (p as usize)];
    last_step(
        tables,
        &labels[from..upto],
        &labels[from + 256..upto + 256],
        p,
        v,
    )
}

// Writes the legs of the k rides that end at the target into row k - 1 of the legs table, the last leg first.
pub fn trace(tables: Lent, labels: &[u32], legs: &mut [u32], target: u32, k: u32)
    requires { Traceable (lent tables) labels.now (length legs.old) k target }
    ensures { legs.new ≡ sets legs.old (k * 40 - 40) (leg_numbers (legs_in (lent tables.entry) labels.now k target)) }
{
    let mut p = target;
    for j in (0..k).rev() {
        if let Some(leg) = step_back(tables, labels, j, p) {
            put_leg(legs, place_of(k, j), leg);
            p = board_stop(tables, leg);
        }
    }
}
