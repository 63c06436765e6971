// Labels and work, round by round. What a round looks at is counted by crate `scan`.
#![tactic(auto)]

ghost use Rattle.paper.specs.Timetable.{lent};
ghost use Rattle.rounds.specs.Round.{RoundAsked, RoundDone};
ghost use Rattle.rounds.specs.Run.{Asked, Ran};

mod rows;

use crate::rows::{fill, settle, write_row};
use paper::{Lent, MARK, Question, Reason, Refusal};
use scan::routes::ride;
use scan::walks::walk;

// What a round cost, and whether it improved a stop.
#[derive(Clone, Copy)]
pub struct Progress {
    pub work: u32,
    pub improved: bool,
}

// Round k + 1: boards by row k alone, walks on from the rides' own arrivals, and writes row k + 1.
fn round(tables: Lent, labels: &mut [u32], k: u32) -> Progress
    requires { RoundAsked (lent tables) labels.old k }
    ensures { RoundDone (lent tables.entry) labels.old labels.new k result.work result.improved }
{
    let mut reach: [u32; 256] = [MARK; 256];
    let mut next: [u32; 256] = [MARK; 256];
    let a = k as usize * 256;
    let b = a + tables.heads.stops as usize;
    let rides = ride(tables, &labels[a..b], &mut reach);
    let steps = walk(tables, &reach, &mut next);
    let improved = write_row(labels, k, tables.heads.stops, &reach, &next);
    Progress {
        work: rides + steps,
        improved,
    }
}

// Rounds 1, 2, .. until a round improves no stop, that round included, or the ride limit is done, or the work passes the budget.
// Gives the work of all rounds run, or refuses 13 at the round whose work passes the budget.
pub fn run(tables: Lent, labels: &mut [u32], q: Question) -> Result<u32, Refusal>
    requires { Asked (lent tables) q labels.old }
    ensures { Ran (lent tables.entry) q labels.old labels.new result }
{
    fill(labels);
    let start = q.start as usize;
    labels[start] = q.time;
    let mut work: u32 = 0;
    for k in 0..q.limit {
        let done = round(tables, labels, k);
        work += done.work;
        if q.budget < work {
            fill(labels);
            return Err(Reason::Budget.at(k + 1));
        }
        if !done.improved {
            settle(labels, k + 1, q.limit);
            return Ok(work);
        }
    }
    Ok(work)
}
