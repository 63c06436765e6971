// A second planner, for trials of the first, with which it shares no code and no way of working: it lists
// every step of the network, tries every journey made of them, and keeps the earliest arrivals. The time that
// it takes grows as the number of journeys, so it is for small networks: of up to 930 steps.
#![tactic(auto)]

ghost use Rattle.std.specs.Prelude.{◌≡◌};

mod legs;
pub mod lines;
mod rows;
pub mod steps;
mod work;

use crate::legs::legs_of;
use crate::rows::{entry_of, rows_of};
use crate::steps::Step;
use crate::work::work_of;
use paper::{Answer, Entry, Leg, Lent, MARK, Question, Reason, Refusal};

// What a question gets: the labels, a row for each number of rides; the legs, a row for each number of rides
// but none; and the answer.
#[derive(Clone, Copy)]
pub struct Reply {
    pub labels: [[u32; 256]; 9],
    pub legs: [[Option<Leg>; 8]; 8],
    pub answer: Answer,
}

// An answer with no entries.
fn bare(verdict: Result<u32, Refusal>) -> Answer
    ensures { result.count ≡ 0 }
{
    Answer {
        verdict,
        count: 0,
        entries: [Entry {
            rides: 0,
            arrival: 0,
        }; 9],
    }
}

// The answer within the budget: its entries, or that there is no way. Rows above the ride limit hold the
// mark, and are no entries.
fn listed(rows: &[[u32; 256]; 9], target: u32, work: u32) -> Answer {
    let mut answer = bare(Ok(work));
    for rides in 0..9 {
        if let Some(entry) = entry_of(rows, rides, target) {
            answer.entries[answer.count as usize] = entry;
            answer.count += 1;
        }
    }
    if answer.count == 0 {
        return bare(Err(Reason::NoWay.at(work)));
    }
    answer
}

// One question of sound tables, of which `steps` is the list of steps. Over the budget nothing is told but
// the refusal.
pub fn answer(tables: Lent, steps: &[Step], q: Question) -> Reply {
    let labels = rows_of(steps, q);
    match work_of(tables, &labels, q) {
        Ok(work) => Reply {
            labels,
            legs: legs_of(steps, &labels, q.target),
            answer: listed(&labels, q.target, work),
        },
        Err(refusal) => Reply {
            labels: [[MARK; 256]; 9],
            legs: [[None; 8]; 8],
            answer: bare(Err(refusal)),
        },
    }
}
