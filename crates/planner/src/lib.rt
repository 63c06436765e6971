// One question answered: every refusal in 01's order, then labels, work, entries and legs.
#![tactic(auto)]

ghost use Rattle.std.specs.Prelude.{◌≡◌, [], ◌∷◌};
ghost use Rattle.paper.specs.Timetable.{tables, lent};
ghost use Rattle.paper.specs.Reply.{question_broken, refused, reply_of};
ghost use Rattle.paper.specs.Demands.{Ready};
ghost use Rattle.planner.specs.Asked.{answer_of, Replied};

use journeys::Listed;
use paper::{Answer, Entry, Heads, Lent, Question, Reason, Refusal};

// What a question that nothing refuses is answered: the work, and the entries.
#[derive(Clone, Copy)]
struct Found {
    work: u32,
    listed: Listed,
}

// A refused question lists no entry.
fn refuse(refusal: Refusal) -> Answer
    ensures { result ≡ refused refusal }
{
    Answer {
        verdict: Err(refusal),
        count: 0,
        entries: [Entry {
            rides: 0,
            arrival: 0,
        }; 9],
    }
}

// 12: start or target not a stop, time or ride limit too large.
fn question_broken(heads: Heads, q: Question) -> bool
    ensures { result ≡ question_broken (tables heads [] [] [] [] []) q }
{
    (q.start >= heads.stops) | (q.target >= heads.stops) | (q.time >= 172800) | (8 < q.limit)
}

// A question that nothing before 13 refuses: labels and work, then entries and legs. 14 if there is no entry.
fn search(tables: Lent, labels: &mut [u32], legs: &mut [u32], q: Question) -> Result<Found, Refusal>
    requires { Ready (lent tables) labels.old legs.old q }
    ensures { Replied (reply_of (lent tables.entry) labels.old legs.old q) (answer_of result) labels.new legs.new }
{
    match rounds::run(tables, labels, q) {
        Err(refusal) => {
            journeys::clear(legs);
            Err(refusal)
        }
        Ok(work) => {
            let listed = journeys::read_back(tables, labels, legs, q);
            if listed.count == 0 {
                return Err(Reason::NoWay.at(work));
            }
            Ok(Found { work, listed })
        }
    }
}

// Each refusal before 13 in its order, and then the search.
fn find(tables: Lent, labels: &mut [u32], legs: &mut [u32], q: Question) -> Result<Found, Refusal>
    ensures { Replied (reply_of (lent tables.entry) labels.old legs.old q) (answer_of result) labels.new legs.new }
{
    timetable::short_table(&[
        tables.routes.len(),
        tables.positions.len(),
        tables.arrivals.len(),
        tables.departures.len(),
        tables.walks.len(),
        labels.len(),
        legs.len(),
    ])?;
    timetable::fault_of(tables)?;
    if question_broken(tables.heads, q) {
        return Err(Reason::Question.at(0));
    }
    search(tables, labels, legs, q)
}

// From start to target: how early, with how many rides, and by which legs.
pub fn ask(tables: Lent, labels: &mut [u32], legs: &mut [u32], q: Question) -> Answer
    ensures { Replied (reply_of (lent tables.entry) labels.old legs.old q) result labels.new legs.new }
{
    match find(tables, labels, legs, q) {
        Ok(found) => {
            let entries = found.listed.entries;
            Answer {
                verdict: Ok(found.work),
                count: found.listed.count,
                entries,
            }
        }
        Err(refusal) => refuse(refusal),
    }
}
