// The printer's lines out.
#![tactic(auto)]

ghost use Rattle.std.specs.Prelude.{◌≡◌, ◌+◌, ◌≤◌, length, get_or};
ghost use Rattle.std.specs.List.{list_any};
ghost use Rattle.laws.specs.Lists.{pieces};
ghost use Rattle.paper.specs.Reply.{zero_entry};
ghost use Rattle.paper.specs.Lines.{trips_line, entry_lines, journeys_line, refused_line, answer_lines};
ghost use Rattle.lettering.specs.Put.{HasRoom, Wrote};
ghost use Rattle.leg_lines.specs.Leg.{RidesRoom};
ghost use Rattle.answer_lines.specs.Room.{EntriesRoom, AnswerRoom};
ghost use Rattle.answer_lines.specs.Printing.{long, Rendered, Refuses};

use leg_lines::put_legs;
use lettering::Pen;
use paper::{Answer, Entry, Refusal};

fn put_refused(pen: &mut Pen, refusal: Refusal)
    requires { HasRoom 30 pen.old }
    ensures { Wrote (refused_line refusal.number refusal.place) 30 pen.old pen.new }
{
    pen.put_line(b"refused ", refusal.number, b" ", refusal.place);
}

fn put_journeys(pen: &mut Pen, count: u32, work: u32)
    requires { HasRoom 36 pen.old }
    ensures { Wrote (journeys_line count work) 36 pen.old pen.new }
{
    pen.put_line(b"journeys ", count, b" work ", work);
}

fn put_trips(pen: &mut Pen, rides: u32, arrival: u32)
    requires { HasRoom 35 pen.old }
    ensures { Wrote (trips_line rides arrival) 35 pen.old pen.new }
{
    pen.put_line(b"trips ", rides, b" arrive ", arrival);
}

fn put_entry(pen: &mut Pen, legs: &[u32], entry: Entry)
    requires { RidesRoom 475 entry.rides legs.now pen.old }
    ensures { Wrote (entry_lines legs.now entry) 475 pen.old pen.new }
{
    put_trips(pen, entry.rides, entry.arrival);
    put_legs(pen, legs, entry.rides as usize);
}

// The entries, each with its legs.
fn put_entries(pen: &mut Pen, legs: &[u32], entries: &[Entry])
    requires { EntriesRoom entries.now legs.now pen.old }
    ensures { Wrote (pieces (length entries.now) (λ i. entry_lines legs.now (get_or entries.now i zero_entry))) 4275 pen.old pen.new }
{
    for entry in entries {
        put_entry(pen, legs, *entry);
    }
}

fn put_answer(pen: &mut Pen, legs: &[u32], answer: Answer)
    requires { AnswerRoom answer legs.now pen.old }
    ensures { Wrote (answer_lines answer legs.now) 4311 pen.old pen.new }
{
    match answer.verdict {
        Ok(work) => {
            put_journeys(pen, answer.count, work);
            put_entries(pen, legs, &answer.entries[..answer.count as usize]);
        }
        Err(refusal) => put_refused(pen, refusal),
    }
}

// Whether an entry has more rides than a row of the legs table has legs.
fn is_overlong(entries: &[Entry]) -> bool
    ensures { result ≡ list_any long entries.now }
{
    entries.iter().any(|entry| 8 < entry.rides)
}

// The lines of an answer, in the front of `out`, and their length; where something is too short, nothing is printed.
pub fn render(answer: Answer, legs: &[u32], out: &mut [u8]) -> Option<usize>
    ensures { Rendered answer legs.now out.old out.new result }
{
    if out.len() < 4311 {
        return None;
    }
    if legs.len() < 320 {
        return None;
    }
    if 9 < answer.count {
        return None;
    }
    if is_overlong(&answer.entries[..answer.count as usize]) {
        return None;
    }
    let mut pen = Pen { out, at: 0 };
    put_answer(&mut pen, legs, answer);
    Some(pen.at)
}

// The line of a refusal, in the same way.
pub fn render_refusal(refusal: Refusal, out: &mut [u8]) -> Option<usize>
    ensures { Refuses refusal out.old out.new result }
{
    if out.len() < 30 {
        return None;
    }
    let mut pen = Pen { out, at: 0 };
    put_refused(&mut pen, refusal);
    Some(pen.at)
}
