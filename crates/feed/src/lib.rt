// Reading a feed into tables 1 to 5, and writing the feed of lent tables.
#![tactic(auto)]

ghost use Rattle.paper.specs.Timetable.{lent};
ghost use Rattle.paper.specs.Reply.{read_into};
ghost use Rattle.route_records.specs.Keep.{Kept};
ghost use Rattle.feed.specs.State.{lists, lengths, Leaves};
ghost use Rattle.feed.specs.Writing.{Sends};

mod body;

use crate::body::{length_fits, read_body, sum_fits};
use paper::{Heads, Lent, Reason, Refusal, Room};
use sending::{put_feed, size_of};
use timetable::{short_table, tables_fault};

// Reads a feed into tables 1 to 5. Refusals in 01's order: 6, 1, 2, then the records from the left, then 7 to 11.
pub fn read(feed: &[u8], room: &mut Room) -> Result<Heads, Refusal>
    ensures leaves { Leaves (read_into (lengths (lists room.old)) feed.now) result (lists room.old) (lists room.new) }
    ensures kept { Kept room.old room.new }
{
    short_table(&[
        room.routes.len(),
        room.positions.len(),
        room.arrivals.len(),
        room.departures.len(),
        room.walks.len(),
    ])?;
    if !length_fits(feed) {
        return Err(Reason::Length.at(0));
    }
    if !sum_fits(feed) {
        return Err(Reason::Sum.at((feed.len() - 2) as u32));
    }
    read_body(feed, room)
}

// Writes the feed of lent tables. Refusals in 01's order: 6, 5, 7 to 11, then 15. Only the feed's own bytes are set.
pub fn write(tables: Lent, out: &mut [u8]) -> Result<u32, Refusal>
    ensures { Sends (lent tables.entry) result out.old out.new }
{
    tables_fault(tables)?;
    let size = size_of(tables);
    if out.len() < size {
        return Err(Reason::Out.at(size as u32));
    }
    put_feed(tables, size as u32, out);
    Ok(size as u32)
}
