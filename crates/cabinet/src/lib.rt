// The cabinet's face for C and Rust: checking, reading, writing and asking on numbers and slices alone, as C's interface wants them, each
// answer packed into one number.
#![tactic(auto)]

ghost use Rattle.std.specs.Prelude.{◌≡◌};
ghost use Rattle.paper.specs.Timetable.{tables};
ghost use Rattle.paper.specs.Reply.{check_of, read_into, reply_of};
ghost use Rattle.packing.specs.Packed.{checked_number};
ghost use Rattle.feed.specs.State.{lengths};
ghost use Rattle.cabinet.specs.Calls.{heads_by, question_by, five, Reads, Writes, Asks};

use packing::{checked_number, put_entries, reading_number};
use paper::{Heads, Lent, Question, Room};

// Checks tables 1 to 5. Done: the work limit.
#[unsafe(no_mangle)]
pub extern "C" fn pospolarku_check(
    stops: u32,
    route_count: u32,
    walk_count: u32,
    routes: &[u32],
    positions: &[u32],
    arrivals: &[u32],
    departures: &[u32],
    walks: &[u32],
) -> u64
    ensures { result ≡ checked_number (check_of (tables (heads_by stops route_count walk_count) routes.now positions.now arrivals.now departures.now walks.now)) }
{
    let tables = Lent {
        heads: Heads {
            stops,
            routes: route_count,
            walks: walk_count,
        },
        routes,
        positions,
        arrivals,
        departures,
        walks,
    };
    checked_number(timetable::check(tables))
}

// Reads a feed into tables 1 to 5. Done: the head counts.
#[unsafe(no_mangle)]
pub extern "C" fn pospolarku_read(
    feed: &[u8],
    routes: &mut [u32],
    positions: &mut [u32],
    arrivals: &mut [u32],
    departures: &mut [u32],
    walks: &mut [u32],
) -> u64
    ensures { let old = five routes.old positions.old arrivals.old departures.old walks.old in Reads (read_into (lengths old) feed.now) result old (five routes.new positions.new arrivals.new departures.new walks.new) }
{
    let mut room = Room {
        routes,
        positions,
        arrivals,
        departures,
        walks,
    };
    reading_number(feed::read(feed, &mut room))
}

// Writes the feed of tables 1 to 5. Done: its bytes.
#[unsafe(no_mangle)]
pub extern "C" fn pospolarku_write(
    stops: u32,
    route_count: u32,
    walk_count: u32,
    routes: &[u32],
    positions: &[u32],
    arrivals: &[u32],
    departures: &[u32],
    walks: &[u32],
    out: &mut [u8],
) -> u64
    ensures { Writes (tables (heads_by stops route_count walk_count) routes.now positions.now arrivals.now departures.now walks.now) result out.old out.new }
{
    let tables = Lent {
        heads: Heads {
            stops,
            routes: route_count,
            walks: walk_count,
        },
        routes,
        positions,
        arrivals,
        departures,
        walks,
    };
    checked_number(feed::write(tables, out))
}

// Answers a question over tables 1 to 5: labels, legs and entries. Answered: the work.
#[unsafe(no_mangle)]
pub extern "C" fn pospolarku_ask(
    stops: u32,
    route_count: u32,
    walk_count: u32,
    routes: &[u32],
    positions: &[u32],
    arrivals: &[u32],
    departures: &[u32],
    walks: &[u32],
    labels: &mut [u32],
    legs: &mut [u32],
    start: u32,
    target: u32,
    time: u32,
    limit: u32,
    budget: u32,
    entries: &mut [u32],
) -> u64
    ensures { Asks (reply_of (tables (heads_by stops route_count walk_count) routes.now positions.now arrivals.now departures.now walks.now) labels.old legs.old (question_by start target time limit budget)) result labels.new legs.new entries.old entries.new }
{
    let tables = Lent {
        heads: Heads {
            stops,
            routes: route_count,
            walks: walk_count,
        },
        routes,
        positions,
        arrivals,
        departures,
        walks,
    };
    let question = Question {
        start,
        target,
        time,
        limit,
        budget,
    };
    let answer = planner::ask(tables, labels, legs, question);
    put_entries(answer.count, answer.entries, entries);
    checked_number(answer.verdict)
}
