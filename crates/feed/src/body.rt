// The body of a feed whose length and sum are right: tables cleared, filled, judged, and cleared again where it is bad.
ghost use Rattle.std.specs.Prelude.{◌≡◌, ◌≤◌, length};
ghost use Rattle.paper.specs.Timetable.{lent};
ghost use Rattle.paper.specs.Reading.{body_of, length_right, sum_right, cleared};
ghost use Rattle.route_records.specs.Keep.{Kept};
ghost use Rattle.records.specs.State.{Full, BodyRoom};
ghost use Rattle.feed.specs.State.{heads_of, lists, tables_of, Cleared, Judged, Leaves};

use checksum::fletcher;
use fields::Fields;
use paper::{Heads, Lent, Refusal, Room};
use records::read_whole;
use timetable::whole_fault;

// The first k of d become 0.
fn zero(d: &mut [u32], k: usize)
    requires { k ≤ length d.old }
    ensures { d.new ≡ cleared k d.old }
{
    d[..k].fill(0);
}

// The five tables become zero over their full size.
fn clear(room: &mut Room)
    requires { Full room.old }
    ensures { Cleared room.old room.new }
{
    zero(room.routes, 256);
    zero(room.positions, 2048);
    zero(room.arrivals, 2048);
    zero(room.departures, 2048);
    zero(room.walks, 1536);
}

// The head counts of a feed.
fn heads_of(f: &[u8]) -> Heads
    ensures { result ≡ heads_of f.now }
{
    let head = Fields { feed: f, at: 0 };
    Heads {
        stops: head.byte(3) + 1,
        routes: head.byte(4),
        walks: head.two(5),
    }
}

// The tables as they stand, with head counts beside them.
fn seen<'a>(room: &'a Room, heads: Heads) -> Lent<'a>
    ensures { lent result ≡ tables_of heads (lists room.now) }
{
    Lent {
        heads,
        routes: room.routes,
        positions: room.positions,
        arrivals: room.arrivals,
        departures: room.departures,
        walks: room.walks,
    }
}

// All records, judged by 7 to 11. Where they are bad, the tables are not cleared yet.
fn fill(f: &[u8], room: &mut Room) -> Result<Heads, Refusal>
    requires { BodyRoom f.now room.old }
    ensures { Judged f.now result room.old room.new }
{
    read_whole(f, room)?;
    let heads = heads_of(f);
    whole_fault(seen(room, heads))?;
    Ok(heads)
}

// The tables are cleared, filled, and cleared again where the feed is bad.
pub fn read_body(f: &[u8], room: &mut Room) -> Result<Heads, Refusal>
    requires { BodyRoom f.now room.old }
    ensures leaves { Leaves (body_of f.now) result (lists room.old) (lists room.new) }
    ensures kept { Kept room.old room.new }
{
    clear(room);
    let read = fill(f, room);
    if read.is_err() {
        clear(room);
    }
    read
}

// Whether the feed's length is allowed and is the one that its head names.
pub fn length_fits(f: &[u8]) -> bool
    ensures { result ≡ length_right f.now }
{
    let n = f.len();
    if n < 13 || 17869 < n {
        return false;
    }
    Fields { feed: f, at: 0 }.two(7) as usize == n
}

// Whether the last two bytes are the sum of all before them.
pub fn sum_fits(f: &[u8]) -> bool
    requires { 13 ≤ length f.now }
    ensures { result ≡ sum_right f.now }
{
    let at = f.len() - 2;
    let sum = fletcher(&f[..at]);
    let end = Fields { feed: f, at };
    end.byte(0) == sum.first && end.byte(1) == sum.second
}
