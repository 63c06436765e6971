// The records of a timetable put into the feed's buffer.
ghost use Rattle.std.specs.Prelude.{◌+◌, ◌*◌};
ghost use Rattle.laws.specs.Lists.{pieces};
ghost use Rattle.paper.specs.Timetable.{lent};
ghost use Rattle.paper.specs.Feed.{trip_bytes, route_bytes, routes_bytes, walk_bytes, walks_bytes};
ghost use Rattle.sending.specs.Puts.{Sent, StopsFit, TripFits, TripsFit, RouteRoom, RoutesRoom, WalkRoom, WalksRoom, head_of, HeadFits};

use crate::bytes::{put_event, put_two};
use lettering::Pen;
use paper::{Heads, Lent};

fn put_stops(pen: &mut Pen, stops: &[u32])
    requires { StopsFit stops.now pen.old }
    ensures { Sent stops.now pen.old pen.new }
{
    for stop in stops {
        pen.put_byte(*stop as u8);
    }
}

// The trip of n events from event v on.
fn put_trip(pen: &mut Pen, tables: Lent, n: usize, v: usize)
    requires { TripFits (lent tables) n v pen.old }
    ensures { Sent (trip_bytes (lent tables.entry) n v) pen.old pen.new }
{
    pen.put_word(b"TP");
    for i in 0..n {
        put_event(pen, tables.arrivals[v + i], tables.departures[v + i]);
    }
}

// The m trips of a route whose first event is v.
fn put_trips(pen: &mut Pen, tables: Lent, n: usize, m: usize, v: usize)
    requires { TripsFit (lent tables) n m v pen.old }
    ensures { Sent (pieces m (λ j. trip_bytes (lent tables.entry) n (v + j * n))) pen.old pen.new }
{
    for j in 0..m {
        put_trip(pen, tables, n, v + j * n);
    }
}

// Route r, followed at once by its trips.
fn put_route(pen: &mut Pen, tables: Lent, r: usize)
    requires { RouteRoom (lent tables) r pen.old }
    ensures { Sent (route_bytes (lent tables.entry) r) pen.old pen.new }
{
    let n = tables.routes[r * 4] as usize;
    let m = tables.routes[r * 4 + 1];
    let p = tables.routes[r * 4 + 2] as usize;
    let v = tables.routes[r * 4 + 3] as usize;
    pen.put_word(b"RT");
    pen.put_byte(n as u8);
    put_two(pen, m);
    put_stops(pen, &tables.positions[p..p + n]);
    put_trips(pen, tables, n, m as usize, v);
}

pub fn put_routes(pen: &mut Pen, tables: Lent)
    requires { RoutesRoom (lent tables) tables.heads.routes pen.old }
    ensures { Sent (routes_bytes (lent tables.entry) tables.entry.heads.routes) pen.old pen.new }
{
    for r in 0..tables.heads.routes as usize {
        put_route(pen, tables, r);
    }
}

fn put_walk(pen: &mut Pen, tables: Lent, w: usize)
    requires { WalkRoom (lent tables) w pen.old }
    ensures { Sent (walk_bytes (lent tables.entry) w) pen.old pen.new }
{
    pen.put_word(b"WK");
    pen.put_byte(tables.walks[w * 3] as u8);
    pen.put_byte(tables.walks[w * 3 + 1] as u8);
    put_two(pen, tables.walks[w * 3 + 2]);
}

pub fn put_walks(pen: &mut Pen, tables: Lent)
    requires { WalksRoom (lent tables) tables.heads.walks pen.old }
    ensures { Sent (walks_bytes (lent tables.entry) tables.entry.heads.walks) pen.old pen.new }
{
    for w in 0..tables.heads.walks as usize {
        put_walk(pen, tables, w);
    }
}

pub fn put_head(pen: &mut Pen, heads: Heads, size: u32)
    requires { HeadFits heads size pen.old }
    ensures { Sent (head_of heads size) pen.old pen.new }
{
    pen.put_word(b"TH");
    pen.put_byte(1);
    pen.put_byte((heads.stops - 1) as u8);
    pen.put_byte(heads.routes as u8);
    put_two(pen, heads.walks);
    put_two(pen, size);
}
