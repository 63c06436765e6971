// The bytes of a feed put into a buffer, for the layer above: it has checked the tables, and lends a buffer of at least the feed's size.
#![tactic(auto)]

ghost use Rattle.std.specs.Prelude.{◌≡◌, ◌+◌, ◌*◌};
ghost use Rattle.paper.specs.Timetable.{lent};
ghost use Rattle.paper.specs.Feed.{feed_of};
ghost use Rattle.sending.specs.Puts.{Puts, RouteSmall, size_by, SizeFits, FeedFits};

mod bytes;
mod records;

use crate::bytes::put_end;
use crate::records::{put_head, put_routes, put_walks};
use lettering::Pen;
use paper::Lent;

// The bytes of a route of n positions and m trips.
fn route_size(n: u32, m: u32) -> usize
    requires { RouteSmall n m }
    ensures { result ≡ 5 + n + (2 + 6 * n) * m }
{
    (5 + n + (2 + 6 * n) * m) as usize
}

// How many bytes the feed has, from table 1 and the head counts.
pub fn size_of(tables: Lent) -> usize
    requires { SizeFits (lent tables) tables.heads.routes tables.heads.walks }
    ensures { result ≡ size_by (lent tables.entry) tables.entry.heads.routes tables.entry.heads.walks }
{
    let mut size: usize = 13;
    for r in 0..tables.heads.routes as usize {
        size += route_size(tables.routes[r * 4], tables.routes[r * 4 + 1]);
    }
    size + 6 * tables.heads.walks as usize
}

// The whole feed, of this size.
pub fn put_feed(tables: Lent, size: u32, out: &mut [u8]) -> usize
    requires { FeedFits (lent tables) size out.old }
    ensures { Puts (feed_of (lent tables.entry)) 0 out.old result out.new }
{
    let mut pen = Pen { out, at: 0 };
    put_head(&mut pen, tables.heads, size);
    put_routes(&mut pen, tables);
    put_walks(&mut pen, tables);
    put_end(&mut pen);
    pen.at
}
