// All records of a feed, from the left, into tables 1 to 5, for the layer above: it has checked the feed's length and cleared the tables.
#![tactic(auto)]

ghost use Rattle.std.specs.Prelude.{◌≡◌};
ghost use Rattle.paper.specs.Reading.{ended, whole_of};
ghost use Rattle.records.specs.State.{Near4, BodyRoom, RestRoom, walks_from, RestDone, Ended};

mod walks;

use crate::walks::{WalksRead, read_walks};
use fields::Fields;
use head::read_head;
use paper::{Reason, Refusal, Room};
use route_records::read_routes;
use standing::stands;

// Whether the end record stands at `at` and ends the feed.
fn ends(f: &[u8], at: usize) -> bool
    requires { Near4 f.now at }
    ensures { result ≡ ended f.now at }
{
    let n = f.len();
    at + 4 == n && stands(f, n, at, 4, b'E', b'D')
}

// The walks, from where the routes ended well, and the end.
fn read_rest(f: &[u8], e: usize, at: usize, walks: &mut [u32]) -> Result<(), Refusal>
    requires { RestRoom e at f.now walks.old }
    ensures { RestDone f.now (walks_from f.now e 0 at) result walks.old walks.new }
{
    let k = Fields { feed: f, at: 0 }.two(5) as usize;
    let end = read_walks(f, e, k, WalksRead { at, used: 0 }, walks)?.at;
    if !ends(f, end) {
        return Err(Reason::Form.at(end as u32));
    }
    Ok(())
}

// All records: the head, the routes, and the rest.
pub fn read_whole(f: &[u8], room: &mut Room) -> Result<(), Refusal>
    requires { BodyRoom f.now room.old }
    ensures { Ended (whole_of f.now) result room.old room.new }
{
    read_head(f)?;
    let e = f.len() - 4;
    let k = Fields { feed: f, at: 0 }.byte(4) as usize;
    let routes = read_routes(f, e, k, room)?;
    read_rest(f, e, routes.at, room.walks)
}
