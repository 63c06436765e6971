// The search for the first last step: over ways in, and for each over rides, in the tie rule's order.
#![tactic(auto)]

ghost use Rattle.std.specs.Prelude.{◌≡◌};
ghost use Rattle.paper.specs.Timetable.{lent};
ghost use Rattle.paper.specs.Tie.{first_step};
ghost use Rattle.steps.specs.Search.{WalksIn, seconds_to, WayIn, way_of, Searched};

mod rides;

use crate::rides::Sought;
use paper::{Leg, Lent};

// A way in to a stop: where a ride has to end, the seconds from there, and the stop walked to after it, if there is a walk.
#[derive(Clone, Copy)]
struct Way {
    stop: u32,
    seconds: u32,
    after: Option<u32>,
}

// The seconds of the walk from each stop to p, 0 where there is none, since an Option would take twice the stack.
fn seconds_to(tables: Lent, p: u32) -> [u32; 256]
    requires { WalksIn tables.walks.now tables.heads.walks }
    ensures { result ≡ seconds_to tables.entry.walks.now tables.entry.heads.walks p }
{
    let mut seconds: [u32; 256] = [0; 256];
    for w in 0..tables.heads.walks {
        let at = (w as usize) * 3;
        if tables.walks[at + 1] == p {
            seconds[tables.walks[at] as usize] = tables.walks[at + 2];
        }
    }
    seconds
}

// The way number `way` in to p at v: 0 stays there, s + 1 walks from the stop s.
// No ride comes to s before the next row's label: there is no way where a walk from there would end after v.
#[tactic(auto, using(crate::proofs::Leaves::ways))]
fn way_to(seconds: &[u32; 256], next: &[u32], way: u32, p: u32, v: u32) -> Option<Way>
    requires { WayIn next.now way }
    ensures { result ≡ way_of seconds.now next.now p v way }
{
    if way == 0 {
        return Some(Way {
            stop: p,
            seconds: 0,
            after: None,
        });
    }
    let s = way - 1;
    let takes = seconds[s as usize];
    if takes == 0 {
        return None;
    }
    if v < takes {
        return None;
    }
    if v - takes < next[s as usize] {
        return None;
    }
    Some(Way {
        stop: s,
        seconds: takes,
        after: Some(p),
    })
}

// The first last step that arrives at stop p exactly at v and boards where the row permits it. `next` is the row after it.
pub fn last_step(tables: Lent, row: &[u32], next: &[u32], p: u32, v: u32) -> Option<Leg>
    requires { Searched (lent tables) row.now next.now }
    ensures { result ≡ first_step (lent tables.entry) row.now p v }
{
    let from = seconds_to(tables, p);
    for number in 0..=tables.heads.stops {
        if let Some(way) = way_to(&from, next, number, p, v) {
            let sought = Sought {
                tables,
                row,
                way,
                v,
            };
            if let Some(leg) = sought.ride() {
                return Some(leg);
            }
        }
    }
    None
}
