// Journeys are read back from the labels by the tie rule: the first last step, and from its boarding stop again.
#![tactic(auto)]

ghost use Rattle.std.specs.Prelude.{◌≡◌, ◌+◌, ◌*◌, ◌≤◌, ◌<◌, length, get_or, replicate};
ghost use Rattle.laws.specs.Below.{mark};
ghost use Rattle.laws.specs.Lists.{over};
ghost use Rattle.paper.specs.Timetable.{lent};
ghost use Rattle.journeys.specs.ReadBack.{listed_also, Readable, ReadBack};

mod legs;

use crate::legs::trace;
use paper::{Entry, Lent, MARK, Question};

// The first `count` of the entries are those found, the others are zero: memory is fixed, and C is given nine entries and their count.
#[derive(Clone, Copy)]
pub struct Listed {
    pub count: u32,
    pub entries: [Entry; 9],
}

// The whole legs table is the mark; what lies beyond stays.
pub fn clear(legs: &mut [u32])
    requires { 320 ≤ length legs.old }
    ensures { legs.new ≡ over (replicate 320 mark) legs.old }
{
    legs[..320].fill(MARK);
}

// The label of stop s in row k.
fn label_at(labels: &[u32], k: u32, s: u32) -> u32
    requires { k * 256 + s < length labels.now }
    ensures { result ≡ get_or labels.now (k * 256 + s) 0 }
{
    let at = (k as usize) * 256 + (s as usize);
    labels[at]
}

// What is listed, and after it the entry of k rides.
fn list_also(listed: Listed, k: u32, arrival: u32) -> Listed
    requires { listed.count < 9 }
    ensures { result ≡ listed_also listed k arrival }
{
    let place = listed.count as usize;
    let mut entries = listed.entries;
    entries[place] = Entry { rides: k, arrival };
    Listed {
        count: listed.count + 1,
        entries,
    }
}

// Lists each k at which row k brings the target earlier than every row before it, and writes its legs.
pub fn read_back(tables: Lent, labels: &[u32], legs: &mut [u32], q: Question) -> Listed
    requires { Readable (lent tables) q labels.now (length legs.old) }
    ensures { ReadBack (lent tables.entry) q legs.old legs.new result.count result.entries }
{
    clear(legs);
    let mut listed = Listed {
        count: 0,
        entries: [Entry {
            rides: 0,
            arrival: 0,
        }; 9],
    };
    let mut best = MARK;
    for k in 0..=q.limit {
        let arrival = label_at(labels, k, q.target);
        if arrival < best {
            best = arrival;
            listed = list_also(listed, k, arrival);
            trace(tables, labels, legs, q.target, k);
        }
    }
    listed
}
