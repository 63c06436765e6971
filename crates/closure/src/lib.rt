// 11: the walks are closed.
#![tactic(auto)]

ghost use Rattle.std.specs.Prelude.{◌≡◌};
ghost use Rattle.paper.specs.Timetable.{lent};
ghost use Rattle.paper.specs.Rules.{lowest_of, opens};
ghost use Rattle.closure.specs.Closed.{Walked, begin_of, BeginsPast, Begins, SecondsFrom, FromStop, OnWalk};

use paper::{Lent, MARK};

// The first walk, from k on, whose stop is s or a later one.
fn begin_from(tables: Lent, s: u32, k: u32) -> u32
    requires { BeginsPast (lent tables) s k }
    ensures { result ≡ begin_of (lent tables.entry) s }
{
    let end = tables.heads.walks;
    for w in k..end {
        if tables.walks[(w as usize) * 3] >= s {
            return w;
        }
    }
    end
}

// Where the walks of each stop begin, and after the last stop where they end. An array that was answered would be copied.
fn begins_of(tables: Lent, begins: &mut [u32; 257])
    requires { Walked (lent tables) }
    ensures { Begins (lent tables.entry) begins.new }
{
    let mut k: u32 = 0;
    for s in 0..257 {
        k = begin_from(tables, s, k);
        begins[s as usize] = k;
    }
}

// The seconds to walk from a to each stop: 0 to itself, and the mark where there is no walk, since an Option would
// take twice the stack.
fn seconds_from(tables: Lent, begins: &[u32], a: u32, seconds: &mut [u32; 256])
    requires { FromStop (lent tables) begins.now a }
    ensures { SecondsFrom (lent tables.entry) a seconds.new }
{
    let walks = tables.walks;
    seconds.fill(MARK);
    seconds[a as usize] = 0;
    let first = begins[a as usize];
    let end = begins[(a + 1) as usize];
    for w in first..end {
        let at = (w as usize) * 3;
        seconds[walks[at + 1] as usize] = walks[at + 2];
    }
}

// Walk v, a to b, is followed by a walk b to c, and no walk a to c takes no longer than both.
// All walks that follow are tested: that is quicker than a way out at each.
fn opens_at(tables: Lent, begins: &[u32], seconds: &[u32], v: u32) -> bool
    requires { OnWalk (lent tables) begins.now seconds.now v }
    ensures { result ≡ opens (lent tables.entry) v }
{
    let walks = tables.walks;
    let at = (v as usize) * 3;
    let b = walks[at + 1];
    let first = begins[b as usize];
    let end = begins[(b + 1) as usize];
    let mut wrong = false;
    for w in first..end {
        let next = (w as usize) * 3;
        let c = walks[next + 1];
        let direct = seconds[c as usize];
        let both = walks[at + 2] + walks[next + 2];
        wrong = wrong | (both < direct);
    }
    wrong
}

// The lowest walk that shows that the walks are not closed.
pub fn lowest_open(tables: Lent) -> Option<u32>
    requires { Walked (lent tables) }
    ensures { let T = lent tables.entry in result ≡ lowest_of T.walks (opens T) }
{
    let walks = tables.walks;
    let count = tables.heads.walks;
    if count == 0 {
        return None;
    }
    let mut begins = [0; 257];
    begins_of(tables, &mut begins);
    let mut from = walks[0];
    let mut seconds = [0; 256];
    seconds_from(tables, &begins, from, &mut seconds);
    for v in 0..count {
        let a = walks[(v as usize) * 3];
        if a != from {
            from = a;
            seconds_from(tables, &begins, a, &mut seconds);
        }
        if opens_at(tables, &begins, &seconds, v) {
            return Some(v);
        }
    }
    None
}
