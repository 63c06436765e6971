// 10: each walk.
#![tactic(auto)]

ghost use Rattle.std.specs.Prelude.{◌≡◌};
ghost use Rattle.paper.specs.Timetable.{lent};
ghost use Rattle.paper.specs.Rules.{lowest_of, walk_broken};
ghost use Rattle.footpaths.specs.Walks.{WalksLent, AtWalk};

use paper::Lent;

// One walk, and that it rises from the walk before it.
fn walk_broken(tables: Lent, w: u32) -> bool
    requires { AtWalk (lent tables) w }
    ensures { result ≡ walk_broken (lent tables.entry) w }
{
    let walks = tables.walks;
    let stops = tables.heads.stops;
    let at = (w as usize) * 3;
    let from = walks[at];
    let to = walks[at + 1];
    let seconds = walks[at + 2];
    if (from >= stops) | (to >= stops) | (from == to) | (seconds < 1) | (3600 < seconds) {
        return true;
    }
    if 0 < w {
        let last = (w as usize - 1) * 3;
        let before = walks[last];
        return !((before < from) | (before == from) & (walks[last + 1] < to));
    }
    false
}

// The lowest broken walk.
pub fn lowest_walk(tables: Lent) -> Option<u32>
    requires { WalksLent (lent tables) }
    ensures { let T = lent tables.entry in result ≡ lowest_of T.walks (walk_broken T) }
{
    (0..tables.heads.walks).find(|w| walk_broken(tables, *w))
}
