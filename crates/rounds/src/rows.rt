// The labels' rows: filled with the mark, written after a round, and settled after the last.
ghost use Rattle.std.specs.Prelude.{◌≡◌, ◌≤◌, length, replicate};
ghost use Rattle.laws.specs.Below.{mark};
ghost use Rattle.laws.specs.Lists.{over};
ghost use Rattle.rounds.specs.Round.{Follows, RowWritten, Settling, settled};

use paper::MARK;

// Row k + 1: a stop keeps its label, or takes what this round brings. Says whether a stop improved.
pub fn write_row(labels: &mut [u32], k: u32, stops: u32, reach: &[u32], next: &[u32]) -> bool
    requires { Follows (length labels.old) k stops (length reach.now) (length next.now) }
    ensures { RowWritten labels.old labels.new k stops reach.now next.now result }
{
    let base = k as usize * 256;
    let end = stops as usize;
    let mut improved = false;
    for s in 0..end {
        let old = labels[base + s];
        let new = reach[s].min(next[s]);
        labels[base + 256 + s] = old.min(new);
        if new < old {
            improved = true;
        }
    }
    improved
}

// The labels' full size is the mark; what lies beyond stays.
pub fn fill(labels: &mut [u32])
    requires { 2304 ≤ length labels.old }
    ensures { labels.new ≡ over (replicate 2304 mark) labels.old }
{
    labels[..2304].fill(MARK);
}

// The rows after row k, up to the limit, equal it.
pub fn settle(labels: &mut [u32], k: u32, limit: u32)
    requires { Settling (length labels.old) k limit }
    ensures { labels.new ≡ settled labels.old k limit }
{
    let row = k as usize * 256;
    for j in k..limit {
        let next = j as usize * 256 + 256;
        labels.copy_within(row..row + 256, next);
    }
}
