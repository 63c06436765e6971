// Walk records, read into table 5.
ghost use Rattle.std.specs.Prelude.{◌≡◌, [], ◌∷◌, ◌++◌, ◌+◌, ◌*◌, take};
ghost use Rattle.laws.specs.Below.{iterate};
ghost use Rattle.laws.specs.Lists.{over};
ghost use Rattle.laws.specs.Fields.{byte, two};
ghost use Rattle.paper.specs.Reading.{next_walk};
ghost use Rattle.route_records.specs.Keep.{CanPut};
ghost use Rattle.records.specs.State.{walks_of, WalkRoom, WalksOn};

use fields::Fields;
use paper::{Reason, Refusal};
use standing::stands;

// How far the reading of the walks has come: the offset, and how much table 5 holds.
#[derive(Clone, Copy)]
pub struct WalksRead {
    pub at: usize,
    pub used: usize,
}

// From, to and seconds, which stand at `at`, go to d at k.
fn keep_walk(f: &[u8], at: usize, d: &mut [u32], k: usize)
    requires { CanPut f.now at 4 d.old k 3 }
    ensures { d.new ≡ over (take k d.old ++ (byte f.now at ∷ byte f.now (at + 1) ∷ two f.now (at + 2) ∷ [])) d.old }
{
    let walk = Fields { feed: f, at };
    d[k..k + 3].copy_from_slice(&[walk.byte(0), walk.byte(1), walk.two(2)]);
}

// k walks, from s on. The test stands in the loop: a Result from walk to walk would cost more than the walk.
pub fn read_walks(
    f: &[u8],
    e: usize,
    k: usize,
    s: WalksRead,
    d: &mut [u32],
) -> Result<WalksRead, Refusal>
    requires { WalkRoom e (3 * k) s f.now d.old }
    ensures { WalksOn e (3 * k) s (iterate k (next_walk f.now e) (walks_of s d.old)) result d.old d.new }
{
    let mut q = s;
    for _ in 0..k {
        if !stands(f, e, q.at, 6, b'W', b'K') {
            return Err(Reason::Form.at(q.at as u32));
        }
        keep_walk(f, q.at + 2, d, q.used);
        q = WalksRead {
            at: q.at + 6,
            used: q.used + 3,
        };
    }
    Ok(q)
}
