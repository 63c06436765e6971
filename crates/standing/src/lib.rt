// Whether a record stands at an offset; and the times in one. The loops over these know that they stand, so no test is made again for each.
#![tactic(auto)]

ghost use Rattle.std.specs.Prelude.{◌≡◌, ◌+◌, ◌<◌, length};
ghost use Rattle.laws.specs.Fields.{three};
ghost use Rattle.paper.specs.Reading.{marked};
ghost use Rattle.fields.specs.Field.{Field};
ghost use Rattle.standing.specs.Near.{Near};

use fields::Fields;

pub fn three_at(f: &[u8], i: usize) -> u32
    requires { i + 2 < length f.now }
    ensures { Field (three f.now i) 16777216 result }
{
    f[i] as u32 * 65536 + f[i + 1] as u32 * 256 + f[i + 2] as u32
}

// Whether a record of k bytes with the mark p q stands at `at` and ends by e.
pub fn stands(f: &[u8], e: usize, at: usize, k: usize, p: u8, q: u8) -> bool
    requires { Near f.now e at k }
    ensures { result ≡ marked f.now e at k p q }
{
    if e < at + k {
        return false;
    }
    Fields { feed: f, at }.begins(p as usize * 256 + q as usize)
}
