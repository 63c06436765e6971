// Fletcher's sum of a run of bytes.
#![tactic(auto)]

ghost use Rattle.std.specs.Prelude.{◌≡◌};
ghost use Rattle.paper.specs.Feed.{fletcher_from, fletcher_of};
ghost use Rattle.checksum.specs.Small.{Is};
ghost use Rattle.checksum.specs.Raw.{Raw, added, Block};

use paper::Sum;

// One byte more. A remainder here would keep the next byte waiting: `block` takes it once, at its end.
fn step(s: Sum, byte: u8) -> Sum
    requires { Raw 4095 s }
    ensures { result ≡ added s byte }
{
    let first = s.first + byte as u32;
    Sum {
        first,
        second: s.second + first,
    }
}

// The sum s with a block of bytes more: at most 4,096, so that neither number can overflow.
fn block(s: Sum, bytes: &[u8]) -> Sum
    requires { Block s bytes.now }
    ensures { Is (fletcher_from s bytes.now) result }
{
    let mut raw = s;
    for &byte in bytes {
        raw = step(raw, byte);
    }
    Sum {
        first: raw.first % 255,
        second: raw.second % 255,
    }
}

// The sum of all the bytes, block by block.
pub fn fletcher(bytes: &[u8]) -> Sum
    ensures { Is (fletcher_of bytes.now) result }
{
    let mut s = Sum {
        first: 0,
        second: 0,
    };
    for part in bytes.chunks(4096) {
        s = block(s, part);
    }
    s
}
