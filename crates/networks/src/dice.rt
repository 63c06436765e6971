// Numbers that look drawn and are the same in every run: a seed gives a row of numbers, and seeds for the
// parts of what it stands for.
ghost use Rattle.std.specs.Prelude.{◌<◌, ◌≤◌};

// The seed after this one.
fn next(seed: u64) -> u64
    ensures { result < 2147483648 }
{
    (seed % 2147483648 * 1103515245 + 12345) % 2147483648
}

// The same with its halves exchanged.
fn turned(seed: u64) -> u64
    ensures { result < 2147483648 }
{
    let s = next(seed);
    s / 65536 + s % 65536 * 32768
}

// The seed of part k.
pub fn part(seed: u32, k: u32) -> u32
    ensures { result < 2147483648 }
{
    next(turned(turned(seed as u64) + k as u64)) as u32
}

// Number k of a seed, from 0 to `most`.
pub fn draw(seed: u32, k: u32, most: u32) -> u32
    ensures { result ≤ most }
{
    (part(seed, k) as u64 * (most as u64 + 1) / 2147483648) as u32
}

// Number k of a seed: how far apart times may be drawn. Often it is not at all, so that trips are equal and
// rides take no time.
pub fn spread(seed: u32, k: u32) -> u32 {
    match draw(seed, k, 6) {
        0 | 1 => 0,
        2 => 1,
        3 | 4 => 3,
        5 => 10,
        _ => 40,
    }
}
