// A generator that always gives the same numbers.

ghost use Rattle.std.specs.Prelude.{◌<◌};

// The generator's number.
#[derive(Clone, Copy)]
pub struct Seed(pub u32);

impl Seed {
    pub fn next(self) -> Seed {
        Seed(((u64::from(self.0) * 1103515245 + 12345) % 2147483648) as u32)
    }

    // A number below k, or 0 where there is none.
    pub fn drawn(self, k: u32) -> u32 {
        (self.0 / 256).checked_rem(k).unwrap_or(0)
    }

    // Another number to draw from.
    pub fn part(self, by: u32) -> Seed
        requires { 0 < by }
    {
        Seed(self.0 / by)
    }
}
