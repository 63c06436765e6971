// What tables hold, as it is shown.
use paper::MARK;
use std::fmt;

// What stands in a table before it is lent.
pub const KEPT: u32 = 777777;

// An element: `-` is the mark, `=` what was there before.
#[derive(Clone, Copy)]
pub struct Shown(pub u32);

// How many elements are what the last one is.
#[derive(Clone, Copy)]
pub struct Rest<'a>(pub &'a [u32]);

impl fmt::Display for Shown {
    fn fmt<W: fmt::Write>(&self, f: &mut fmt::Formatter<W>) -> fmt::Result {
        match self.0 {
            MARK => write!(f, "-"),
            KEPT => write!(f, "="),
            number => write!(f, "{number}"),
        }
    }
}

impl fmt::Display for Rest<'_> {
    fn fmt<W: fmt::Write>(&self, f: &mut fmt::Formatter<W>) -> fmt::Result {
        let Some(last) = self.0.last() else {
            return Ok(());
        };
        let count = self.0.iter().filter(|element| *element == last).count();
        write!(f, "{count} of {}", Shown(*last))
    }
}
