// A digest of numbers: a change of any of them changes it.
use std::fmt;

#[derive(Clone, Copy, Default)]
pub struct Digest(u32);

impl Digest {
    // With one number more.
    pub fn and(self, number: u32) -> Digest {
        let mixed = u64::from(self.0) * 16777619 + u64::from(number);
        Digest((mixed % 4294967291) as u32)
    }

    pub fn and_all<T: Copy + Into<u32>>(self, numbers: &[T]) -> Digest {
        numbers
            .iter()
            .fold(self, |digest, number| digest.and((*number).into()))
    }
}

impl fmt::Display for Digest {
    fn fmt<W: fmt::Write>(&self, f: &mut fmt::Formatter<W>) -> fmt::Result {
        let number = self.0;
        write!(f, "{number}")
    }
}
