// The bridge network's feed, and what is made right in a feed whose bytes were set.
use checksum::fletcher;

// The feed of document 01's bridge network, a record to a line.
pub const BRIDGE: [u8; 102] = *b"\x54\x48\x01\x04\x02\x00\x01\x00\x66\
    \x52\x54\x03\x00\x02\x00\x01\x02\
    \x54\x50\x00\x00\x64\x00\x00\x64\x00\x00\xC8\x00\x00\xD2\x00\x01\x90\x00\x01\x90\
    \x54\x50\x00\x01\x2C\x00\x01\x2C\x00\x01\x90\x00\x01\x9A\x00\x02\x58\x00\x02\x58\
    \x52\x54\x02\x00\x02\x01\x03\
    \x54\x50\x00\x00\xCD\x00\x00\xCD\x00\x00\xFA\x00\x00\xFA\
    \x54\x50\x00\x01\x04\x00\x01\x04\x00\x01\x40\x00\x01\x40\
    \x57\x4B\x03\x02\x00\x1E\
    \x45\x44\x2C\x7B";

// What is made right in a feed: the sum, or the end record, the length and the sum.
#[derive(Clone, Copy)]
pub enum Right {
    Nothing,
    Sum,
    End,
}

// A line's number; any number above 1 is the end record.
impl From<u32> for Right {
    fn from(number: u32) -> Right {
        match number {
            0 => Right::Nothing,
            1 => Right::Sum,
            _ => Right::End,
        }
    }
}

impl Right {
    pub fn make(self, feed: &mut [u8]) {
        match self {
            Right::Nothing => {}
            Right::Sum => put_sum(feed),
            Right::End => put_end(feed),
        }
    }
}

// The lowest byte of a number.
pub fn low(number: u32) -> u8 {
    (number % 256) as u8
}

// The sum of all bytes before it.
fn put_sum(feed: &mut [u8]) {
    if let Some((front, place)) = feed.split_last_chunk_mut::<2>() {
        let sum = fletcher(front);
        *place = [low(sum.first), low(sum.second)];
    }
}

// The end record, and the length before it.
fn put_end(feed: &mut [u8]) {
    let length = (feed.len() % 65536) as u16;
    if let Some(end) = feed.last_chunk_mut::<4>() {
        *end = *b"ED\0\0";
    }
    if let Some(head) = feed.first_chunk_mut::<9>() {
        head[7..].copy_from_slice(&length.to_be_bytes());
    }
    put_sum(feed);
}

// At how many places both have different items.
pub fn differing<T: PartialEq>(a: &[T], b: &[T]) -> usize {
    a.iter().zip(b).filter(|(x, y)| x != y).count()
}
