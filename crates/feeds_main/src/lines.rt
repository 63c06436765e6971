// A case on a line of standard input: what it is, a semicolon, and numbers with one byte between that is no
// digit.
use crate::bytes::{Right, low};
use full_tables::Table;

// How a feed is read and written: its length, what is made right, the table that is lent one short, and the
// bytes that there are to write into.
#[derive(Clone, Copy)]
pub struct Case {
    pub length: usize,
    pub right: Right,
    pub short: Option<Table>,
    pub room: usize,
}

fn is_between(byte: &u8) -> bool {
    !byte.is_ascii_digit()
}

// The number of its last six digits.
fn number(digits: &[u8]) -> u32 {
    digits.iter().fold(
        0,
        |number, digit| number % 100000 * 10 + u32::from(digit % 16),
    )
}

// Number k of the line, or 0.
fn number_at(line: &[u8], k: usize) -> u32 {
    line.split(is_between).nth(k).map_or(0, number)
}

impl Case {
    // The case that a line's first four numbers say.
    pub fn of(line: &[u8]) -> Case {
        Case {
            length: number_at(line, 0) as usize,
            right: Right::from(number_at(line, 1)),
            short: Table::try_from(number_at(line, 2)).ok(),
            room: number_at(line, 3) as usize,
        }
    }
}

// Sets the bytes whose offsets and values are the line's other numbers, where the feed has the offset.
pub fn set_bytes(line: &[u8], feed: &mut [u8]) {
    let offsets = line.split(is_between).skip(4).step_by(2);
    let values = line.split(is_between).skip(5).step_by(2);
    for (offset, value) in offsets.zip(values) {
        if let Some(byte) = feed.get_mut(number(offset) as usize) {
            *byte = low(number(value));
        }
    }
}
