// The input, line by line. A line that begins with `*` (01's starred cases) or `-` is a name. Any other
// begins with a word, known by its first letter, and goes on with numbers, which come to stand on the desk:
// heads, routes, positions, arrivals, departures, times (arrivals and departures), walks, next (a question),
// question (which is asked), change (checking, writing and asking with one number changed), feed. Tables are
// not cleared: what an earlier network left beyond the used part is not read.
use crate::asking::asks;
use crate::checking::all_three;
use crate::feeds::writes_and_reads;
use paper::{Heads, Lent, Question};
use std::io;

// Where the heads, a question, a change and tables 1 to 5 begin.
const HEADS: usize = 1;

const QUESTION: usize = 4;

const CHANGE: usize = 9;

const ROUTES: usize = 16;

const POSITIONS: usize = 272;

const ARRIVALS: usize = 2320;

const DEPARTURES: usize = 4368;

const WALKS: usize = 6416;

const END: usize = 7952;

// It stays one array, since a line or a change that goes past its table goes on in the next.
#[derive(Drop)]
pub struct Desk {
    numbers: [u32; END],
}

// Where a word's numbers go. Those of any other go nowhere.
fn place_of(word: u8) -> Option<usize> {
    match word {
        b'h' => Some(HEADS),
        b'n' | b'q' => Some(QUESTION),
        b'c' => Some(CHANGE),
        b'r' => Some(ROUTES),
        b'p' => Some(POSITIONS),
        b'a' | b't' => Some(ARRIVALS),
        b'd' => Some(DEPARTURES),
        b'w' => Some(WALKS),
        _ => None,
    }
}

// Where table 1 to 5 begins, by the input's own numbers; 0 is both tables of times, and any other begins one before table 1.
fn base_of(table: u32) -> usize {
    match table {
        1 => ROUTES,
        2 => POSITIONS,
        0 | 3 => ARRIVALS,
        4 => DEPARTURES,
        5 => WALKS,
        _ => ROUTES - 1,
    }
}

// The number that a field's digits are; a digit that 32 bits have no room for is left out.
fn number_of(field: &[u8]) -> Option<u32> {
    let mut number = None;
    for byte in field.iter().filter(|byte| byte.is_ascii_digit()) {
        let value = number.unwrap_or(0u32);
        let longer = value
            .checked_mul(10)
            .and_then(|tens| tens.checked_add(*byte as u32 % 16));
        number = Some(longer.unwrap_or(value));
    }
    number
}

impl Desk {
    pub fn new() -> Desk {
        Desk { numbers: [0; END] }
    }

    fn lent(&self) -> Lent<'_> {
        let [_, stops, routes, walks, ..] = self.numbers;
        Lent {
            heads: Heads {
                stops,
                routes,
                walks,
            },
            routes: &self.numbers[ROUTES..POSITIONS],
            positions: &self.numbers[POSITIONS..ARRIVALS],
            arrivals: &self.numbers[ARRIVALS..DEPARTURES],
            departures: &self.numbers[DEPARTURES..WALKS],
            walks: &self.numbers[WALKS..],
        }
    }

    fn question(&self) -> Question {
        let [_, _, _, _, start, target, time, limit, budget, ..] = self.numbers;
        Question {
            start,
            target,
            time,
            limit,
            budget,
        }
    }

    fn put(&mut self, place: usize, value: u32) {
        if let Some(number) = self.numbers.get_mut(place) {
            *number = value;
        }
    }

    // The number at a place; that of both tables of times if so wanted.
    fn set(&mut self, both: bool, place: usize, value: u32) {
        self.put(place, value);
        if both {
            self.put(place.saturating_add(DEPARTURES - ARRIVALS), value);
        }
    }

    // One number is another while checking, writing and asking are done.
    fn change(&mut self, rt: &impl Print) -> io::Result<()> {
        let table = self.numbers[CHANGE];
        let at = self.numbers[CHANGE + 1];
        let value = self.numbers[CHANGE + 2];
        let place = base_of(table).saturating_add(at as usize);
        let old = self.numbers.get(place).copied().unwrap_or(0);
        self.set(table == 0, place, value);
        all_three(rt, self.lent(), self.question())?;
        self.set(table == 0, place, old);
        Ok(())
    }

    // The line has ended.
    fn obey(&mut self, rt: &impl Print, word: u8) -> io::Result<()> {
        match word {
            b'q' => asks(rt, self.lent(), self.question()),
            b'c' => self.change(rt),
            b'f' => writes_and_reads(rt, self.lent()),
            _ => Ok(()),
        }
    }

    // The numbers of a line. Its first field is the rest of its word, and stands before them.
    fn take(&mut self, word: u8, fields: &[u8]) {
        let Some(first) = place_of(word) else {
            return;
        };
        let places = first.saturating_sub(1)..END;
        for (place, field) in places.zip(fields.split(|byte| *byte == b' ')) {
            if let Some(number) = number_of(field) {
                self.set(word == b't', place, number);
            }
        }
    }

    // A line, with its newline if it has one.
    pub fn follow(&mut self, rt: &impl Print, line: &[u8]) -> io::Result<()> {
        match line {
            [b'*' | b'-', ..] => rt.write_all(line),
            [word, fields @ .., b'\n'] => {
                self.take(*word, fields);
                self.obey(rt, *word)
            }
            _ => Ok(()),
        }
    }
}
