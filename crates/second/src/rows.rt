// Labels: for every number of rides and every stop the earliest arrival over all journeys, each of which is tried.
use crate::steps::Step;
use paper::{Entry, MARK, Question};

// What a row has for a stop: past its end the mark.
pub fn at(row: &[u32; 256], stop: u32) -> u32 {
    row.get(stop as usize).copied().unwrap_or(MARK)
}

// Puts into a row the arrivals that are earlier than its own, of all journeys of at most so many rides that
// begin at the stop at this time: of the one that stays, and of each step followed by each journey of one
// ride less.
fn try_all(row: &mut [u32; 256], steps: &[Step], rides: u32, stop: u32, time: u32) {
    if let Some(earliest) = row.get_mut(stop as usize) {
        *earliest = time.min(*earliest);
    }
    if rides == 0 {
        return;
    }
    for step in steps {
        if step.from == stop && time <= step.departs {
            try_all(row, steps, rides - 1, step.to, step.arrives);
        }
    }
}

// Rows above the ride limit hold the mark.
pub fn rows_of(steps: &[Step], q: Question) -> [[u32; 256]; 9] {
    let mut rows = [[MARK; 256]; 9];
    for (rides, row) in (0..=q.limit).zip(rows.iter_mut()) {
        try_all(row, steps, rides, q.start, q.time);
    }
    rows
}

// The entry of so many rides, if their row is earlier at the target than every row before it.
pub fn entry_of(rows: &[[u32; 256]; 9], rides: u32, target: u32) -> Option<Entry> {
    let (before, rest) = rows.split_at_checked(rides as usize)?;
    let arrival = at(rest.first()?, target);
    if arrival == MARK || before.iter().any(|row| at(row, target) <= arrival) {
        return None;
    }
    Some(Entry { rides, arrival })
}
