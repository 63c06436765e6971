// The work, counted from its definition.
use crate::lines::{Line, line_of};
use crate::rows::at;
use paper::{Lent, MARK, Question, Reason, Refusal};

// e(i): looked for from trip 0 up. The mark of an unreached stop is above every departure.
fn first_caught(line: Line, i: usize, reached: u32) -> u32 {
    for (trip, departures) in (0..line.m).zip(line.departures.chunks_exact(line.n as usize)) {
        if departures.get(i).is_some_and(|d| reached <= *d) {
            return trip;
        }
    }
    line.m
}

// The cost of a position, by row k's arrival there, c before it and c at it.
fn cost(reached: u32, before: u32, now: u32) -> u32 {
    if reached == MARK {
        0
    } else if now == 0 {
        before
    } else {
        before.saturating_sub(now).saturating_add(1)
    }
}

// The cost of a look at a line, over all positions but its last: c is the smallest e so far, with m before
// the first.
fn look(line: Line, row: &[u32; 256]) -> u32 {
    let mut sum = 0u32;
    let mut c = line.m;
    if let Some((_, stops)) = line.stops.split_last() {
        for (i, stop) in stops.iter().enumerate() {
            let reached = at(row, *stop);
            let now = c.min(first_caught(line, i, reached));
            sum = sum.saturating_add(cost(reached, c, now));
            c = now;
        }
    }
    sum
}

// The work of the round that starts from this row: every route, and one for every walk.
fn round(tables: Lent, row: &[u32; 256]) -> u32 {
    let mut sum = tables.heads.walks;
    for route in 0..tables.heads.routes {
        sum = sum.saturating_add(look(line_of(tables, route), row));
    }
    sum
}

// Does the row `next` improve on a row at a stop?
fn improves(row: &[u32; 256], next: &[u32; 256]) -> bool {
    row.iter().zip(next).any(|(r, n)| n < r)
}

// The work of the rounds that run; or that the budget is passed, with the round that passes it.
pub fn work_of(tables: Lent, rows: &[[u32; 256]; 9], q: Question) -> Result<u32, Refusal> {
    let mut sum = 0u32;
    for (k, [row, next]) in (1..=q.limit).zip(rows.array_windows::<2>()) {
        sum = sum.saturating_add(round(tables, row));
        if q.budget < sum {
            return Err(Reason::Budget.at(k));
        }
        if !improves(row, next) {
            break;
        }
    }
    Ok(sum)
}
