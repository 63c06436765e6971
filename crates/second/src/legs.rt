// Legs by the tie rule: of all last steps that serve, the one with the smallest key.
use crate::rows::{at, entry_of};
use crate::steps::Step;
use paper::Leg;

// The last step to the stop at its time in the row `next`, boarded where the row before it permits. The mark
// of an unreached stop is above every departure.
fn last_step<'a>(
    steps: &'a [Step],
    row: &[u32; 256],
    next: &[u32; 256],
    stop: u32,
) -> Option<&'a Step> {
    let time = at(next, stop);
    steps
        .iter()
        .filter(|s| s.to == stop && s.arrives == time && at(row, s.from) <= s.departs)
        .min_by_key(|s| s.key)
}

// The legs of a journey to the target, read from its end: of these rows the last is its own.
fn read_legs(steps: &[Step], rows: &[[u32; 256]], target: u32, legs: &mut [Option<Leg>; 8]) {
    let mut stop = target;
    for ([row, next], leg) in rows.array_windows::<2>().zip(legs.iter_mut()).rev() {
        let Some(step) = last_step(steps, row, next, stop) else {
            return;
        };
        *leg = Some(step.leg());
        stop = step.from;
    }
}

pub fn legs_of(steps: &[Step], rows: &[[u32; 256]; 9], target: u32) -> [[Option<Leg>; 8]; 8] {
    let mut legs = [[None; 8]; 8];
    for rides in 1..9 {
        if entry_of(rows, rides as u32, target).is_some() {
            read_legs(steps, &rows[..=rides], target, &mut legs[rides - 1]);
        }
    }
    legs
}
