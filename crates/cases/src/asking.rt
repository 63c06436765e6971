// One question of lent tables: the answer in the printer's lines, the target's labels, and how much of labels
// and legs is as their last element.
use crate::showing::{KEPT, Rest, Shown};
use paper::{Answer, Heads, Lent, Question};
use std::io;

// A refusal by itself, since a legs table that is too short cannot be printed from.
fn print_answer(rt: &impl Print, answer: Answer, legs: &[u32]) -> io::Result<()> {
    if let Err(refusal) = answer.verdict {
        return println!(rt; "refused {refusal}");
    }
    let mut out = [0; 4311];
    match answer_lines::render(answer, legs, &mut out) {
        Some(length) => rt.write_all(out.get(..length).unwrap_or(&[])),
        None => Ok(()),
    }
}

// What is left in labels and legs: of the labels what every row has for the target.
fn print_left(rt: &impl Print, labels: &[u32], legs: &[u32], target: u32) -> io::Result<()> {
    print!(rt; "labels {}:", Rest(labels))?;
    for label in labels.iter().skip(target as usize).step_by(256).take(9) {
        print!(rt; " {}", Shown(*label))?;
    }
    println!(rt; "; legs {}", Rest(legs))
}

// Asks with these labels and legs.
fn asks_with(
    rt: &impl Print,
    tables: Lent,
    labels: &mut [u32],
    legs: &mut [u32],
    q: Question,
) -> io::Result<()> {
    let answer = planner::ask(tables, labels, legs, q);
    print_answer(rt, answer, legs)?;
    print_left(rt, labels, legs, q.target)
}

// Asks with labels and legs of their full size.
pub fn asks(rt: &impl Print, tables: Lent, q: Question) -> io::Result<()> {
    asks_with(rt, tables, &mut [KEPT; 2304], &mut [KEPT; 320], q)
}

// Stops alone, asked with the first so many of 2400 labels and 400 legs.
fn lends(rt: &impl Print, name: &str, stops: u32, labels: usize, legs: usize) -> io::Result<()> {
    let times = [0; 2048];
    let tables = Lent {
        heads: Heads {
            stops,
            routes: 0,
            walks: 0,
        },
        routes: &[0; 256],
        positions: &times,
        arrivals: &times,
        departures: &times,
        walks: &[0; 1536],
    };
    let q = Question {
        start: 0,
        target: 0,
        time: 7,
        limit: 8,
        budget: 100,
    };
    let mut all_labels = [KEPT; 2400];
    let mut all_legs = [KEPT; 400];
    println!(rt; "{name}")?;
    match (all_labels.get_mut(..labels), all_legs.get_mut(..legs)) {
        (Some(labels), Some(legs)) => asks_with(rt, tables, labels, legs, q),
        _ => Ok(()),
    }
}

// 6 comes first, and elements beyond the full size are never written.
pub fn lent_tables(rt: &impl Print) -> io::Result<()> {
    lends(rt, "- labels 2303", 1, 2303, 400)?;
    lends(rt, "- legs 319", 1, 2304, 319)?;
    lends(rt, "- both too short", 1, 2303, 319)?;
    lends(rt, "- legs 319, and no stop", 0, 2304, 319)?;
    lends(rt, "- labels 2400, legs 400", 1, 2400, 400)
}
