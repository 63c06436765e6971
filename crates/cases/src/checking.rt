// 01's rules: what checking, writing and asking answer of the same tables.
use crate::asking::asks;
use crate::feeds::writes;
use paper::{Lent, Question};
use std::io;

pub fn all_three(rt: &impl Print, tables: Lent, q: Question) -> io::Result<()> {
    match timetable::check(tables) {
        Ok(limit) => println!(rt; "check done {limit}")?,
        Err(refusal) => println!(rt; "check refused {refusal}")?,
    }
    writes(rt, tables, &mut [170; 110])?;
    asks(rt, tables, q)
}
