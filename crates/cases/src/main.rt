// Document 01's cases through the code. The input is a list of networks and questions with names in 01's
// words; each name is printed, then what came out.
#![tactic(auto)]

mod asking;
mod checking;
mod desk;
mod feeds;
mod showing;

use crate::desk::Desk;
use filling::fill_from;
use spilling::Spill;
use std::io;

// The longest list that is read.
const LIST: usize = 16384;

// The list, and then the cases that no line of it can say.
fn run(input: &impl Input, rt: &impl Print) -> io::Result<()> {
    let mut list = [0; LIST];
    let n = fill_from(&mut input.reader(), &mut list);
    let mut desk = Desk::new();
    for line in list[..n].split_inclusive(|byte| *byte == b'\n') {
        // zero bytes before a line are none of it
        let start = line.iter().position(|byte| *byte != 0);
        desk.follow(rt, &line[start.unwrap_or(0)..])?;
    }
    asking::lent_tables(rt)?;
    feeds::smallest(rt)
}

fn main(rt: HostRuntime) -> io::Result<()> {
    run(&rt, &Spill { rt: &rt })
}
