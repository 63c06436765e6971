// The cases that standard input lists, a line each. Their feeds are the bridge network's with some bytes set,
// and zeros behind it.
use crate::bytes::{BRIDGE, differing};
use crate::lines::{Case, set_bytes};
use crate::passing::{Passed, pass};
use filling::fill_from;
use std::io;
use std::io::Write;

// One byte more than the longest feed has.
const MOST: usize = 17870;

// What reading answers, and where the feed is accepted what writing answers. Of what was written the size is
// printed, and how many of its bytes differ from the feed's.
fn print_passed(rt: &impl Print, feed: &[u8], out: &[u8], passed: &Passed) -> io::Result<()> {
    let heads = match passed.reading {
        Ok(heads) => heads,
        Err(refusal) => return println!(rt; " {refusal}"),
    };
    print!(rt;
        " done {} {} {}, written",
        heads.stops, heads.routes, heads.walks
    )?;
    match passed.writing {
        Ok(size) => println!(rt; " done {size}, differing {}", differing(feed, out)),
        Err(refusal) => println!(rt; " {refusal}"),
    }
}

// The feed is read, and written where it is accepted. Feed and room are as long as the line says, if there are
// so many bytes.
fn run(rt: &impl Print, line: &[u8]) -> io::Result<()> {
    let case = Case::of(line);
    let mut bytes = [0; MOST];
    let mut room = [0; MOST];
    bytes[..BRIDGE.len()].copy_from_slice(&BRIDGE);
    set_bytes(line, &mut bytes);
    let (Some(feed), Some(out)) = (bytes.get_mut(..case.length), room.get_mut(..case.room)) else {
        return Ok(());
    };
    case.right.make(feed);
    let passed = pass(feed, case.short, out);
    print_passed(rt, feed, out, &passed)
}

// One line: what it is is printed, and its numbers are run if it is whole.
fn run_line(rt: &impl Print, line: &[u8]) -> io::Result<()> {
    let mut parts = line.splitn(2, |byte| *byte == b';');
    if let Some(name) = parts.next() {
        io::writer(rt).write_all(name)?;
    }
    match parts.next().and_then(|numbers| numbers.strip_suffix(b"\n")) {
        Some(numbers) => run(rt, numbers),
        None => Ok(()),
    }
}

pub fn cases(input: &impl Input, rt: &impl Print) -> io::Result<()> {
    let mut text = [0; 8192];
    let n = fill_from(&mut input.reader(), &mut text);
    for line in text[..n].split_inclusive(|byte| *byte == b'\n') {
        run_line(rt, line)?;
    }
    Ok(())
}
