// 01's feeds, read and written.
use crate::asking::asks;
use crate::showing::{KEPT, Rest};
use paper::{Lent, Question, Room};
use std::io;

// What writing answers, and how many bytes of the buffer, which held 170, are as before.
pub fn writes(rt: &impl Print, tables: Lent, out: &mut [u8]) -> io::Result<()> {
    match feed::write(tables, out) {
        Ok(bytes) => print!(rt; "write done {bytes}")?,
        Err(refusal) => print!(rt; "write refused {refusal}")?,
    }
    let kept = out.iter().filter(|byte| **byte == 170).count();
    println!(rt; "; {kept} kept")
}

// What reading answers, and what the tables hold after it; of an accepted feed 0 to 2 at 100 is asked.
fn reads(rt: &impl Print, bytes: &[u8]) -> io::Result<()> {
    let mut routes = [KEPT; 256];
    let mut positions = [KEPT; 2048];
    let mut arrivals = [KEPT; 2048];
    let mut departures = [KEPT; 2048];
    let mut walks = [KEPT; 1536];
    let mut room = Room {
        routes: &mut routes,
        positions: &mut positions,
        arrivals: &mut arrivals,
        departures: &mut departures,
        walks: &mut walks,
    };
    let reading = feed::read(bytes, &mut room);
    match reading {
        Ok(heads) => print!(rt; "done {} {} {}", heads.stops, heads.routes, heads.walks)?,
        Err(refusal) => print!(rt; "refused {refusal}")?,
    }
    print!(rt; "; {}; {}", Rest(&routes), Rest(&positions))?;
    println!(rt;
        "; {}; {}; {}",
        Rest(&arrivals),
        Rest(&departures),
        Rest(&walks)
    )?;
    let Ok(heads) = reading else {
        return Ok(());
    };
    let tables = Lent {
        heads,
        routes: &routes,
        positions: &positions,
        arrivals: &arrivals,
        departures: &departures,
        walks: &walks,
    };
    let q = Question {
        start: 0,
        target: 2,
        time: 100,
        limit: 8,
        budget: 100,
    };
    asks(rt, tables, q)
}

pub fn smallest(rt: &impl Print) -> io::Result<()> {
    let bytes = [
        0x54, 0x48, 0x01, 0x00, 0x00, 0x00, 0x00, 0x00, 0x0D, 0x45, 0x44, 0x34, 0x71,
    ];
    println!(rt; "* smallest feed")?;
    reads(rt, &bytes)?;
    println!(rt; "* its first 12 bytes")?;
    reads(rt, &bytes[..12])
}

// A feed of 102 bytes, in a buffer that is one byte too short and in one that is right; and what was written, read.
pub fn writes_and_reads(rt: &impl Print, tables: Lent) -> io::Result<()> {
    let mut right = [170; 102];
    writes(rt, tables, &mut [170; 101])?;
    writes(rt, tables, &mut right)?;
    for byte in right {
        print!(rt; "{byte:02x}")?;
    }
    println!(rt)?;
    reads(rt, &right)
}
