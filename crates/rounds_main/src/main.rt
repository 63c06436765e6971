// Document 01's networks through `run`: for each question the work, or the round that passes the budget, and rows 0 to 3.
#![tactic(auto)]

ghost use Rattle.std.specs.Prelude.{◌≡◌, ◌≤◌, length, replicate};
ghost use Rattle.laws.specs.Lists.{over};
ghost use Rattle.paper.specs.Lines.{filled};
ghost use Rattle.paper.specs.Timetable.{lent};
ghost use Rattle.rounds_main.specs.Network.{Begun, Askable, Rowed};

use full_tables::Tables;
use paper::{Heads, Lent, MARK, Question};
use spilling::Spill;
use std::io;

// A table of full size that begins with these values.
fn table<const N: usize>(values: &[u32]) -> [u32; N]
    requires { length values.now ≤ N }
    ensures { result ≡ over values.now (replicate N 0) }
{
    let mut table = [0; N];
    table[..values.len()].copy_from_slice(values);
    table
}

// A label, or `-` for the mark.
fn print_label(rt: &impl Print, label: u32) -> io::Result<()> {
    if label == MARK {
        print!(rt; " -")
    } else {
        print!(rt; " {label}")
    }
}

fn print_row(rt: &impl Print, row: &[u32]) -> io::Result<()> {
    for label in row {
        print_label(rt, *label)?;
    }
    println!(rt)
}

fn print_rows(rt: &impl Print, labels: &[u32], stops: u32) -> io::Result<()>
    requires { Rowed (length labels.now) stops }
{
    let n = stops as usize;
    for k in 0..4 {
        let a = k * 256;
        let b = a + n;
        print_row(rt, &labels[a..b])?;
    }
    Ok(())
}

// One question about a network, in tables of full size: its work or the round that passes the budget, and its rows.
fn ask(rt: &impl Print, network: Lent, q: Question) -> io::Result<()>
    requires begun { Begun (lent network) }
    requires asked { Askable (filled (lent network)) q }
{
    let tables = Tables {
        routes: table(network.routes),
        positions: table(network.positions),
        arrivals: table(network.arrivals),
        departures: table(network.departures),
        walks: table(network.walks),
    };
    let mut labels: [u32; 2304] = [0; 2304];
    match rounds::run(tables.lent(network.heads), &mut labels, q) {
        Ok(work) => println!(rt; "work {work}")?,
        Err(refusal) => println!(rt; "passed in round {}", refusal.place)?,
    }
    print_rows(rt, &labels, network.heads.stops)
}

// The bridge network: 0 to 2 at 100, with so many rides and so much work.
fn ask_bridge(rt: &impl Print, limit: u32, budget: u32) -> io::Result<()>
    requires { limit ≤ 8 }
{
    let network = Lent {
        heads: Heads {
            stops: 5,
            routes: 2,
            walks: 1,
        },
        routes: &[3, 2, 0, 0, 2, 2, 3, 6],
        positions: &[0, 1, 2, 1, 3],
        arrivals: &[100, 200, 400, 300, 400, 600, 205, 250, 260, 320],
        departures: &[100, 210, 400, 300, 410, 600, 205, 250, 260, 320],
        walks: &[3, 2, 30],
    };
    let q = Question {
        start: 0,
        target: 2,
        time: 100,
        limit,
        budget,
    };
    ask(rt, network, q)
}

// Its rounds cost 3, 5 and 5: the work of one, of two and of all; and a budget that the third passes.
fn bridge(rt: &impl Print) -> io::Result<()> {
    ask_bridge(rt, 1, 100)?;
    ask_bridge(rt, 2, 100)?;
    ask_bridge(rt, 8, 100)?;
    ask_bridge(rt, 8, 12)
}

// The long halt: 0 to 2 at 55.
fn long_halt(rt: &impl Print) -> io::Result<()> {
    let network = Lent {
        heads: Heads {
            stops: 3,
            routes: 1,
            walks: 0,
        },
        routes: &[3, 2, 0, 0],
        positions: &[0, 1, 2],
        arrivals: &[50, 100, 300, 60, 150, 310],
        departures: &[50, 200, 300, 60, 210, 310],
        walks: &[],
    };
    let q = Question {
        start: 0,
        target: 2,
        time: 55,
        limit: 8,
        budget: 100,
    };
    ask(rt, network, q)
}

// Back to the start: 0 to 2 at 100.
fn back_to_start(rt: &impl Print) -> io::Result<()> {
    let network = Lent {
        heads: Heads {
            stops: 3,
            routes: 1,
            walks: 1,
        },
        routes: &[3, 1, 0, 0],
        positions: &[0, 1, 0],
        arrivals: &[100, 150, 200],
        departures: &[100, 150, 200],
        walks: &[0, 2, 30],
    };
    let q = Question {
        start: 0,
        target: 2,
        time: 100,
        limit: 8,
        budget: 100,
    };
    ask(rt, network, q)
}

// 01's networks one after the other.
fn run(rt: &impl Print) -> io::Result<()> {
    bridge(rt)?;
    long_halt(rt)?;
    back_to_start(rt)
}

fn main(rt: HostRuntime) -> io::Result<()> {
    run(&Spill { rt: &rt })
}
