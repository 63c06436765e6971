// Feeds through `feed::read` and `feed::write`: the cases that standard input lists, damaged feeds, and
// networks written and read back.
#![tactic(auto)]

mod bytes;
mod cases;
mod damage;
mod dice;
mod digest;
mod lines;
mod network;
mod networks;
mod passing;
mod tables;
mod times;
mod trials;
mod walks;

use spilling::Spill;
use std::io;

// Cases, damages and trials.
fn run(input: &impl Input, rt: &impl Print) -> io::Result<()> {
    cases::cases(input, rt)?;
    damage::damages(rt)?;
    trials::trials(rt)
}

fn main(rt: HostRuntime) -> io::Result<()> {
    run(&rt, &Spill { rt: &rt })
}
