// Every byte of the bridge network's feed damaged three ways: how many are refused by each number, where 0 is
// accepted, and a digest of all answers and tables.
use crate::bytes::{BRIDGE, Right};
use crate::digest::Digest;
use crate::passing::{Passed, pass};
use std::io;

#[derive(Clone, Copy)]
enum Damage {
    OneMore,
    HighestBit,
    AllBits,
}

impl Damage {
    const ALL: [Damage; 3] = [Damage::OneMore, Damage::HighestBit, Damage::AllBits];

    // One more, its highest bit turned, or all its bits turned.
    fn of(self, byte: u8) -> u8 {
        match self {
            Damage::OneMore => byte.wrapping_add(1),
            Damage::HighestBit => byte ^ 0x80,
            Damage::AllBits => !byte,
        }
    }
}

// The byte at `at` is damaged one way, and the sum is left or made right.
fn damaged(at: usize, damage: Damage, right: Right) -> Passed {
    let mut feed = BRIDGE;
    let mut out = [0; 102];
    if let Some(byte) = feed.get_mut(at) {
        *byte = damage.of(*byte);
    }
    right.make(&mut feed);
    pass(&feed, None, &mut out)
}

// How many are refused by each number, where 0 is accepted.
fn print_counts(rt: &impl Print, counts: &[u32]) -> io::Result<()> {
    for (number, count) in counts.iter().enumerate() {
        if *count != 0 {
            print!(rt; " {count} of {number}")?;
        }
    }
    Ok(())
}

fn damages_of(rt: &impl Print, right: Right) -> io::Result<()> {
    let mut counts = [0u32; 16];
    let mut digest = Digest::default();
    for at in 0..BRIDGE.len() {
        for damage in Damage::ALL {
            let passed = damaged(at, damage, right);
            let number = passed.reading.err().map_or(0, |refusal| refusal.number);
            if let Some(count) = counts.get_mut(number as usize) {
                *count = count.saturating_add(1);
            }
            digest = passed.added_to(digest);
        }
    }
    print_counts(rt, &counts)?;
    println!(rt; ", digest {digest}")
}

pub fn damages(rt: &impl Print) -> io::Result<()> {
    print!(rt; "every byte damaged, the sum left:")?;
    damages_of(rt, Right::Nothing)?;
    print!(rt; "every byte damaged, the sum made right:")?;
    damages_of(rt, Right::Sum)
}
