// An answer as one number, and the entries as nineteen.
#![tactic(auto)]

ghost use Rattle.std.specs.Prelude.{◌≡◌};
ghost use Rattle.packing.specs.Packed.{packed, checked_number, reading_number, entries_after};

use paper::{Entry, Heads, Refusal};

// A refusal: its number above the low 32 bits, its place in them.
fn pack(refusal: Refusal) -> u64
    ensures { result ≡ packed refusal.number refusal.place }
{
    u64::from(refusal.number) * 4294967296 + u64::from(refusal.place)
}

// What checking, writing or asking answers: the work limit, the bytes or the work, or the refusal packed.
pub fn checked_number(checked: Result<u32, Refusal>) -> u64
    ensures { result ≡ checked_number checked }
{
    match checked {
        Ok(count) => u64::from(count),
        Err(refusal) => pack(refusal),
    }
}

fn heads_number(heads: Heads) -> u64
    ensures { result ≡ reading_number (Ok heads) }
{
    u64::from(heads.stops) + 1024 * u64::from(heads.routes) + 131072 * u64::from(heads.walks)
}

pub fn reading_number(reading: Result<Heads, Refusal>) -> u64
    ensures { result ≡ reading_number reading }
{
    match reading {
        Ok(heads) => heads_number(heads),
        Err(refusal) => pack(refusal),
    }
}

// The count and nine pairs of rides and arrival, if there is room for all nineteen.
#[tactic(auto, using(crate::proofs::Entries::short_kept))]
pub fn put_entries(count: u32, listed: [Entry; 9], entries: &mut [u32])
    ensures { entries.new ≡ entries_after count listed entries.old }
{
    if entries.len() < 19 {
        return;
    }
    entries[0] = count;
    for (i, entry) in listed.iter().enumerate() {
        entries[2 * i + 1] = entry.rides;
        entries[2 * i + 2] = entry.arrival;
    }
}
