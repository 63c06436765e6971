// A feed read into tables, and what was read written.
use crate::digest::Digest;
use crate::tables::{all, room};
use full_tables::{Table, Tables};
use paper::{Heads, Refusal};

// The answers of reading and of writing what was read, and the tables between them.
#[derive(Clone, Copy)]
pub struct Passed {
    pub reading: Result<Heads, Refusal>,
    pub tables: Tables,
    pub writing: Result<u32, Refusal>,
}

// The tables hold 7 before, so that untouched ones differ from zero ones.
pub fn pass(feed: &[u8], short: Option<Table>, out: &mut [u8]) -> Passed {
    let mut tables = Tables::new(7);
    let reading = feed::read(feed, &mut room(&mut tables, short));
    let writing = reading.and_then(|heads| feed::write(tables.lent(heads), out));
    Passed {
        reading,
        tables,
        writing,
    }
}

impl Passed {
    // The digest with reading's answer and the tables after it.
    pub fn added_to(&self, digest: Digest) -> Digest {
        let answered = match self.reading {
            Ok(heads) => digest.and_all(&[heads.stops, heads.routes, heads.walks]),
            Err(refusal) => digest.and_all(&[refusal.number, refusal.place]),
        };
        all(&self.tables)
            .iter()
            .fold(answered, |digest, table| digest.and_all(table))
    }
}
