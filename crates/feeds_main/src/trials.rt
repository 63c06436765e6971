// Networks written, read back into other tables, compared, and written again.
use crate::bytes::differing;
use crate::digest::Digest;
use crate::network::Network;
use crate::networks::{longest, network};
use crate::passing::pass;
use crate::tables::{all, room};
use full_tables::Tables;
use std::{fmt, io};

// Over all networks so far: routes, walks, bytes, a digest of the bytes, and what differs.
#[derive(Clone, Copy, Default)]
struct Totals {
    routes: u32,
    walks: u32,
    bytes: usize,
    digest: Digest,
    differences: usize,
}

impl fmt::Display for Totals {
    fn fmt<W: fmt::Write>(&self, f: &mut fmt::Formatter<W>) -> fmt::Result {
        let Totals {
            routes,
            walks,
            bytes,
            digest,
            differences,
        } = *self;
        write!(
            f,
            "routes {routes}, walks {walks}, bytes {bytes}, digest {digest}, differences {differences}"
        )
    }
}

// How many numbers of tables 1 to 5 differ.
fn differing_numbers(a: &Tables, b: &Tables) -> usize {
    all(a).iter().zip(all(b)).fold(
        0usize,
        |count, (a, b)| count.saturating_add(differing(a, b)),
    )
}

// What differs when the feed of a network is read into other tables, which hold 9.
fn differing_back(net: &Network, feed: &[u8]) -> usize {
    let mut tables = Tables::new(9);
    let reading = feed::read(feed, &mut room(&mut tables, None));
    differing_numbers(&net.tables, &tables).saturating_add(usize::from(reading != Ok(net.heads)))
}

// What differs when the feed is read and written again.
fn differing_again(feed: &[u8]) -> usize {
    let mut out = [255; 17869];
    let passed = pass(feed, None, &mut out);
    let size = passed.writing.unwrap_or(0) as usize;
    differing(feed, &out).saturating_add(usize::from(size != feed.len()))
}

impl Totals {
    // With one network more, written and read back. One that is refused has no bytes, and so differs.
    fn and(self, net: &Network) -> Totals {
        let mut out = [0; 17869];
        let lent = net.tables.lent(net.heads);
        let size = feed::write(lent, &mut out).unwrap_or(0) as usize;
        let Some(feed) = out.get(..size) else {
            return self;
        };
        let differences = differing_back(net, feed).saturating_add(differing_again(feed));
        Totals {
            routes: self.routes.saturating_add(net.heads.routes),
            walks: self.walks.saturating_add(net.heads.walks),
            bytes: self.bytes.saturating_add(size),
            digest: self.digest.and_all(feed),
            differences: self.differences.saturating_add(differences),
        }
    }
}

pub fn trials(rt: &impl Print) -> io::Result<()> {
    let many = (0..400).fold(Totals::default(), |totals, k| totals.and(&network(k)));
    println!(rt; "400 networks written and read back: {many}")?;
    let one = Totals::default().and(&longest());
    println!(rt; "the longest feed: {one}")
}
