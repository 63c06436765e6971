// The routes of lent tables, each with its stops and times.
ghost use Rattle.std.specs.Prelude.{◌<◌};

use paper::Lent;

// A route: its number, its n and m, its stops by position, and the arrivals and departures of all its trips,
// n for each.
#[derive(Clone, Copy)]
pub struct Line<'a> {
    pub route: u32,
    pub n: u32,
    pub m: u32,
    pub stops: &'a [u32],
    pub arrivals: &'a [u32],
    pub departures: &'a [u32],
    ghost some: { 0 < n },
}

// So many numbers of a table from one place on, or none where it does not hold them.
fn part(table: &[u32], first: u32, count: usize) -> &[u32] {
    match table.split_at_checked(first as usize) {
        Some((_, rest)) => rest.get(..count).unwrap_or(&[]),
        None => &[],
    }
}

pub fn line_of(tables: Lent<'_>, route: u32) -> Line<'_> {
    let (rows, _) = tables.routes.as_chunks::<4>();
    let [n, m, position, event] = rows.get(route as usize).copied().unwrap_or([0; 4]);
    let n = n.max(1);
    let events = (n as usize).saturating_mul(m as usize);
    Line {
        route,
        n,
        m,
        stops: part(tables.positions, position, n as usize),
        arrivals: part(tables.arrivals, event, events),
        departures: part(tables.departures, event, events),
    }
}
