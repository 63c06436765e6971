// Tables 1 to 5 of their full size, read into and looked through.
use full_tables::{Table, Tables};
use paper::Room;

// The table without its last number, where it is lent one short.
fn part(table: &mut [u32], is_short: bool) -> &mut [u32] {
    let size = table.len().saturating_sub(usize::from(is_short));
    &mut table[..size]
}

// The tables to be read into, of which one may be lent one short.
pub fn room(tables: &mut Tables, short: Option<Table>) -> Room<'_> {
    let Tables {
        routes,
        positions,
        arrivals,
        departures,
        walks,
    } = tables;
    Room {
        routes: part(routes, short == Some(Table::Routes)),
        positions: part(positions, short == Some(Table::Positions)),
        arrivals: part(arrivals, short == Some(Table::Arrivals)),
        departures: part(departures, short == Some(Table::Departures)),
        walks: part(walks, short == Some(Table::Walks)),
    }
}

// The numbers of each table.
pub fn all(tables: &Tables) -> [&[u32]; 5] {
    [
        &tables.routes,
        &tables.positions,
        &tables.arrivals,
        &tables.departures,
        &tables.walks,
    ]
}
