// Small timetables, in tables of their full size.
use full_tables::{Table, Tables};
use paper::{Heads, Lent};

#[derive(Clone, Copy)]
pub struct Network {
    pub heads: Heads,
    pub tables: Tables,
}

// From event `first` to the 2,048th, which ends a table, every time is its position, in trips of n that are all equal; with no
// position it is 0.
pub fn fill_times(times: &mut [u32], first: usize, n: u32) {
    let n = n.max(1) as usize;
    for (e, time) in times.iter_mut().take(2048).skip(first).enumerate() {
        *time = (e % n) as u32;
    }
}

impl Network {
    // Every number of its tables is zero.
    pub fn new(stops: u32, routes: u32, walks: u32) -> Network {
        Network {
            heads: Heads {
                stops,
                routes,
                walks,
            },
            tables: Tables::new(0),
        }
    }

    pub fn lent(&self) -> Lent<'_> {
        self.tables.lent(self.heads)
    }

    // A route's n, m, first position and first event, if the table has so many routes.
    pub fn set_route(&mut self, r: usize, route: [u32; 4]) {
        if let Some(row) = self.tables.routes.chunks_exact_mut(4).nth(r) {
            row.copy_from_slice(&route);
        }
    }

    // A walk's from, to and seconds, if the table has so many walks.
    pub fn set_walk(&mut self, w: usize, walk: [u32; 3]) {
        if let Some(row) = self.tables.walks.chunks_exact_mut(3).nth(w) {
            row.copy_from_slice(&walk);
        }
    }

    // The times from an event on, at which trips of n positions begin.
    pub fn set_times(&mut self, first: usize, n: u32) {
        fill_times(&mut self.tables.arrivals, first, n);
        fill_times(&mut self.tables.departures, first, n);
    }

    // One number of a table is another, if the table has so many.
    pub fn set(&mut self, table: Table, at: usize, value: u32) {
        let tables = &mut self.tables;
        let numbers: &mut [u32] = match table {
            Table::Routes => &mut tables.routes,
            Table::Positions => &mut tables.positions,
            Table::Arrivals => &mut tables.arrivals,
            Table::Departures => &mut tables.departures,
            Table::Walks => &mut tables.walks,
        };
        if let Some(number) = numbers.get_mut(at) {
            *number = value;
        }
    }
}
