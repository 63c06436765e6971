// Tables 1 to 5 of their full size, with room for any timetable.
#![tactic(auto)]

ghost use Rattle.std.specs.Prelude.{◌≡◌, ◌≤◌, replicate, MatchResult};
ghost use Rattle.full_tables.specs.Numbers.{number_of};
ghost use Rattle.paper.specs.Timetable.{tables, lent};

use paper::{Heads, Lent};

// One of tables 1 to 5.
#[derive(Clone, Copy, Debug, PartialEq, Eq)]
pub enum Table {
    Routes,
    Positions,
    Arrivals,
    Departures,
    Walks,
}

// The table of a number, if there is one.
impl TryFrom<u32> for Table {
    type Error = ();

    ghost try_from_gives = { λ n r. MatchResult r (λ table. number_of table ≡ n) (λ _. n ≤ 5 → n ≡ 0) };

    fn try_from(number: u32) -> Result<Table, ()> {
        match number {
            1 => Ok(Table::Routes),
            2 => Ok(Table::Positions),
            3 => Ok(Table::Arrivals),
            4 => Ok(Table::Departures),
            5 => Ok(Table::Walks),
            _ => Err(()),
        }
    }
}

#[derive(Clone, Copy)]
pub struct Tables {
    // each route's n, m, first position and first event
    pub routes: [u32; 256],
    pub positions: [u32; 2048],
    pub arrivals: [u32; 2048],
    pub departures: [u32; 2048],
    // each walk's from, to and seconds
    pub walks: [u32; 1536],
}

impl Tables {
    // Every number is the same.
    pub fn new(number: u32) -> Tables
        ensures routes { result.routes ≡ replicate 256 number }
        ensures positions { result.positions ≡ replicate 2048 number }
        ensures arrivals { result.arrivals ≡ replicate 2048 number }
        ensures departures { result.departures ≡ replicate 2048 number }
        ensures walks { result.walks ≡ replicate 1536 number }
    {
        Tables {
            routes: [number; 256],
            positions: [number; 2048],
            arrivals: [number; 2048],
            departures: [number; 2048],
            walks: [number; 1536],
        }
    }

    // The tables lent, with the head counts beside them.
    pub fn lent(&self, heads: Heads) -> Lent<'_>
        ensures { let t = self.now in lent result ≡ tables heads t.routes t.positions t.arrivals t.departures t.walks }
    {
        Lent {
            heads,
            routes: &self.routes,
            positions: &self.positions,
            arrivals: &self.arrivals,
            departures: &self.departures,
            walks: &self.walks,
        }
    }
}
