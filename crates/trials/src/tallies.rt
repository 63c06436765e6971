// What was tried, counted.
use paper::{Answer, Lent, Reason};
use second::lines::{Line, line_of};

#[derive(Clone, Copy, Default)]
pub struct Tallies {
    pub networks: u32,
    pub routes: u32,
    pub circles: u32,
    pub trips: u32,
    pub equal_trips: u32,
    pub rides_of_no_time: u32,
    pub walks: u32,
    pub questions: u32,
    // the questions that had so many entries
    pub entries: [u32; 9],
    pub over_budget: u32,
    pub no_way: u32,
    pub differences: u32,
}

// So many more in a tally.
fn more(tally: &mut u32, n: u32) {
    *tally = tally.saturating_add(n);
}

// Does a line visit a stop twice?
fn is_circle(line: Line) -> bool {
    let stops = line.stops;
    stops
        .iter()
        .enumerate()
        .any(|(i, stop)| stops[..i].contains(stop))
}

// A trip's rides to the next position that take no time.
fn rides_of_no_time(arrivals: &[u32], departures: &[u32]) -> u32 {
    let mut rides = 0;
    for (arrives, departs) in arrivals.iter().skip(1).zip(departures) {
        if arrives == departs {
            more(&mut rides, 1);
        }
    }
    rides
}

impl Tallies {
    fn survey_line(&mut self, line: Line) {
        more(&mut self.circles, is_circle(line) as u32);
        let arrivals = line.arrivals.chunks_exact(line.n as usize);
        let departures = line.departures.chunks_exact(line.n as usize);
        let mut ahead = None;
        for trip in arrivals.zip(departures) {
            more(&mut self.trips, 1);
            more(&mut self.equal_trips, (ahead == Some(trip)) as u32);
            more(&mut self.rides_of_no_time, rides_of_no_time(trip.0, trip.1));
            ahead = Some(trip);
        }
    }

    // What a network has.
    pub fn survey(&mut self, tables: Lent) {
        more(&mut self.networks, 1);
        more(&mut self.routes, tables.heads.routes);
        more(&mut self.walks, tables.heads.walks);
        for route in 0..tables.heads.routes {
            self.survey_line(line_of(tables, route));
        }
    }

    // What came of a question.
    pub fn record(&mut self, answer: &Answer, same: bool) {
        more(&mut self.questions, 1);
        if let Some(tally) = self.entries.get_mut(answer.count as usize) {
            more(tally, 1);
        }
        if let Err(refusal) = answer.verdict {
            more(
                &mut self.over_budget,
                (refusal.number == Reason::Budget as u32) as u32,
            );
            more(
                &mut self.no_way,
                (refusal.number == Reason::NoWay as u32) as u32,
            );
        }
        more(&mut self.differences, !same as u32);
    }
}
