// A network that is filled from the front: routes first, then their stops and times, then walks.
use crate::dice::Seed;
use crate::times::Times;
use full_tables::Tables;
use paper::Heads;

// A network so far, and how much of tables 2 to 4 is used. Numbers that are not used are 0.
#[derive(Clone, Copy)]
pub struct Network {
    pub heads: Heads,
    pub tables: Tables,
    positions: u32,
    trips: u32,
    events: u32,
}

// A route to come: its positions, and how many events it may have.
#[derive(Clone, Copy)]
pub struct Planned {
    pub n: u32,
    pub events: u32,
}

impl Network {
    // No route and no walk yet.
    pub fn new(stops: u32) -> Network {
        Network {
            heads: Heads {
                stops,
                routes: 0,
                walks: 0,
            },
            tables: Tables::new(0),
            positions: 0,
            trips: 0,
            events: 0,
        }
    }

    // One route more, with as many trips as its events and the totals allow, if there is one.
    pub fn add_route(&mut self, planned: Planned) {
        let Planned { n, events } = planned;
        let free = 2048u32.saturating_sub(self.events);
        let m = events.min(free).checked_div(n).unwrap_or(0);
        if m == 0 || m > 512u32.saturating_sub(self.trips) {
            return;
        }
        let (routes, _) = self.tables.routes.as_chunks_mut();
        if let Some(route) = routes.get_mut(self.heads.routes as usize) {
            *route = [n, m, self.positions, self.events];
            self.heads.routes += 1;
            self.positions = self.positions.saturating_add(n);
            self.trips = self.trips.saturating_add(m);
            self.events = self.events.saturating_add(m.saturating_mul(n));
        }
    }

    // The stops of all positions.
    pub fn put_stops(&mut self, mut seed: Seed) -> Seed {
        let stops = self.heads.stops;
        let used = self.positions as usize;
        for position in self.tables.positions.iter_mut().take(used) {
            seed = seed.next();
            *position = seed.drawn(stops);
        }
        seed
    }

    // The times at event e.
    pub fn put_event(&mut self, e: usize, times: Times) {
        if e < 2048 {
            self.tables.arrivals[e] = times.arrival;
            self.tables.departures[e] = times.departure;
        }
    }

    // One walk more, if there is room.
    pub fn add_walk(&mut self, walk: [u32; 3]) {
        let (walks, _) = self.tables.walks.as_chunks_mut();
        if let Some(place) = walks.get_mut(self.heads.walks as usize) {
            *place = walk;
            self.heads.walks += 1;
        }
    }
}
