// A network's tables, filled from the front.
use full_tables::Tables;
use paper::Heads;

// Its tables, of which the numbers that are not used are 7; the time at which trips begin, and the most rides
// to ask for.
#[derive(Clone, Copy)]
pub struct Network {
    pub heads: Heads,
    pub tables: Tables,
    // how many positions and events its routes have
    used_positions: u32,
    used_events: u32,
    pub begins: u32,
    pub limit: u32,
}

// The times at a position of a trip.
#[derive(Clone, Copy)]
pub struct Times {
    pub arrive: u32,
    pub depart: u32,
}

impl Network {
    // No route and no walk yet.
    pub(crate) fn new(stops: u32, begins: u32, limit: u32) -> Network {
        Network {
            heads: Heads {
                stops,
                routes: 0,
                walks: 0,
            },
            tables: Tables::new(7),
            used_positions: 0,
            used_events: 0,
            begins,
            limit,
        }
    }

    // A route begins where the route before it ends. Its positions and events are to follow.
    pub(crate) fn add_route(&mut self, n: u32, m: u32) {
        let (routes, _) = self.tables.routes.as_chunks_mut();
        if let Some(route) = routes.get_mut(self.heads.routes as usize) {
            *route = [n, m, self.used_positions, self.used_events];
            self.heads.routes += 1;
        }
    }

    pub(crate) fn add_position(&mut self, stop: u32) {
        if let Some(position) = self.tables.positions.get_mut(self.used_positions as usize) {
            *position = stop;
            self.used_positions += 1;
        }
    }

    pub(crate) fn add_event(&mut self, times: Times) {
        let e = self.used_events as usize;
        if e < 2048 {
            self.tables.arrivals[e] = times.arrive;
            self.tables.departures[e] = times.depart;
            self.used_events += 1;
        }
    }

    pub(crate) fn add_walk(&mut self, from: u32, to: u32, seconds: u32) {
        let (walks, _) = self.tables.walks.as_chunks_mut();
        if let Some(walk) = walks.get_mut(self.heads.walks as usize) {
            *walk = [from, to, seconds];
            self.heads.walks += 1;
        }
    }
}
