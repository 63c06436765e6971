// The walks of a network.
use crate::dice::draw;
use crate::tables::Network;

// How a network's walks are made: the groups of stops less one, upwards only or not, how stops lie, and the
// seconds for each length.
#[derive(Clone, Copy)]
struct Plan {
    groups: u32,
    upwards: bool,
    lie: u32,
    scale: u32,
}

fn draw_plan(seed: u32) -> Plan {
    Plan {
        groups: draw(seed, 1, 3),
        upwards: draw(seed, 2, 2) == 0,
        lie: draw(seed, 3, 5),
        scale: match draw(seed, 0, 3) {
            3 => 400,
            2 => 10,
            _ => 1,
        },
    }
}

impl Plan {
    // Stops walk within their group, all of them both ways or all upwards only: so walks are closed.
    fn walks_between(self, from: u32, to: u32) -> bool {
        let groups = self.groups % 4 + 1;
        from != to && from % groups == to % groups && (from < to || !self.upwards)
    }

    // Along a line the way over a third stop is as long as the straight one, and else longer.
    fn seconds_between(self, from: u32, to: u32) -> u32 {
        if self.lie == 0 {
            return from.abs_diff(to).saturating_mul(self.scale);
        }
        let a = from.saturating_mul(self.lie) % 7;
        let b = to.saturating_mul(self.lie) % 7;
        a.abs_diff(b)
            .saturating_mul(self.scale)
            .saturating_add(self.scale)
    }
}

// Two of three networks have walks.
pub fn add_walks(net: &mut Network, seed: u32) {
    if draw(seed, 4, 2) == 0 {
        return;
    }
    let plan = draw_plan(seed);
    let stops = net.heads.stops;
    for from in 0..stops {
        for to in 0..stops {
            if plan.walks_between(from, to) {
                net.add_walk(from, to, plan.seconds_between(from, to));
            }
        }
    }
}
