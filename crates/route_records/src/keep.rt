// What a route and its trips leave in the tables: rows, stops and times, from what is known to stand.
ghost use Rattle.std.specs.Prelude.{◌≡◌, [], ◌∷◌, ◌++◌, ◌+◌, ◌*◌, take};
ghost use Rattle.laws.specs.Lists.{over};
ghost use Rattle.paper.specs.Reading.{stops_at, times_at};
ghost use Rattle.route_records.specs.Keep.{CanPut, CanPutRow};

use standing::three_at;

// The times of n events, which stand from `at` on, go to tables 3 and 4 from k on.
pub fn keep_times(
    f: &[u8],
    at: usize,
    n: usize,
    arrivals: &mut [u32],
    departures: &mut [u32],
    k: usize,
)
    requires arrivals { CanPut f.now at (6 * n) arrivals.old k n }
    requires departures { CanPut f.now at (6 * n) departures.old k n }
    ensures arrivals { arrivals.new ≡ over (take k arrivals.old ++ times_at f.now at n) arrivals.old }
    ensures departures { departures.new ≡ over (take k departures.old ++ times_at f.now (at + 3) n) departures.old }
{
    for i in 0..n {
        arrivals[k + i] = three_at(f, at + 6 * i);
        departures[k + i] = three_at(f, at + 3 + 6 * i);
    }
}

// n bytes from `at` on go to table d from k on.
pub fn keep_stops(f: &[u8], at: usize, n: usize, d: &mut [u32], k: usize)
    requires { CanPut f.now at n d.old k n }
    ensures { d.new ≡ over (take k d.old ++ stops_at f.now at n) d.old }
{
    for i in 0..n {
        d[k + i] = f[at + i] as u32;
    }
}

// A route's row of table 1 goes to d at k.
pub fn keep_row(d: &mut [u32], k: usize, n: usize, m: usize, p: usize, v: usize)
    requires { CanPutRow d.old k n m p v }
    ensures { d.new ≡ over (take k d.old ++ (n ∷ m ∷ p ∷ v ∷ [])) d.old }
{
    d[k..k + 4].copy_from_slice(&[n as u32, m as u32, p as u32, v as u32]);
}
