// The edges of 01's rules, each checked once and printed on a line: `done LIMIT`, or the refusal's number and
// place.
#![tactic(auto)]

mod tables;

use crate::tables::Network;
use full_tables::Table;
use paper::Lent;
use spilling::Spill;
use std::io;

fn print_check(rt: &impl Print, tables: Lent) -> io::Result<()> {
    match timetable::check(tables) {
        Ok(limit) => println!(rt; "done {limit}"),
        Err(refusal) => println!(rt; "{refusal}"),
    }
}

// One route of n positions and m trips that halts at stop 0 only, and one walk from 0 to 1.
fn one_route(network: &mut Network, n: u32, m: u32) {
    network.set_route(0, [n, m, 0, 0]);
    network.set_times(0, n);
    network.set_walk(0, [0, 1, 10]);
}

// A route of 64 positions and 31 trips, and one after it.
fn two_routes(rt: &impl Print, n: u32, m: u32) -> io::Result<()> {
    let mut network = Network::new(1, 2, 0);
    network.set_route(0, [64, 31, 0, 0]);
    network.set_route(1, [n, m, 64, 1984]);
    network.set_times(0, 64);
    network.set_times(1984, n);
    print_check(rt, network.lent())
}

// So many of 64 routes of two positions and one trip.
fn many_routes(rt: &impl Print, count: u32) -> io::Result<()> {
    let mut network = Network::new(1, count, 0);
    for r in 0u32..64 {
        network.set_route(r as usize, [2, 1, r * 2, r * 2]);
    }
    network.set_times(0, 2);
    print_check(rt, network.lent())
}

// Walk 0 to 1 of 10 s, walk 0 to 2, and 1 to 2 of 10 s as walk `last`, of so many between three stops.
fn three_walks(rt: &impl Print, seconds: u32, last: usize, count: u32) -> io::Result<()> {
    let mut network = Network::new(3, 0, count);
    network.set_walk(0, [0, 1, 10]);
    network.set_walk(1, [0, 2, seconds]);
    network.set_walk(last, [1, 2, 10]);
    print_check(rt, network.lent())
}

// A route of two positions and one trip, with one number of some tables changed.
fn changed(rt: &impl Print, tables: &[Table], at: usize, value: u32) -> io::Result<()> {
    let mut network = Network::new(2, 1, 1);
    one_route(&mut network, 2, 1);
    for table in tables {
        network.set(*table, at, value);
    }
    print_check(rt, network.lent())
}

// A route of n positions and m trips.
fn counts(rt: &impl Print, n: u32, m: u32) -> io::Result<()> {
    let mut network = Network::new(1, 1, 0);
    one_route(&mut network, n, m);
    print_check(rt, network.lent())
}

fn heads_alone(rt: &impl Print, stops: u32, routes: u32, walks: u32) -> io::Result<()> {
    let mut network = Network::new(stops, routes, walks);
    one_route(&mut network, 2, 1);
    print_check(rt, network.lent())
}

fn times_and_seconds(rt: &impl Print) -> io::Result<()> {
    let times = [Table::Arrivals, Table::Departures];
    changed(rt, &times, 1, 172799)?;
    changed(rt, &times, 1, 172800)?;
    changed(rt, &[Table::Walks], 2, 3600)?;
    changed(rt, &[Table::Walks], 2, 3601)
}

fn route_counts(rt: &impl Print) -> io::Result<()> {
    counts(rt, 1, 1)?;
    counts(rt, 2, 1)?;
    counts(rt, 64, 1)?;
    counts(rt, 65, 1)?;
    counts(rt, 2, 0)?;
    counts(rt, 2, 512)?;
    counts(rt, 2, 513)?;
    many_routes(rt, 64)?;
    many_routes(rt, 65)?;
    two_routes(rt, 64, 1)?;
    two_routes(rt, 13, 5)
}

fn head_counts(rt: &impl Print) -> io::Result<()> {
    heads_alone(rt, 0, 0, 0)?;
    heads_alone(rt, 1, 0, 0)?;
    heads_alone(rt, 256, 0, 0)?;
    heads_alone(rt, 257, 0, 0)?;
    heads_alone(rt, u32::MAX, 0, 0)?;
    heads_alone(rt, 1, u32::MAX, 0)?;
    heads_alone(rt, 1, 0, u32::MAX)
}

// Tables with no route and no walk, and then each of them one number short.
fn one_short(rt: &impl Print) -> io::Result<()> {
    let network = Network::new(1, 0, 0);
    let full = &network.tables;
    let tables = network.lent();
    let routes = &full.routes[..255];
    let positions = &full.positions[..2047];
    let arrivals = &full.arrivals[..2047];
    let departures = &full.departures[..2047];
    let walks = &full.walks[..1535];
    print_check(rt, tables)?;
    print_check(rt, Lent { routes, ..tables })?;
    print_check(
        rt,
        Lent {
            positions,
            ..tables
        },
    )?;
    print_check(rt, Lent { arrivals, ..tables })?;
    print_check(
        rt,
        Lent {
            departures,
            ..tables
        },
    )?;
    print_check(rt, Lent { walks, ..tables })
}

// The largest number in each field of tables 1 to 5.
fn largest(rt: &impl Print) -> io::Result<()> {
    for field in 0..4 {
        changed(rt, &[Table::Routes], field, u32::MAX)?;
    }
    changed(rt, &[Table::Positions], 1, u32::MAX)?;
    changed(rt, &[Table::Arrivals], 0, u32::MAX)?;
    changed(rt, &[Table::Departures], 0, u32::MAX)?;
    for field in 0..3 {
        changed(rt, &[Table::Walks], field, u32::MAX)?;
    }
    Ok(())
}

// All edges, in the order in which they are printed.
fn run(rt: &impl Print) -> io::Result<()> {
    times_and_seconds(rt)?;
    route_counts(rt)?;
    head_counts(rt)?;
    one_short(rt)?;
    largest(rt)?;
    three_walks(rt, 0, 1, 2)?;
    three_walks(rt, 20, 2, 3)?;
    three_walks(rt, 21, 2, 3)
}

fn main(rt: HostRuntime) -> io::Result<()> {
    run(&Spill { rt: &rt })
}
