// The planner against a second planner that enumerates journeys, on many small networks: labels, legs,
// entries, work and refusals have to be equal.
#![tactic(auto)]

mod same;
mod tallies;

use crate::same::{First, same_reply};
use crate::tallies::Tallies;
use networks::dice::{draw, part};
use networks::network::{Network, build};
use networks::questions::{question, with_budget};
use paper::{Answer, Lent, Question};
use second::steps::Step;
use spilling::Spill;
use std::io;

const NETWORKS: u32 = 4000;

const QUESTIONS: u32 = 6;

// The first planner is asked, over tables that hold something else before and are longer than their full size.
fn ask_first(tables: Lent, q: Question) -> First {
    let mut labels = [7; 2310];
    let mut legs = [7; 330];
    let answer = planner::ask(tables, &mut labels, &mut legs, q);
    First {
        labels,
        legs,
        answer,
    }
}

// Both planners are asked; the answer is the second's.
fn compare(
    rt: &impl Print,
    tallies: &mut Tallies,
    tables: Lent,
    steps: &[Step],
    q: Question,
) -> io::Result<Answer> {
    let first = ask_first(tables, q);
    let reply = second::answer(tables, steps, q);
    let same = same_reply(&first, &reply);
    tallies.record(&reply.answer, same);
    if !same {
        println!(rt;
            "network {} question {} differs",
            tallies.networks, tallies.questions
        )?;
    }
    Ok(reply.answer)
}

// A question. One of three is asked again, with a budget about its work.
fn try_question(
    rt: &impl Print,
    tallies: &mut Tallies,
    net: &Network,
    steps: &[Step],
    seed: u32,
    i: u32,
) -> io::Result<()> {
    let tables = net.tables.lent(net.heads);
    let q = question(net, part(seed, 0), i);
    let answer = compare(rt, tallies, tables, steps, q)?;
    let again = part(seed, 1);
    if draw(again, 0, 2) == 0 {
        let work = answer.verdict.unwrap_or_else(|refusal| refusal.place);
        let tight = with_budget(part(again, 1), q, work);
        compare(rt, tallies, tables, steps, tight)?;
    }
    Ok(())
}

// Some questions of one network.
fn try_network(rt: &impl Print, tallies: &mut Tallies, number: u32) -> io::Result<()> {
    let net = build(part(number, 0));
    let tables = net.tables.lent(net.heads);
    let steps = second::steps::list(tables);
    tallies.survey(tables);
    let seed = part(number, 1);
    for i in 0..QUESTIONS {
        try_question(rt, tallies, &net, &steps, part(seed, i), i)?;
    }
    Ok(())
}

fn report(rt: &impl Print, tallies: &Tallies) -> io::Result<()> {
    println!(rt; "networks {}", tallies.networks)?;
    println!(rt; "routes {}", tallies.routes)?;
    println!(rt; "circle lines {}", tallies.circles)?;
    println!(rt; "trips {}", tallies.trips)?;
    println!(rt; "equal trips {}", tallies.equal_trips)?;
    println!(rt; "rides of no time {}", tallies.rides_of_no_time)?;
    println!(rt; "walks {}", tallies.walks)?;
    println!(rt; "questions {}", tallies.questions)?;
    for (count, questions) in tallies.entries.iter().enumerate() {
        println!(rt; "entries {count}: {questions}")?;
    }
    println!(rt; "refused 13: {}", tallies.over_budget)?;
    println!(rt; "refused 14: {}", tallies.no_way)?;
    println!(rt; "differences {}", tallies.differences)
}

// All networks, and then what was counted.
fn run(rt: &impl Print) -> io::Result<()> {
    let mut tallies = Tallies::default();
    for number in 0..NETWORKS {
        try_network(rt, &mut tallies, number)?;
    }
    report(rt, &tallies)
}

fn main(rt: HostRuntime) -> io::Result<()> {
    run(&Spill { rt: &rt })
}
