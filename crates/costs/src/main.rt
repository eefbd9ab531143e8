// Systems beside the tables that tell the same: a network of links, and a pile of layers over a table. Without a word it prints what both
// answer, and with the word `times` what both cost, in nanoseconds; with five words, as `network itself round 32 10`, it makes a call so
// many times, so that its instructions can be counted.
#![tactic(auto)]

mod answers;
mod drums;
mod pair;
mod subject;
mod times;

use balance::system::System;
use drums::Pile;
use pair::Pair;
use std::alloc::Global;
use std::env;
use subject::Call;
use systems::network::Network;

// What is printed of each pair.
#[derive(Clone, Copy)]
enum Printed {
    Answers,
    Times,
}

fn networks(heap: Global, size: usize) -> anyhow::Result<Pair<Network>> {
    Pair::new(
        heap,
        drums::network(heap, size)?,
        drums::network(heap, size)?,
    )
}

fn piles(heap: Global, size: usize) -> anyhow::Result<Pair<Pile>> {
    Pair::new(heap, drums::pile(heap, size)?, drums::pile(heap, size)?)
}

fn print_pair<S: System + Drop>(
    rt: &HostRuntime,
    printed: Printed,
    name: &str,
    pair: &mut Pair<S>,
) -> anyhow::Result<()> {
    println!(rt; "{name} over {} nodes", pair.one.size())?;
    match printed {
        Printed::Answers => answers::print(rt, pair),
        Printed::Times => times::print(rt, pair),
    }
}

fn print(rt: &HostRuntime, printed: Printed) -> anyhow::Result<()> {
    let heap = rt.alloc();
    for size in [2, 8, 32] {
        print_pair(rt, printed, "a network", &mut networks(heap, size)?)?;
        print_pair(rt, printed, "a pile", &mut piles(heap, size)?)?;
    }
    Ok(())
}

// Makes a call on one side of a pair so many times, after an opening.
fn repeat<S: System + Drop>(
    pair: &mut Pair<S>,
    side: &str,
    call: Call,
    times: usize,
) -> anyhow::Result<usize> {
    pair.make(Call::Opening, 1)?;
    match side {
        "itself" => pair.one.repeat(call, times)?,
        "table" => pair.table.repeat(call, times)?,
        _ => anyhow::bail!("no side: {side}"),
    }
    Ok(pair.one.answers.wrapping_add(pair.table.answers))
}

fn call_named(name: &str) -> anyhow::Result<Call> {
    match name {
        "opening" => Ok(Call::Opening),
        "round" => Ok(Call::Round),
        "point" => Ok(Call::Point),
        _ => anyhow::bail!("no call: {name}"),
    }
}

// Makes a call on a network, a pile, or its table so many times, and prints what was answered, added up.
fn count(rt: &HostRuntime, words: [&str; 5]) -> anyhow::Result<()> {
    let [system, side, call, size, times] = words;
    let heap = rt.alloc();
    let call = call_named(call)?;
    let size = size.parse::<usize>()?;
    let times = times.parse::<usize>()?;
    let answers = match system {
        "network" => repeat(&mut networks(heap, size)?, side, call, times)?,
        "pile" => repeat(&mut piles(heap, size)?, side, call, times)?,
        _ => anyhow::bail!("no system: {system}"),
    };
    println!(rt; "{answers}")?;
    Ok(())
}

fn main(rt: HostRuntime) -> anyhow::Result<()> {
    let mut words = Vec::new(rt.alloc());
    for word in env::args(&rt)?.skip(1) {
        words.push(word)?;
    }
    match words.as_slice() {
        [] => print(&rt, Printed::Answers),
        [word] if word.as_str() == "times" => print(&rt, Printed::Times),
        [system, side, call, size, times] => count(
            &rt,
            [
                system.as_str(),
                side.as_str(),
                call.as_str(),
                size.as_str(),
                times.as_str(),
            ],
        ),
        _ => anyhow::bail!("costs, costs times, or costs SYSTEM SIDE CALL SIZE TIMES"),
    }
}
