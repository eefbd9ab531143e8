// What a system and its table answer.
use super::pair::Pair;
use super::subject::{Call, Subject};
use balance::refusal::Refusal;
use balance::system::System;

// How wide a node's range is.
fn width<S: System + Drop>(subject: &Subject<S>, node: usize) -> Result<i64, Refusal> {
    let (lower, upper) = subject.ends(node)?;
    Ok(upper.saturating_sub(lower))
}

// Eight widths a line.
fn print_widths<S: System + Drop>(rt: &HostRuntime, subject: &Subject<S>) -> anyhow::Result<()> {
    for node in 1..=subject.size() {
        print!(rt; " {:>6}", width(subject, node)?)?;
        if node % 8 == 0 || node == subject.size() {
            println!(rt; "")?;
        }
    }
    Ok(())
}

// Opens both, makes rounds until they rest, asks for two points (all nodes at 100 °C, and at 50 °C), and prints how wide the last box is.
pub(crate) fn print<S: System + Drop>(rt: &HostRuntime, pair: &mut Pair<S>) -> anyhow::Result<()> {
    pair.make(Call::Opening, 1)?;
    let rounds = pair.settle()?;
    let rest = pair.one.at_rest() && pair.table.at_rest();
    let hot = pair.make(Call::Point, 1)? == 1;
    let warm = pair.make(Call::Point, 2)? == 1;
    println!(rt; "  rounds: {rounds}, then at rest: {rest}")?;
    println!(rt; "  possible at 100 °C: {hot}, at 50 °C: {warm}")?;
    println!(rt; "  all as its table: {}", pair.agree)?;
    print_widths(rt, &pair.one)
}
