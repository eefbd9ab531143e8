// What a fitting engineer does by hand: key in a drum, as a table or as a network of links, hold probe temperatures against it, slip on the keys.
#![tactic(auto)]

ghost use Rattle.fitting.specs.Piles.{WorkedPiles};
ghost use Rattle.fitting.specs.Worked.{WorkedDrums};

mod chains;
mod drums;
mod piles;
mod replays;
mod tests;

use balance::cell::{Cell, Centred};
use balance::point::possible;
use balance::range::Range;
use balance::refusal::Refusal;
use balance::system::System;
use balance::table::Table;
use std::fmt::Display;

fn main(rt: HostRuntime) -> anyhow::Result<()> {
    run(&rt)
}

// The drums that are worked through below hold by the definitions.
fn run(rt: &HostRuntime) -> anyhow::Result<()>
    ensures worked_drums { WorkedDrums }
    ensures worked_piles { WorkedPiles }
{
    println!(rt; "a drum of two nodes, as a table of ranges")?;
    probe_table(rt, &Table::new(2, drums::RANGES.to_vec(rt.alloc())?)?)?;
    println!(rt; "the same drum with each row doubled, as centres with tolerances")?;
    probe_table(rt, &Table::new(2, drums::CENTRES.to_vec(rt.alloc())?)?)?;
    println!(rt; "slips of the keys")?;
    slip_on_tables(rt)?;
    slip_on_cells(rt)?;
    slip_on_points(rt)?;
    replays::run(rt)?;
    piles::run(rt)?;
    chains::run(rt)
}

fn probe_table<C: Cell>(rt: &HostRuntime, drum: &Table<C>) -> anyhow::Result<()> {
    probe(rt, drum, [10, -10], 3)?;
    probe(rt, drum, [11, -11], 3)
}

// Whether two probe temperatures, over one denominator, are possible for a drum.
fn probe<S: System>(
    rt: &HostRuntime,
    drum: &S,
    numerators: [i64; 2],
    denominator: i64,
) -> anyhow::Result<()> {
    let [first, second] = numerators;
    print!(rt; "  probes ({first}, {second})/{denominator}: ")?;
    match possible(drum, &numerators, denominator) {
        Ok(true) => println!(rt; "possible")?,
        Ok(false) => println!(rt; "not possible")?,
        Err(refusal) => println!(rt; "{refusal}")?,
    }
    Ok(())
}

// A key sequence, and whether it was taken. What was made is let go.
fn tell<T: Drop, E: Display + Drop>(
    rt: &HostRuntime,
    keys: &str,
    made: Result<T, E>,
) -> anyhow::Result<()> {
    match made {
        Ok(_) => println!(rt; "  {keys}: taken")?,
        Err(refusal) => println!(rt; "  {keys}: {refusal}")?,
    }
    Ok(())
}

fn slip_on_tables(rt: &HostRuntime) -> anyhow::Result<()> {
    let none: Vec<Range> = Vec::new(rt.alloc());
    tell(rt, "a table of no nodes", Table::new(0, none))?;
    let five = drums::RANGES[0..5].to_vec(rt.alloc())?;
    tell(rt, "five cells for two nodes", Table::new(2, five))
}

fn slip_on_cells(rt: &HostRuntime) -> anyhow::Result<()> {
    tell(rt, "the range [5, 4]", Range::new(5, 4))?;
    tell(rt, "the tolerance -1", Centred::new(9, -1))?;
    let large = Table::new(1, [1_048_577, 0].to_vec(rt.alloc())?)?;
    tell(
        rt,
        "probes against the coefficient 1048577",
        possible(&large, &[0], 1),
    )
}

fn slip_on_points(rt: &HostRuntime) -> anyhow::Result<()> {
    let drum = Table::new(2, drums::RANGES.to_vec(rt.alloc())?)?;
    tell(rt, "one numerator for two nodes", possible(&drum, &[10], 3))?;
    probe(rt, &drum, [10, 137_438_953_473], 3)?;
    probe(rt, &drum, [10, -10], 0)?;
    tell(
        rt,
        "the coefficient of row 1, column 3",
        drum.coefficient(1, 3),
    )
}
