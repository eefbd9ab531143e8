// Two roasts of one drum with one certificate: other calls in another order, the same accepted readings, one box at rest.
use super::{drums, tell};
use balance::table::Table;
use roast::call::{Call, Entry, Reading};
use roast::roast::Roast;
use std::alloc::{AllocError, Global};

fn entry(call: Call) -> Entry {
    Entry { call, answer: None }
}

// Row steps first, then a reading, one that is in conflict, and rounds.
fn steps_first(heap: Global) -> Result<Vec<Entry>, AllocError> {
    Ok(vec![in heap;
        entry(Call::RowStep { node: 1 }),
        entry(Call::RowStep { node: 2 }),
        entry(Call::AtRest),
        entry(Call::Reading {
            node: 1,
            lower: 2,
            upper: 3
        }),
        entry(Call::Reading {
            node: 1,
            lower: 5,
            upper: 9
        }),
        entry(Call::Round),
        entry(Call::Round),
        entry(Call::AtRest),
        entry(Call::Ends { node: 1 }),
        entry(Call::Ends { node: 2 }),
    ]?)
}

// A list of readings first, two of them refused, then rounds and a row step.
fn readings_first(heap: Global) -> Result<Vec<Entry>, AllocError> {
    let records = [
        Reading::new(3, 0, 1),
        Reading::new(1, 2, 3),
        Reading::new(2, 1, 0),
    ];
    let records = records.to_vec(heap)?;
    Ok(vec![in heap;
        entry(Call::Readings { records }),
        entry(Call::Round),
        entry(Call::RowStep { node: 2 }),
        entry(Call::Round),
        entry(Call::AtRest),
        entry(Call::Ends { node: 1 }),
        entry(Call::Ends { node: 2 }),
    ]?)
}

pub fn run(rt: &HostRuntime) -> anyhow::Result<()> {
    println!(rt; "a roast of the drum: row steps, then readings")?;
    let steps = steps_first(rt.alloc())?;
    replay(rt, &[1, 1], steps)?;
    println!(rt; "another roast of it: readings, then rounds")?;
    let readings = readings_first(rt.alloc())?;
    replay(rt, &[1, 1], readings)?;
    println!(rt; "a certificate that does not pass")?;
    let none = Vec::new(rt.alloc());
    replay(rt, &[1, 4], none)
}

fn replay(rt: &HostRuntime, certificate: &[i64], mut entries: Vec<Entry>) -> anyhow::Result<()> {
    let mut roast = Roast::new(Table::new(2, drums::RANGES.to_vec(rt.alloc())?)?);
    tell(
        rt,
        "opened",
        roast.replay(certificate, entries.as_mut_slice()),
    )?;
    for entry in &entries {
        print_entry(rt, entry)?;
    }
    Ok(())
}

// A call, its records before it, and what it was answered with.
fn print_entry(rt: &HostRuntime, entry: &Entry) -> anyhow::Result<()> {
    if let Call::Readings { records } = &entry.call {
        for record in records {
            println!(rt; "  listed {record}: {}", record.answer)?;
        }
    }
    print!(rt; "  {}: ", entry.call)?;
    match &entry.answer {
        None => println!(rt; "not made")?,
        Some(Ok(answer)) => println!(rt; "{answer}")?,
        Some(Err(refusal)) => println!(rt; "{refusal}")?,
    }
    Ok(())
}
