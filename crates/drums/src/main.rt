// Random drums: what no contract can say of the libraries is tried by running, beside Cramer's rule and beside a second solver.
#![tactic(auto)]

mod drum;
mod exact;
mod limits;
mod pair;
mod points;
mod random;
mod records;
mod report;
mod second;
mod sorts;
mod span;
mod tables;
mod trial;

use random::Random;
use report::{Difference, LABELS, Report};
use std::alloc::Global;
use std::io;

const DRUMS: u64 = 420;

// Makes and compares one drum, from a seed of its own; number 0 stands for the limit cases.
fn compare(heap: Global, number: u64, report: &mut Report) -> Result<(), Difference> {
    if number == 0 {
        return limits::compare(heap, report);
    }
    let mut random = Random {
        state: number.wrapping_add(20_261_126),
    };
    sorts::drum(heap, number, &mut random, report)
}

// Compares drum after drum. The first that differs ends it, and is named.
fn compare_all(rt: &HostRuntime, report: &mut Report) -> io::Result<()> {
    for number in 0..=DRUMS {
        let compared = compare(rt.alloc(), number, report);
        if let Some(difference) = compared.err().or(report.difference) {
            return println!(rt; "drum {number} differs: {difference:?}");
        }
    }
    println!(rt; "all agree")
}

fn main(rt: HostRuntime) -> io::Result<()> {
    let mut report = Report {
        counts: [0; 13],
        difference: None,
    };
    compare_all(&rt, &mut report)?;
    for (label, count) in LABELS.iter().zip(report.counts.iter()) {
        println!(rt; "{label}: {count}")?;
    }
    Ok(())
}
