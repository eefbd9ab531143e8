// What calls on a system and on its table cost: medians of samples that are taken in turn.
use super::pair::Pair;
use super::subject::{Call, Subject};
use balance::system::System;
use std::time::Instant;

const SAMPLES: usize = 61;

// A sample lasts about so long, and one call at least.
const SAMPLE_NANOSECONDS: u64 = 200_000;

// The nanoseconds of so many calls.
fn spent<S: System + Drop>(
    rt: &HostRuntime,
    subject: &mut Subject<S>,
    call: Call,
    times: usize,
) -> anyhow::Result<u64> {
    let start = Instant::now(rt)?;
    subject.repeat(call, times)?;
    let spent = start.elapsed(rt)?;
    Ok(u64::try_from(spent.as_nanos()).unwrap_or(u64::MAX))
}

// How many calls make a sample.
fn times_for<S: System + Drop>(
    rt: &HostRuntime,
    subject: &mut Subject<S>,
    call: Call,
) -> anyhow::Result<usize> {
    let ten = spent(rt, subject, call, 10)?.max(1);
    Ok((SAMPLE_NANOSECONDS * 10 / ten) as usize + 1)
}

// A quotient in hundredths; 0 where there is none.
fn hundredths(number: u64, of: u64) -> u64 {
    number.saturating_mul(100).checked_div(of).unwrap_or(0)
}

fn median(samples: &mut [u64; SAMPLES]) -> u64 {
    samples.sort_unstable();
    samples[SAMPLES / 2]
}

// Prints the nanoseconds of a call on the system and on its table, and their ratio, a median too: of samples one after the other.
fn measure<S: System + Drop>(
    rt: &HostRuntime,
    pair: &mut Pair<S>,
    call: Call,
    name: &str,
) -> anyhow::Result<()> {
    let own_times = times_for(rt, &mut pair.one, call)?;
    let table_times = times_for(rt, &mut pair.table, call)?;
    let mut own = [0; SAMPLES];
    let mut table = [0; SAMPLES];
    let mut ratio = [0; SAMPLES];
    for ((own, table), ratio) in own.iter_mut().zip(table.iter_mut()).zip(ratio.iter_mut()) {
        *own = hundredths(spent(rt, &mut pair.one, call, own_times)?, own_times as u64);
        *table = hundredths(
            spent(rt, &mut pair.table, call, table_times)?,
            table_times as u64,
        );
        *ratio = hundredths(*own, *table);
    }
    let ratio = median(&mut ratio);
    println!(rt;
        "  {name:<10}{:>10}{:>10}{:>7}.{:02}",
        median(&mut own) / 100,
        median(&mut table) / 100,
        ratio / 100,
        ratio % 100
    )?;
    Ok(())
}

// Rounds are measured at rest, where they take the same steps as on the way there.
pub(crate) fn print<S: System + Drop>(rt: &HostRuntime, pair: &mut Pair<S>) -> anyhow::Result<()> {
    println!(rt; "  ns            itself     table     ratio")?;
    measure(rt, pair, Call::Opening, "opening")?;
    measure(rt, pair, Call::Round, "a round")?;
    measure(rt, pair, Call::Point, "a point")
}
