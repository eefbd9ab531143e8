// One system beside its drum: places, points, openings, and lists of calls in two orders with the same accepted readings.
use super::drum::Drum;
use super::pair::{Pair, Readings};
use super::points;
use super::random::Random;
use super::report::{Counted, Difference, Report};
use super::second::Second;
use super::span::Span;
use super::tables::around;
use balance::system::System;
use roast::call::Reading;
use roast::roast::Roast;

// A system tells what this program counted, within the limits of a place.
fn compare_places<S: System>(system: &S, drum: &Drum, report: &mut Report) {
    report.expect(system.size() == drum.size, Difference::Place);
    for row in 0..drum.size {
        let number = row.wrapping_add(1);
        for column in 0..drum.size {
            let range = drum.range(row, column);
            let told = system.coefficient(number, column.wrapping_add(1));
            report.expect(told == Ok((range.lower, range.upper)), Difference::Place);
        }
        let side = drum.range(row, drum.size);
        let told = system.right_side(number);
        report.expect(told == Ok((side.lower, side.upper)), Difference::Place);
    }
}

// A reading about the planted point: it mostly holds the point, and may be crossed, beside the point, or of no node.
fn reading(random: &mut Random, drum: &Drum) -> Reading {
    let node = random.below(drum.size.wrapping_add(2));
    let place = node.wrapping_sub(1);
    let middle = if place < 32 { drum.point[place] } else { 0 };
    let slack = random.power(0, 16);
    let range = around(random, i64::try_from(middle).unwrap_or(0), slack);
    match random.below(8) {
        0 => Reading::new(node, range.upper, range.lower),
        1 => Reading::new(node, range.upper, range.upper.wrapping_add(slack)),
        2 => Reading::new(node, 1_073_741_825, i64::MAX),
        _ => Reading::new(node, range.lower, range.upper),
    }
}

// One call of any sort.
fn call<S: System>(pair: &mut Pair<S>, random: &mut Random, report: &mut Report) {
    let one = reading(random, &pair.drum);
    match random.below(6) {
        0 => pair.round(report),
        1 | 2 => pair.step(one.node, report),
        3 => {
            let other = reading(random, &pair.drum);
            pair.read_all(&mut [one, other], report);
        }
        _ => pair.read(one, report),
    }
}

// Openings with other certificates, each with one number changed, often to one that is not allowed.
fn compare_openings<S: System>(pair: &mut Pair<S>, random: &mut Random, report: &mut Report) {
    let changed = random.below(pair.drum.size);
    for number in [0, 1_048_577, 1_048_576, random.between(1, 9)] {
        let mut drum = pair.drum;
        if changed < 32 {
            drum.numbers[changed] = number;
        }
        pair.open(drum.certificate(), report);
    }
    pair.open(&[1; 33], report);
}

// The accepted readings from the last to the first, in one list, end in the box that is at rest now.
fn compare_reversed<S: System>(pair: &mut Pair<S>, report: &mut Report) {
    let drum = pair.drum;
    let rest = pair.second.spans;
    let count = pair.accepted.count;
    let mut reversed = pair.accepted.reversed();
    pair.open(drum.certificate(), report);
    pair.read_all(&mut reversed.list[..count.min(32)], report);
    report.expect(pair.accepted.count == count, Difference::Orders);
    if pair.settle(report) {
        report.expect(pair.second.spans == rest, Difference::Orders);
        report.more(Counted::Orders);
    }
}

// A list of calls on a drum that opens; then the box may come to rest.
fn compare_calls<S: System>(pair: &mut Pair<S>, random: &mut Random, report: &mut Report) {
    let drum = pair.drum;
    if pair.open(drum.certificate(), report) {
        for _ in 0..12 {
            call(pair, random, report);
        }
        if pair.settle(report) {
            compare_reversed(pair, report);
        }
    }
}

pub(crate) fn compare<S: System + Drop>(
    system: S,
    drum: &Drum,
    random: &mut Random,
    report: &mut Report,
) {
    report.more(Counted::Drum);
    if drum.first_refused().is_ok() {
        compare_places(&system, drum, report);
        points::compare(&system, drum, random, report);
    }
    let mut pair = Pair {
        drum: *drum,
        roast: Roast::new(system),
        second: Second {
            spans: [Span::ZERO; 32],
        },
        accepted: Readings::none(),
    };
    compare_openings(&mut pair, random, report);
    compare_calls(&mut pair, random, report);
    compare_calls(&mut pair, random, report);
}
