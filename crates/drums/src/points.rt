// The test of a point once more: the left side less the denominator times the right side must be able to be 0.
use super::drum::Drum;
use super::exact::{Point, member_count, solution};
use super::random::Random;
use super::report::{Counted, Difference, Report};
use balance::point::possible;
use balance::system::System;

const LARGEST_DENOMINATOR: i128 = 1_048_576;

fn fits(drum: &Drum, point: &Point, row: usize) -> bool {
    let mut rest = drum.span(row, drum.size).times(point.denominator);
    for (column, numerator) in point.numerators.iter().enumerate() {
        if column < drum.size {
            rest = rest.minus(drum.span(row, column).times(*numerator));
        }
    }
    rest.holds(0)
}

// Whether a point is possible: both answer the same.
fn ask<S: System>(system: &S, drum: &Drum, point: &Point, report: &mut Report) -> bool {
    let mut numerators = [0; 32];
    let mut ours = true;
    for row in 0..drum.size.min(32) {
        numerators[row] = i64::try_from(point.numerators[row]).unwrap_or(0);
        ours &= fits(drum, point, row);
    }
    let denominator = i64::try_from(point.denominator).unwrap_or(0);
    let theirs = possible(system, &numerators[..drum.size.min(32)], denominator);
    report.expect(theirs == Ok(ours), Difference::Point);
    report.more(if ours {
        Counted::Possible
    } else {
        Counted::NotPossible
    });
    ours
}

// Moves a component away and halves the way between a possible point and one that is not, so that it asks for points ever nearer to the edge.
fn ask_at_the_edge<S: System>(
    system: &S,
    drum: &Drum,
    point: &Point,
    node: usize,
    report: &mut Report,
) {
    let mut inside = 0i128;
    let mut outside = 1i128 << 30;
    for _ in 0..32 {
        let middle = inside.wrapping_add(outside) / 2;
        let mut moved = *point;
        if node < 32 {
            moved.numerators[node] = moved.numerators[node].wrapping_add(middle);
        }
        if ask(system, drum, &moved, report) {
            inside = middle;
        } else {
            outside = middle;
        }
    }
}

// The planted point and each member's solution are possible; from some of them the edge is sought. A solution beyond the limits of a point is not
// asked for.
pub(crate) fn compare<S: System>(
    system: &S,
    drum: &Drum,
    random: &mut Random,
    report: &mut Report,
) {
    for member in 0..=member_count(drum.size) {
        let Some(point) = solution(drum, member) else {
            continue;
        };
        report.more(Counted::Member);
        if LARGEST_DENOMINATOR < point.denominator {
            continue;
        }
        let possible = ask(system, drum, &point, report);
        report.expect(possible, Difference::Point);
        if random.below(512) == 0 || member == member_count(drum.size) {
            ask_at_the_edge(system, drum, &point, random.below(drum.size), report);
        }
    }
}
