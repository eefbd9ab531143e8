ghost use Rattle.std.specs.Prelude.{◌≡◌, ◌&&◌, length, Some, None, Ok, IfOk, IfErr};
ghost use Rattle.balance.specs.Ranges.{only, Ordered, Fits64, plus, times};
ghost use Rattle.balance.specs.Meanings.{IsNode};
ghost use Rattle.balance.specs.Places.{first, every, refusal_at, first_refusal, unless_refused};
ghost use Rattle.balance.specs.Points.{numerator, point_refusal, row as point_row, fits, possible_answer, TellsPossible};

use super::places::every_place_answers;
use super::range::Range;
use super::refusal::Refusal;
use super::system::System;

// A numerator lies within ±2^37.
const NUMERATORS: Range = Range {
    lower: -137_438_953_472,
    upper: 137_438_953_472,
};

// A denominator lies in 1 to 2^20.
const DENOMINATORS: Range = Range {
    lower: 1,
    upper: 1_048_576,
};

// Whether the point with these numerators over one denominator is a solution of some member system.
pub fn possible<S: System>(
    system: &S,
    numerators: &[i64],
    denominator: i64,
) -> Result<bool, Refusal>
    ensures answers { result ≡ possible_answer (S.meaning system.now) numerators.now denominator }
    ensures says_yes_exactly_if_a_member_has_the_point { let m = S.meaning system.now in
        TellsPossible m numerators.now denominator result }
{
    match Point::new(system.size(), numerators, denominator) {
        Ok(point) => every_row_fits(system, &point),
        Err(refusal) => {
            every_place_answers(system)?;
            Err(refusal)
        }
    }
}

// Numerators over one denominator, each of them allowed.
#[derive(Drop)]
struct Point<'a> {
    numerators: &'a [i64],
    denominator: i64,
    ghost allowed: { point_refusal (length numerators.now) numerators.now denominator ≡ None },
}

impl<'a> Point<'a> {
    // (The numbers of a certificate and the list of a layer are refused alike, each by a case and a test of its own.)
    // Refuses another count than the system's size, a denominator that is not allowed, or the first numerator that is not.
    fn new(size: usize, numerators: &'a [i64], denominator: i64) -> Result<Point<'a>, Refusal>
        ensures is_allowed { IfOk result (λ p.
            point_refusal size numerators.now denominator ≡ None) }
        ensures holds_the_numerators { IfOk result (λ p. p.numerators.now ≡ numerators.now) }
        ensures holds_the_denominator { IfOk result (λ p. p.denominator ≡ denominator) }
        ensures refuses { IfErr result (λ e.
            point_refusal size numerators.now denominator ≡ Some e) }
    {
        if numerators.len() != size || !DENOMINATORS.contains(denominator) {
            return Err(Refusal::Point { place: 0 });
        }
        match NUMERATORS.first_outside(numerators) {
            Some(j) => Err(Refusal::Point { place: j + 1 }),
            None => Ok(Point {
                numerators,
                denominator,
            }),
        }
    }
}

// A range times a number; a number below 0 exchanges the ends.
fn multiple(range: Range, number: i64) -> Range
    requires in_order { Ordered range }
    requires fits { Fits64 (times range (only number)) }
    ensures { result ≡ times range (only number) }
{
    let (lower, upper) = if number < 0 {
        (range.upper, range.lower)
    } else {
        (range.lower, range.upper)
    };
    Range {
        lower: lower * number,
        upper: upper * number,
    }
}

// What the columns before have added up to, and what one more adds.
fn sum(before: Range, more: Range) -> Range
    requires { Fits64 (plus before more) }
    ensures { result ≡ plus before more }
{
    Range {
        lower: before.lower + more.lower,
        upper: before.upper + more.upper,
    }
}

// Whether every row fits, or the first refusal met: each place is asked once.
fn every_row_fits<S: System>(system: &S, point: &Point) -> Result<bool, Refusal>
    requires counted { length point.now.numerators.now ≡ (S.meaning system.now).size }
    ensures { let m = S.meaning system.now in
        let p = point.now in
        let row_fits = fits m (numerator p.numerators.now) p.denominator in
        result ≡ unless_refused (first_refusal m) (Ok (every row_fits m.size)) }
{
    let mut all = true;
    for row in 1..system.size() + 1 {
        let sum = row_sum(system, point, row)?;
        let side = Range::from(system.right_side(row)?);
        all = both(all, sum.meets(multiple(side, point.denominator)));
    }
    Ok(all)
}

fn both(before: bool, here: bool) -> bool
    ensures { result ≡ (before && here) }
{
    before && here
}

// The sum of a row over the numerators, or the first refusal met.
fn row_sum<S: System>(system: &S, point: &Point, row: usize) -> Result<Range, Refusal>
    requires counted { length point.now.numerators.now ≡ (S.meaning system.now).size }
    requires row_is_a_node { IsNode (S.meaning system.now) row }
    ensures { let m = S.meaning system.now in
        let refusal = first (λ j. refusal_at (m.coefficient row j)) m.size in
        let p = numerator point.now.numerators.now in
        result ≡ unless_refused refusal (Ok (point_row m p row)) }
{
    let mut total = Range::ZERO;
    for column in 1..system.size() + 1 {
        let a = Range::from(system.coefficient(row, column)?);
        total = sum(total, multiple(a, point.numerators[column - 1]));
    }
    Ok(total)
}
