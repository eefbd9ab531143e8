// Random tables: a whole point is planted, so that it solves some member, and the diagonals are made to dominate under the certificate, or in one
// row not to.
use super::drum::Drum;
use super::random::Random;
use super::second::margin;
use balance::range::Range;

// How large the numbers of a drum are.
#[derive(Clone, Copy)]
pub(crate) struct Shape {
    pub size: usize,
    // of the coefficients beside the diagonal
    pub reach: i64,
    // of the ranges
    pub width: i64,
    // of what a diagonal has beyond what it needs
    pub extra: i64,
    // of the planted point
    pub warmth: i64,
    // of the right sides around what the planted point gives
    pub slack: i64,
    // a row, counted from 0, whose diagonal does not dominate it, if there is such a row
    pub weak: usize,
}

// Thin or wide. Small drums have small numbers, so that solutions of members keep the limits of a point.
pub(crate) fn any_shape(random: &mut Random, most: usize) -> Shape {
    let size = random.below(most).wrapping_add(1);
    let scale = if size < 4 { 2 } else { 10 };
    Shape {
        size,
        reach: random.power(0, scale),
        width: random.power(0, scale) / 2,
        extra: random.power(0, scale.wrapping_add(2)),
        warmth: random.power(0, scale.wrapping_mul(2)),
        slack: random.power(0, scale.wrapping_mul(2)) / 2,
        weak: random.below(200),
    }
}

// A range of a width from 0 up, from this lower end.
pub(crate) fn from_end(random: &mut Random, lower: i64, width: i64) -> Range {
    let width = random.between(width.wrapping_neg(), width).max(0);
    Range {
        lower,
        upper: lower.wrapping_add(width),
    }
}

// A range that holds a number.
pub(crate) fn around(random: &mut Random, number: i64, slack: i64) -> Range {
    Range {
        lower: number.wrapping_sub(random.between(0, slack)),
        upper: number.wrapping_add(random.between(0, slack)),
    }
}

// A drum of zeros with a planted point.
pub(crate) fn empty(random: &mut Random, shape: Shape) -> Drum {
    let mut drum = Drum {
        size: shape.size,
        ranges: [Range::ZERO; 1056],
        numbers: [1; 32],
        point: [0; 32],
    };
    for node in 0..shape.size.min(32) {
        let cold = shape.warmth.wrapping_neg();
        drum.point[node] = i128::from(random.between(cold, shape.warmth));
    }
    drum
}

// What a member of a row gives at the planted point.
pub(crate) fn value(random: &mut Random, drum: &Drum, row: usize) -> i64 {
    let mut sum = 0i128;
    for (column, x) in drum.point.iter().enumerate() {
        if column < drum.size {
            let range = drum.range(row, column);
            let picked = i128::from(random.between(range.lower, range.upper));
            sum = sum.wrapping_add(picked.wrapping_mul(*x));
        }
    }
    i64::try_from(sum).unwrap_or(0)
}

// A diagonal that has more than it needs, or in a weak row less; one in two is negative.
fn diagonal(random: &mut Random, shape: Shape, needed: i64, weak: bool) -> Range {
    let lower = if weak {
        random.between(shape.width.wrapping_neg(), needed)
    } else {
        needed.wrapping_add(random.between(1, shape.extra))
    };
    let range = from_end(random, lower, shape.width);
    if random.below(2) == 0 {
        range
    } else {
        Range {
            lower: range.upper.wrapping_neg(),
            upper: range.lower.wrapping_neg(),
        }
    }
}

fn fill_row(random: &mut Random, shape: Shape, drum: &mut Drum, row: usize) {
    for column in 0..shape.size {
        let lower = random.between(shape.reach.wrapping_neg(), shape.reach);
        drum.put(row, column, from_end(random, lower, shape.width));
    }
    drum.put(row, row, Range::ZERO);
    let others = margin(drum, drum.certificate(), row).wrapping_neg();
    let number = if row < 32 { drum.numbers[row] } else { 1 };
    let needed = others.checked_div(i128::from(number)).unwrap_or(0);
    let needed = i64::try_from(needed).unwrap_or(0);
    drum.put(row, row, diagonal(random, shape, needed, row == shape.weak));
    let middle = value(random, drum, row);
    drum.put(row, shape.size, around(random, middle, shape.slack));
}

// A table's ranges, its certificate and its planted point.
pub(crate) fn table(random: &mut Random, shape: Shape) -> Drum {
    let mut drum = empty(random, shape);
    for node in 0..shape.size.min(32) {
        drum.numbers[node] = random.between(1, 4);
    }
    for row in 0..shape.size {
        fill_row(random, shape, &mut drum, row);
    }
    // One in 16 has a coefficient beyond its limits.
    if random.below(16) == 0 {
        let column = random.below(shape.size);
        drum.put(
            random.below(shape.size),
            column,
            Range {
                lower: 0,
                upper: 1_048_577,
            },
        );
    }
    drum
}
