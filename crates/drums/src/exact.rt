// Members with an end of each range, of drums of 1 to 3 nodes, solved by Cramer's rule.
use super::drum::Drum;
use super::span::Span;
use roast::call::Reading;

// Numerators over one denominator above 0, a numerator for each node.
#[derive(Clone, Copy)]
pub(crate) struct Point {
    pub numerators: [i128; 32],
    pub denominator: i128,
}

impl Point {
    // Whether a component is within a span.
    fn lies(&self, node: usize, span: Span) -> bool {
        node < 32 && span.times(self.denominator).holds(self.numerators[node])
    }

    pub(crate) fn is_in(&self, spans: &[Span]) -> bool {
        let mut inside = true;
        for (node, span) in spans.iter().enumerate() {
            inside &= self.lies(node, *span);
        }
        inside
    }

    pub(crate) fn agrees_with(&self, readings: &[Reading]) -> bool {
        let mut agrees = true;
        for reading in readings {
            let span = Span::new(reading.lower, reading.upper);
            agrees &= self.lies(reading.node.wrapping_sub(1), span);
        }
        agrees
    }
}

// The coefficients of a column in three rows, or three right sides.
type Column = [i128; 3];

fn minor(p: i128, q: i128, s: i128, t: i128) -> i128 {
    p.wrapping_mul(t).wrapping_sub(q.wrapping_mul(s))
}

fn determinant(u: Column, v: Column, w: Column) -> i128 {
    let first = u[0].wrapping_mul(minor(v[1], v[2], w[1], w[2]));
    let second = u[1].wrapping_mul(minor(v[2], v[0], w[2], w[0]));
    let third = u[2].wrapping_mul(minor(v[0], v[1], w[0], w[1]));
    first.wrapping_add(second).wrapping_add(third)
}

// An end of the range at a place, by one bit of the member's number.
fn picked(drum: &Drum, member: usize, row: usize, column: usize) -> i128 {
    let span = drum.span(row, column);
    let bit = 1usize.checked_shl(u32::try_from(drum.place(row, column)).unwrap_or(0));
    if member & bit.unwrap_or(0) == 0 {
        span.low
    } else {
        span.high
    }
}

// A column of a member, the right sides being column 3. Nodes that a drum has not got hold x = 0.
fn column(drum: &Drum, member: usize, number: usize) -> Column {
    let mut column = [0; 3];
    if number < 3 {
        column[number] = 1;
    }
    if number < drum.size || number == 3 {
        for row in 0..drum.size.min(3) {
            column[row] = picked(drum, member, row, number.min(drum.size));
        }
    }
    column
}

// 2^(n (n + 1)) members of a drum of n nodes, n from 1 to 3; none of a larger one.
pub(crate) fn member_count(size: usize) -> usize {
    match size {
        1 => 4,
        2 => 64,
        3 => 4096,
        _ => 0,
    }
}

// The only solution of a member, if it has just one. The member beyond the last is the one that the planted point solves.
pub(crate) fn solution(drum: &Drum, member: usize) -> Option<Point> {
    if member == member_count(drum.size) {
        return Some(Point {
            numerators: drum.point,
            denominator: 1,
        });
    }
    let u = column(drum, member, 0);
    let v = column(drum, member, 1);
    let w = column(drum, member, 2);
    let side = column(drum, member, 3);
    let whole = determinant(u, v, w);
    let sign = whole.signum();
    let mut numerators = [0; 32];
    numerators[0] = determinant(side, v, w).wrapping_mul(sign);
    numerators[1] = determinant(u, side, w).wrapping_mul(sign);
    numerators[2] = determinant(u, v, side).wrapping_mul(sign);
    let denominator = whole.wrapping_mul(sign);
    (denominator != 0).then_some(Point {
        numerators,
        denominator,
    })
}
