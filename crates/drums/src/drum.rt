// A drum as this program counts it itself: what each place tells, and what layers make of it.
use super::span::Span;
use balance::range::Range;
use balance::refusal::Refusal;

const LARGEST_COEFFICIENT: i128 = 1_048_576;

// Ranges row after row, the right side last in each, with room for 32 rows of 33; a certificate, and a whole point that solves some member.
#[derive(Clone, Copy)]
pub(crate) struct Drum {
    pub size: usize,
    pub ranges: [Range; 1056],
    pub numbers: [i64; 32],
    pub point: [i128; 32],
}

// A range times a factor, from the smaller to the larger of the two products.
pub(crate) fn multiplied(range: Range, factor: i64) -> Range {
    let p = range.lower.wrapping_mul(factor);
    let q = range.upper.wrapping_mul(factor);
    Range {
        lower: p.min(q),
        upper: p.max(q),
    }
}

impl Drum {
    // Where a row keeps a column, both counted from 0; column `size` is the right side.
    pub(crate) fn place(&self, row: usize, column: usize) -> usize {
        row.wrapping_mul(self.size.wrapping_add(1))
            .wrapping_add(column)
    }

    pub(crate) fn range(&self, row: usize, column: usize) -> Range {
        let place = self.place(row, column);
        if place < 1056 {
            self.ranges[place]
        } else {
            Range::ZERO
        }
    }

    pub(crate) fn span(&self, row: usize, column: usize) -> Span {
        let range = self.range(row, column);
        Span::new(range.lower, range.upper)
    }

    pub(crate) fn put(&mut self, row: usize, column: usize, range: Range) {
        let place = self.place(row, column);
        if place < 1056 {
            self.ranges[place] = range;
        }
    }

    pub(crate) fn certificate(&self) -> &[i64] {
        &self.numbers[..self.size.min(32)]
    }

    // The first place beyond the limits, row by row. Only a table has such a place.
    pub(crate) fn first_refused(&self) -> Result<(), Refusal> {
        for row in 0..self.size {
            for column in 0..self.size {
                if self.span(row, column).magnitude() > LARGEST_COEFFICIENT {
                    return Err(Refusal::Limit {
                        part: 1,
                        row: row.wrapping_add(1),
                        column: column.wrapping_add(1),
                    });
                }
            }
        }
        Ok(())
    }

    // Takes a row over from the drum below, its columns in another order, and each range times a factor.
    fn take_row(
        &mut self,
        row: usize,
        below: &Drum,
        below_row: usize,
        order: &[usize],
        factor: i64,
    ) {
        for (column, below_column) in order.iter().enumerate() {
            let range = below.range(below_row, below_column.wrapping_sub(1));
            self.put(row, column, multiplied(range, factor));
        }
        let side = below.range(below_row, self.size);
        self.put(row, self.size, multiplied(side, factor));
    }

    // As a renumbering and then a row scaler tell it.
    pub(crate) fn layered(&self, order: &[usize], factors: &[i64]) -> Drum {
        let mut layered = *self;
        for (row, (node, factor)) in order.iter().zip(factors.iter()).enumerate() {
            let below = node.wrapping_sub(1);
            layered.take_row(row, self, below, order, *factor);
            if row < 32 && below < 32 {
                layered.numbers[row] = self.numbers[below];
                layered.point[row] = self.point[below];
            }
        }
        layered
    }
}
