// The certificate, the first box and the calls once more, in another style: wide numbers, the other columns taken from the right side one by one,
// passes from the last row to the first.
use super::drum::Drum;
use super::span::{Span, ceiling};
use balance::refusal::Refusal;
use roast::call::Reading;

const LARGEST_NUMBER: i64 = 1_048_576;

const LARGEST_END: i128 = 1_073_741_824;

fn check_certificate(size: usize, certificate: &[i64]) -> Result<(), Refusal> {
    if certificate.len() != size {
        return Err(Refusal::Certificate { place: 0 });
    }
    for (i, number) in certificate.iter().enumerate() {
        if *number <= 0 || LARGEST_NUMBER < *number {
            return Err(Refusal::Certificate { place: i + 1 });
        }
    }
    Ok(())
}

// What the diagonal of a row has over the rest of it.
pub(crate) fn margin(drum: &Drum, certificate: &[i64], row: usize) -> i128 {
    let mut margin = 0i128;
    for (column, number) in certificate.iter().enumerate() {
        let span = drum.span(row, column);
        let size = if column == row {
            span.mignitude()
        } else {
            span.magnitude().wrapping_neg()
        };
        margin = margin.wrapping_add(size.wrapping_mul(i128::from(*number)));
    }
    margin
}

fn check_margins(drum: &Drum, certificate: &[i64]) -> Result<(), Refusal> {
    for row in 0..drum.size {
        if margin(drum, certificate, row) < 1 {
            let place = row.wrapping_add(1);
            return Err(Refusal::Dominance { place });
        }
    }
    Ok(())
}

// The end of the first box for a node with this number: the largest of the rows' bounds, each rounded up.
fn first_end(drum: &Drum, certificate: &[i64], number: i64) -> i128 {
    let mut end = 0i128;
    for row in 0..drum.size {
        let side = drum.span(row, drum.size).magnitude();
        let margin = margin(drum, certificate, row);
        end = end.max(ceiling(i128::from(number).wrapping_mul(side), margin));
    }
    end
}

// A box: the spans of a drum's nodes, and beyond them [0, 0]. Nodes are counted from 1 by calls and refusals, and from 0 in between.
#[derive(Clone, Copy)]
pub(crate) struct Second {
    pub spans: [Span; 32],
}

impl Second {
    // The first box, or the refusal of the opening.
    pub(crate) fn opened(drum: &Drum, certificate: &[i64]) -> Result<Second, Refusal> {
        drum.first_refused()?;
        check_certificate(drum.size, certificate)?;
        check_margins(drum, certificate)?;
        let mut second = Second {
            spans: [Span::ZERO; 32],
        };
        for (i, number) in certificate.iter().enumerate() {
            let high = first_end(drum, certificate, *number);
            if LARGEST_END < high {
                return Err(Refusal::Wide { place: i + 1 });
            }
            let low = high.wrapping_neg();
            second.put(i, Span { low, high });
        }
        Ok(second)
    }

    pub(crate) fn at(&self, i: usize) -> Span {
        if i < 32 { self.spans[i] } else { Span::ZERO }
    }

    fn put(&mut self, i: usize, span: Span) {
        if i < 32 {
            self.spans[i] = span;
        }
    }

    // What a row leaves of its node's span.
    fn left(&self, drum: &Drum, row: usize) -> Option<Span> {
        let mut rest = drum.span(row, drum.size);
        for column in 0..drum.size {
            if column != row {
                let taken = self.at(column).product(drum.span(row, column));
                rest = rest.minus(taken);
            }
        }
        self.at(row).shared(rest.quotient(drum.span(row, row)))
    }

    // Gives a node a span, where there is one, and says whether that changed it.
    fn take(&mut self, i: usize, span: Option<Span>) -> Result<bool, Refusal> {
        let Some(span) = span else {
            let place = i.wrapping_add(1);
            return Err(Refusal::Conflict { place });
        };
        let changed = self.at(i) != span;
        self.put(i, span);
        Ok(changed)
    }

    pub(crate) fn step(&mut self, drum: &Drum, node: usize) -> Result<bool, Refusal> {
        if node == 0 || drum.size < node {
            return Err(Refusal::Node { place: node });
        }
        let row = node.wrapping_sub(1);
        let left = self.left(drum, row);
        self.take(row, left)
    }

    pub(crate) fn round(&mut self, drum: &Drum) -> Result<usize, Refusal> {
        let mut next = *self;
        let mut changes = 0usize;
        for node in 1..=drum.size {
            changes = changes.wrapping_add(usize::from(next.step(drum, node)?));
        }
        *self = next;
        Ok(changes)
    }

    pub(crate) fn read(&mut self, drum: &Drum, reading: &Reading) -> Result<bool, Refusal> {
        let place = reading.node;
        if place == 0 || drum.size < place {
            return Err(Refusal::Node { place });
        }
        if reading.upper < reading.lower {
            return Err(Refusal::Crossed { place });
        }
        let i = place.wrapping_sub(1);
        let left = self.at(i).shared(Span::new(reading.lower, reading.upper));
        self.take(i, left)
    }

    // Steps from the last row to the first; whether one changed its span.
    fn pass(&mut self, drum: &Drum) -> Result<bool, Refusal> {
        let mut changed = false;
        for node in (1..=drum.size).rev() {
            changed |= self.step(drum, node)?;
        }
        Ok(changed)
    }

    // Whether a pass would change nothing.
    pub(crate) fn rests(&self, drum: &Drum) -> bool {
        let mut next = *self;
        next.pass(drum) == Ok(false)
    }

    // Passes until one changes nothing; whether that came within 120.
    pub(crate) fn settle(&mut self, drum: &Drum) -> Result<bool, Refusal> {
        for _ in 0..120 {
            if !self.pass(drum)? {
                return Ok(true);
            }
        }
        Ok(false)
    }
}
