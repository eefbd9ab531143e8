// Ranges in wide numbers. No sum or product of this program reaches 2^110, so nothing wraps.
#[derive(Clone, Copy, PartialEq, Eq)]
pub(crate) struct Span {
    pub low: i128,
    pub high: i128,
}

// The quotient rounded down: toward zero first, and one less where a remainder and the divisor differ in sign. No divisor is 0.
fn floor(number: i128, divisor: i128) -> i128 {
    let quotient = number.checked_div(divisor).unwrap_or(0);
    let remainder = number.checked_rem(divisor).unwrap_or(0);
    let below = remainder != 0 && (remainder < 0) != (divisor < 0);
    quotient.wrapping_sub(i128::from(below))
}

pub(crate) fn ceiling(number: i128, divisor: i128) -> i128 {
    floor(number.wrapping_neg(), divisor).wrapping_neg()
}

impl Span {
    pub(crate) const ZERO: Span = Span { low: 0, high: 0 };

    pub(crate) fn new(lower: i64, upper: i64) -> Span {
        Span {
            low: i128::from(lower),
            high: i128::from(upper),
        }
    }

    // The largest absolute value.
    pub(crate) fn magnitude(self) -> i128 {
        self.low.wrapping_neg().max(self.high)
    }

    // The smallest absolute value.
    pub(crate) fn mignitude(self) -> i128 {
        self.low.max(self.high.wrapping_neg()).max(0)
    }

    pub(crate) fn holds(self, number: i128) -> bool {
        self.low <= number && number <= self.high
    }

    pub(crate) fn minus(self, other: Span) -> Span {
        Span {
            low: self.low.wrapping_sub(other.high),
            high: self.high.wrapping_sub(other.low),
        }
    }

    // Each number times one factor.
    pub(crate) fn times(self, factor: i128) -> Span {
        let p = self.low.wrapping_mul(factor);
        let q = self.high.wrapping_mul(factor);
        Span {
            low: p.min(q),
            high: p.max(q),
        }
    }

    // Each number over one divisor, rounded outward.
    fn over(self, divisor: i128) -> Span {
        Span {
            low: floor(self.low, divisor).min(floor(self.high, divisor)),
            high: ceiling(self.low, divisor).max(ceiling(self.high, divisor)),
        }
    }

    // The least span that holds two.
    fn joined(self, other: Span) -> Span {
        Span {
            low: self.low.min(other.low),
            high: self.high.max(other.high),
        }
    }

    // Every product of two numbers: the products with either end of one factor.
    pub(crate) fn product(self, other: Span) -> Span {
        self.times(other.low).joined(self.times(other.high))
    }

    // Every quotient, rounded outward: the quotients by either end of the divisor, which does not hold 0.
    pub(crate) fn quotient(self, divisor: Span) -> Span {
        self.over(divisor.low).joined(self.over(divisor.high))
    }

    pub(crate) fn shared(self, other: Span) -> Option<Span> {
        let low = self.low.max(other.low);
        let high = self.high.min(other.high);
        if low <= high {
            Some(Span { low, high })
        } else {
            None
        }
    }
}
