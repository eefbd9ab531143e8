ghost use Rattle.std.specs.Prelude.{◌≡◌, ◌↔◌, ◌+ℤ◌, ◌-ℤ◌, ◌*ℤ◌, Some, IsTrue, not, position, int_le};
ghost use Rattle.std.specs.Option.{SomeIff};
ghost use Rattle.balance.specs.Ranges.{range, range_making, range_text, contains, within, meets, plus, minus, spanned, times, ◌⊆◌, Ordered, Fits64, Inside, IntervalExtension};

use super::refusal::Refusal;
use std::fmt;

// Two ends, both included. A plain record: `new` refuses crossed ends, but nobody is kept from writing them.
#[derive(Clone, Copy, PartialEq, Eq, Default, Debug)]
#[repr(C)]
pub struct Range {
    pub lower: i64,
    pub upper: i64,
}

impl Range {
    pub const ZERO: Range = Range { lower: 0, upper: 0 };

    pub fn new(lower: i64, upper: i64) -> Result<Range, Refusal>
        ensures made_exactly_in_order { result ≡ range_making lower upper }
    {
        let range = Range { lower, upper };
        if range.is_in_order() {
            Ok(range)
        } else {
            Err(Refusal::Crossed { place: 0 })
        }
    }

    // Whether the lower end is not above the upper end.
    pub fn is_in_order(self) -> bool
        ensures is { result ≡ int_le self.lower self.upper }
        ensures tells_order { IsTrue result ↔ Ordered self }
    {
        self.lower <= self.upper
    }

    pub fn contains(self, number: i64) -> bool
        ensures is { result ≡ contains self number }
        ensures tells_its_numbers { IsTrue result ↔ Inside number self }
    {
        self.lower <= number && number <= self.upper
    }

    // Where the first number of a list lies that is outside the range.
    pub fn first_outside(self, numbers: &[i64]) -> Option<usize>
        ensures is_the_first_position { result ≡ position (λ number. not (contains self number)) numbers.now }
    {
        numbers.iter().position(|number| !self.contains(*number))
    }

    // Whether no end lies beyond those of another range.
    pub fn is_within(self, other: Range) -> bool
        ensures is { result ≡ within self other }
        ensures tells_inclusion { IsTrue result ↔ (self ⊆ other) }
    {
        other.lower <= self.lower && self.upper <= other.upper
    }

    // Whether two ranges have a number in common.
    pub fn meets(self, other: Range) -> bool
        ensures touching_included { result ≡ meets self other }
    {
        self.lower <= other.upper && other.lower <= self.upper
    }

    // The ends added, where they fit 64 bits.
    pub fn checked_add(self, other: Range) -> Option<Range>
        ensures is_the_sum_where_it_fits { SomeIff result (Fits64 (plus self other)) (plus self other) }
        ensures extends_the_sum { IntervalExtension ◌+ℤ◌ plus }
    {
        let lower = self.lower.checked_add(other.lower)?;
        let upper = self.upper.checked_add(other.upper)?;
        Some(Range { lower, upper })
    }

    // Each end minus the other range's opposite end, where they fit 64 bits.
    pub fn checked_sub(self, other: Range) -> Option<Range>
        ensures is_the_difference_where_it_fits { SomeIff result (Fits64 (minus self other)) (minus self other) }
        ensures extends_the_difference { IntervalExtension ◌-ℤ◌ minus }
    {
        let lower = self.lower.checked_sub(other.upper)?;
        let upper = self.upper.checked_sub(other.lower)?;
        Some(Range { lower, upper })
    }

    // From the smallest to the largest of the four products of ends, where they fit 64 bits.
    pub fn checked_mul(self, other: Range) -> Option<Range>
        ensures is_the_product_where_it_fits { SomeIff result (Fits64 (times self other)) (times self other) }
        ensures extends_the_product { IntervalExtension ◌*ℤ◌ times }
    {
        let p = self.lower.checked_mul(other.lower)?;
        let q = self.lower.checked_mul(other.upper)?;
        let s = self.upper.checked_mul(other.lower)?;
        let t = self.upper.checked_mul(other.upper)?;
        Some(spanned(p, q, s, t))
    }
}

// From the smallest to the largest of four numbers.
fn spanned(p: i64, q: i64, s: i64, t: i64) -> Range
    ensures { result ≡ spanned p q s t }
{
    Range {
        lower: p.min(q).min(s.min(t)),
        upper: p.max(q).max(s.max(t)),
    }
}

// A pair of ends, as a system answers it.
impl From<(i64, i64)> for Range {
    ghost from_gives = { λ ends r. r ≡ range ends.0 ends.1 };

    fn from((lower, upper): (i64, i64)) -> Range {
        Range { lower, upper }
    }
}

impl From<Range> for (i64, i64) {
    ghost from_gives = { λ r ends. ends ≡ (r.lower, r.upper) };

    fn from(range: Range) -> (i64, i64) {
        (range.lower, range.upper)
    }
}

impl fmt::Display for Range {
    ghost output = { λ r. Some (range_text r) };

    fn fmt<W: fmt::Write>(&self, f: &mut fmt::Formatter<W>) -> fmt::Result {
        write!(f, "[{}, {}]", self.lower, self.upper)
    }
}
