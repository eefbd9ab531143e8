ghost use Rattle.std.specs.Prelude.{◌≡◌};
ghost use Rattle.balance.specs.declared.range.Range.{Range};
ghost use Rattle.balance.specs.Ranges.{Ordered, only};
ghost use Rattle.balance.specs.Cells.{range_ends, allowed, centred_making, centred_ends};
ghost use Rattle.std.proofs.Common.{rules};

use super::range::Range;
use super::refusal::Refusal;
use super::system::RIGHT_SIDES;

// One cell of a table: it tells two ends, in order and the same at every question.
pub trait Cell {
    ghost ends: { Self → Range };

    fn tell(&self) -> Range
        ensures tells_its_ends { result ≡ ends self.now };

    ghost ordered: { (c : Self) → Ordered (ends c) };
}

// A number is a cell whose two ends are the number.
impl Cell for i64 {
    ghost ends = { only };

    ghost ordered = { Prim.search rules };

    fn tell(&self) -> Range {
        Range {
            lower: *self,
            upper: *self,
        }
    }
}

// Crossed ends, which `Range::new` refuses, are told as [0, 0].
impl Cell for Range {
    ghost ends = { range_ends };

    ghost ordered = { Prim.search rules };

    fn tell(&self) -> Range {
        if self.is_in_order() {
            *self
        } else {
            Range::ZERO
        }
    }
}

// A centre with a tolerance to either side. A plain record, as `Range` is.
#[derive(Clone, Copy, PartialEq, Eq, Debug)]
pub struct Centred {
    pub centre: i64,
    pub tolerance: i64,
}

// A tolerance lies in 0 to 2^42.
const TOLERANCES: Range = Range {
    lower: 0,
    upper: 4_398_046_511_104,
};

impl Centred {
    pub fn new(centre: i64, tolerance: i64) -> Result<Centred, Refusal>
        ensures made_exactly_within_limits { result ≡ centred_making centre tolerance }
    {
        let cell = Centred { centre, tolerance };
        if cell.is_allowed() {
            Ok(cell)
        } else {
            Err(Refusal::Limit {
                part: 0,
                row: 0,
                column: 0,
            })
        }
    }

    // A centre has the limits of a right side.
    fn is_allowed(&self) -> bool
        ensures { result ≡ allowed self.now.centre self.now.tolerance }
    {
        RIGHT_SIDES.contains(self.centre) && TOLERANCES.contains(self.tolerance)
    }
}

// Numbers that `Centred::new` refuses are told as [0, 0].
impl Cell for Centred {
    ghost ends = { centred_ends };

    ghost ordered = { Prim.search rules };

    fn tell(&self) -> Range {
        if self.is_allowed() {
            Range {
                lower: self.centre - self.tolerance,
                upper: self.centre + self.tolerance,
            }
        } else {
            Range::ZERO
        }
    }
}
