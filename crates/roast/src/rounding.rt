// Quotients of ranges with the ends rounded outward, and the common part of two ranges.
ghost use Rattle.std.specs.Prelude.{◌≡◌, ◌≢◌, ◌+◌, ◌^◌, ◌≤◌, false, pos, unsigned_abs};
ghost use Rattle.balance.specs.Ranges.{Between};
ghost use Rattle.roast.specs.Rounding.{holds_zero, floor, ceiling, lowering_end, raising_end, quotient, RoundedOutward, shared, CommonPart};

use balance::range::Range;

// Rounded down. Euclid's quotient rounds down by a divisor above 0, and up by one below 0.
fn floor(m: i64, d: i64) -> i64
    requires narrow { unsigned_abs m ≤ 2 ^ 62 + 2 ^ 42 }
    requires divisor_is_not_zero { d ≢ pos 0 }
    ensures { result ≡ floor m d }
{
    if 0 < d {
        m.div_euclid(d)
    } else {
        -(-m).div_euclid(d)
    }
}

// Rounded up.
fn ceiling(m: i64, d: i64) -> i64
    requires narrow { unsigned_abs m ≤ 2 ^ 62 + 2 ^ 42 }
    requires divisor_is_not_zero { d ≢ pos 0 }
    ensures { result ≡ ceiling m d }
{
    -floor(-m, d)
}

// The end of `d` by which `m / d` is lowest.
fn lowering_end(m: i64, d: Range) -> i64
    ensures { result ≡ lowering_end m d }
{
    if 0 <= m { d.upper } else { d.lower }
}

// The end of `d` by which `m / d` is highest.
fn raising_end(m: i64, d: Range) -> i64
    ensures { result ≡ raising_end m d }
{
    if 0 <= m { d.lower } else { d.upper }
}

// Every quotient of a number of `m` by a number of `d`, which does not hold 0.
pub(crate) fn quotient(m: Range, d: Range) -> Range
    requires narrow { Between (2 ^ 62 + 2 ^ 42) m }
    requires divisor_is_narrow { Between (2 ^ 20) d }
    requires divisor_without_zero { holds_zero d ≡ false }
    ensures is { result ≡ quotient m d }
    ensures rounds_outward { RoundedOutward m d result }
{
    if 0 < d.lower {
        Range {
            lower: floor(m.lower, lowering_end(m.lower, d)),
            upper: ceiling(m.upper, raising_end(m.upper, d)),
        }
    } else {
        Range {
            lower: floor(m.upper, lowering_end(m.upper, d)),
            upper: ceiling(m.lower, raising_end(m.lower, d)),
        }
    }
}

// The numbers that two ranges have in common.
pub(crate) fn shared(a: Range, b: Range) -> Option<Range>
    ensures is { result ≡ shared a b }
    ensures is_the_common_part { CommonPart a b result }
{
    let common = Range {
        lower: a.lower.max(b.lower),
        upper: a.upper.min(b.upper),
    };
    common.is_in_order().then_some(common)
}
