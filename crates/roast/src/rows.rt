// The sum of an assembled row, by plain sums and products that the limits keep within 64 bits.
ghost use Rattle.std.specs.Prelude.{◌≡◌, ◌+◌, ◌^◌, ◌≤◌, if◌then◌else◌, length, pos, unsigned_abs};
ghost use Rattle.balance.specs.Ranges.{only, Between, AllBetween, plus, minus, times, total};
ghost use Rattle.roast.specs.Products.{scaled, times_above, times_below, times_across};
ghost use Rattle.roast.specs.Matrices.{part};

use balance::range::Range;

// An end of a node times an end of a coefficient: the first of two where it is not below 0, and else the second.
fn scaled(end: i64, above: i64, below: i64) -> i64
    requires end_is_narrow { unsigned_abs end ≤ 2 ^ 37 }
    requires above_is_narrow { unsigned_abs above ≤ 2 ^ 20 }
    requires below_is_narrow { unsigned_abs below ≤ 2 ^ 20 }
    ensures { result ≡ scaled end above below }
{
    if 0 <= end { above * end } else { below * end }
}

// A coefficient that is not below 0 times the range of a node.
fn times_above(a: Range, x: Range) -> Range
    requires coefficient_is_narrow { Between (2 ^ 20) a }
    requires node_is_narrow { Between (2 ^ 37) x }
    ensures { result ≡ times_above a x }
{
    Range {
        lower: scaled(x.lower, a.lower, a.upper),
        upper: scaled(x.upper, a.upper, a.lower),
    }
}

// A coefficient that is not above 0 times the range of a node.
fn times_below(a: Range, x: Range) -> Range
    requires coefficient_is_narrow { Between (2 ^ 20) a }
    requires node_is_narrow { Between (2 ^ 37) x }
    ensures { result ≡ times_below a x }
{
    Range {
        lower: scaled(x.upper, a.lower, a.upper),
        upper: scaled(x.lower, a.upper, a.lower),
    }
}

// A coefficient that may be 0 times the range of a node.
fn times_across(a: Range, x: Range) -> Range
    requires coefficient_is_narrow { Between (2 ^ 20) a }
    requires node_is_narrow { Between (2 ^ 37) x }
    ensures { result ≡ times_across a x }
{
    let p = a.lower * x.lower;
    let q = a.lower * x.upper;
    let s = a.upper * x.lower;
    let t = a.upper * x.upper;
    Range {
        lower: q.min(s),
        upper: p.max(t),
    }
}

// A coefficient times the range of a node. (Nearly all coefficients have one sign, most are below 0, and then two products are enough: a row spends
// its time here.)
fn product(a: Range, x: Range) -> Range
    requires coefficient_is_narrow { Between (2 ^ 20) a }
    requires node_is_narrow { Between (2 ^ 37) x }
    ensures is { result ≡ times a x }
    ensures narrow { Between (2 ^ 57) result }
{
    if a.upper <= 0 {
        times_below(a, x)
    } else if 0 <= a.lower {
        times_above(a, x)
    } else {
        times_across(a, x)
    }
}

// What the columns before have added up to, and what one more adds.
fn sum(before: Range, more: Range) -> Range
    requires before_is_narrow { Between (2 ^ 62) before }
    requires more_is_narrow { Between (2 ^ 57) more }
    ensures { result ≡ plus before more }
{
    Range {
        lower: before.lower + more.lower,
        upper: before.upper + more.upper,
    }
}

// The right side of a row minus the sum of the rest of it.
pub(crate) fn difference(side: Range, rest: Range) -> Range
    requires side_is_narrow { Between (2 ^ 42) side }
    requires rest_is_narrow { Between (2 ^ 62) rest }
    ensures is { result ≡ minus side rest }
    ensures narrow { Between (2 ^ 62 + 2 ^ 42) result }
{
    Range {
        lower: side.lower - rest.upper,
        upper: side.upper - rest.lower,
    }
}

// What a column adds to the sum of its row, unless it is left out.
fn part(a: Range, x: Range, left_out: bool) -> Range
    requires coefficient_is_narrow { Between (2 ^ 20) a }
    requires node_is_narrow { Between (2 ^ 37) x }
    ensures is { result ≡ if left_out then only (pos 0) else times a x }
    ensures narrow { Between (2 ^ 57) result }
{
    if left_out {
        return Range::ZERO;
    }
    product(a, x)
}

// The sum of a row over the ranges of all nodes, without one column.
pub(crate) fn row_sum(row: &[Range], nodes: &[Range], without: usize) -> Range
    requires few { length row.now ≤ 32 }
    requires as_many { length nodes.now ≡ length row.now }
    requires row_is_narrow { AllBetween (2 ^ 20) row.now }
    requires nodes_are_narrow { AllBetween (2 ^ 37) nodes.now }
    ensures is { result ≡ total (part row.now nodes.now without) (length row.now) }
    ensures narrow { Between (2 ^ 62) result }
{
    let mut total = Range::ZERO;
    for j in 0..row.len() {
        total = sum(total, part(row[j], nodes[j], j + 1 == without));
    }
    total
}
