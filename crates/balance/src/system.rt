ghost use Rattle.std.specs.Prelude.{◌≡◌, ℕ, ◌&&◌, true, OnOk, nat_le};
ghost use Rattle.balance.specs.Meanings.{Meaning, Among, Lawful, coefficient_answer, right_side_answer, is_node, node_check, place_check, answer, placed};

use super::range::Range;
use super::refusal::Refusal;

/// An interval linear system of 1 to 32 nodes. It is asked for its size and for the two ends at each place; a question changes nothing.
///
/// Rows and columns are counted from 1. Ends come as a pair, of which `Range::from` makes a range.
pub trait System {
    // The part that the system names in a refusal 8 of its own: the library's are below 100, and a system of one's own takes 100 or more.
    const PART: usize;

    ghost meaning: { Self → Meaning };

    fn size(&self) -> usize
        ensures is_the_size { result ≡ (meaning self.now).size };

    fn coefficient(&self, row: usize, column: usize) -> Result<(i64, i64), Refusal>
        ensures answers_by_the_meaning { result ≡ coefficient_answer (meaning self.now) row column };

    fn right_side(&self, row: usize) -> Result<(i64, i64), Refusal>
        ensures answers_by_the_meaning { result ≡ right_side_answer (meaning self.now) row };

    ghost lawful: { (s : Self) → Lawful (meaning s) };
}

// No end of a coefficient lies beyond ±2^20.
pub const COEFFICIENTS: Range = Range {
    lower: -1_048_576,
    upper: 1_048_576,
};

// No end of a right side lies beyond ±2^42.
pub const RIGHT_SIDES: Range = Range {
    lower: -4_398_046_511_104,
    upper: 4_398_046_511_104,
};

// Whether a system may have so many nodes: 1 to 32.
pub fn is_size(count: usize) -> bool
    ensures is { result ≡ (nat_le 1 count && nat_le count 32) }
{
    (1..=32).contains(&count)
}

// Whether a number is one of the nodes 1 to n.
pub fn is_node(size: usize, node: usize) -> bool
    ensures is { result ≡ is_node size node }
    ensures within { result ≡ true → Among size node }
{
    (1..=size).contains(&node)
}

// Refuses a number that is none of the nodes 1 to n.
pub fn check_node(size: usize, node: usize) -> Result<(), Refusal>
    ensures refuses_by_the_number { result ≡ node_check size node }
    ensures passes_nodes { OnOk result (Among size node) }
{
    if is_node(size, node) {
        Ok(())
    } else {
        Err(Refusal::Node { place: node })
    }
}

// Refuses a row that is no node, and then a column that is none.
pub fn check_place(size: usize, row: usize, column: usize) -> Result<(), Refusal>
    ensures refuses_the_row_first { result ≡ place_check size row column }
    ensures passes_rows { OnOk result (Among size row) }
    ensures passes_columns { OnOk result (Among size column) }
{
    check_node(size, row)?;
    check_node(size, column)
}

// A range as an answer, or the refusal of its place where it goes beyond the limits.
pub fn limited(
    range: Range,
    limits: Range,
    part: usize,
    row: usize,
    column: usize,
) -> Result<(i64, i64), Refusal>
    ensures answers_within_the_limits { result ≡ answer (placed limits part row column range) }
{
    if range.is_within(limits) {
        Ok(range.into())
    } else {
        Err(Refusal::Limit { part, row, column })
    }
}
