// A system of one's own: a chain of nodes in a row, such as a shaft that is heated at one end and cooled at the other.
#![tactic(auto)]

ghost use Rattle.std.specs.Prelude.{◌≡◌, Some, None, Ok, Err, IfOk};
ghost use Rattle.balance.specs.Meanings.{Among, answer, placed};
ghost use Rattle.balance.specs.Places.{unless_refused};
ghost use Rattle.chain.specs.Chains.{if_there, diagonal, coefficient, chain, ends_refusal, chain_refusal};
ghost use Rattle.chain.specs.ChainsLemmas.{chain_lawful};

use balance::range::Range;
use balance::refusal::Refusal;
use balance::system::{
    COEFFICIENTS, RIGHT_SIDES, System, check_node, check_place, is_size, limited,
};

// Conductances lie in 0 to 2^20.
const CONDUCTANCES: Range = Range {
    lower: 0,
    upper: 1_048_576,
};

// A range where it is there, and else nothing.
fn if_there(there: bool, range: Range) -> Range
    ensures { result ≡ if_there there range }
{
    if there { range } else { Range::ZERO }
}

// Refuses crossed ends, and then an end beyond the limits, by the number of the range.
fn check_ends(number: usize, ends: Range, limits: Range) -> Result<(), Refusal>
    ensures { result ≡ unless_refused (ends_refusal number limits ends) (Ok tt) }
{
    if !ends.is_in_order() {
        return Err(Refusal::Crossed { place: number });
    }
    if !ends.is_within(limits) {
        return Err(Refusal::Limit {
            part: Chain::PART,
            row: number,
            column: 0,
        });
    }
    Ok(())
}

// 1 to 32 nodes in a row. Each is linked to the next by one same conductance; the first is linked to the outside, and the last is heated.
// Its temperatures are counted from the outside's.
#[derive(Clone, Copy, Debug)]
pub struct Chain {
    size: usize,
    link: Range,
    outside: Range,
    heat: Range,
    ghost taken: { chain_refusal size link outside heat ≡ None },
}

impl Chain {
    // A wrong size is refused, and then the first of the three ranges that is not allowed, by its number.
    pub fn new(size: usize, link: Range, outside: Range, heat: Range) -> Result<Chain, Refusal>
        ensures made_exactly_when_every_range_is_taken { elim result [ Ok c ↦ chain_refusal size link outside heat ≡ None | Err e ↦ chain_refusal size link outside heat ≡ Some e ] }
        ensures holds_what_it_was_given { IfOk result (λ c. (c.size ≡ size) × (c.link ≡ link) × (c.outside ≡ outside) × (c.heat ≡ heat)) }
    {
        if !is_size(size) {
            return Err(Refusal::Size { place: 0 });
        }
        check_ends(1, link, CONDUCTANCES)?;
        check_ends(2, outside, CONDUCTANCES)?;
        check_ends(3, heat, RIGHT_SIDES)?;
        Ok(Chain {
            size,
            link,
            outside,
            heat,
        })
    }

    // What flows from a node: to the node before it, to the node behind it, and to the outside.
    fn diagonal(&self, node: usize) -> Option<Range>
        ensures { result ≡ Some (diagonal self.now.size self.now.link self.now.outside node) }
    {
        let before = if_there(node > 1, self.link);
        let behind = if_there(node < self.size, self.link);
        let links = before.checked_add(behind)?;
        links.checked_add(if_there(node == 1, self.outside))
    }

    fn coefficient_at(&self, row: usize, column: usize) -> Option<Range>
        requires row_is_a_node { Among self.now.size row }
        requires column_is_a_node { Among self.now.size column }
        ensures { result ≡ Some (coefficient self.now.size self.now.link self.now.outside row column) }
    {
        if row == column {
            return self.diagonal(row);
        }
        let negated = Range::ZERO.checked_sub(self.link)?;
        Some(if_there(row.abs_diff(column) == 1, negated))
    }
}

impl System for Chain {
    const PART: usize = 100;

    ghost meaning = { λ c. chain c.size c.link c.outside c.heat };

    ghost lawful = { λ c. chain_lawful c.size c.link c.outside c.heat c.taken };

    fn size(&self) -> usize {
        self.size
    }

    fn coefficient(&self, row: usize, column: usize) -> Result<(i64, i64), Refusal> {
        check_place(self.size, row, column)?;
        let range = self.coefficient_at(row, column).unwrap_or_default();
        limited(range, COEFFICIENTS, Chain::PART, row, column)
    }

    fn right_side(&self, row: usize) -> Result<(i64, i64), Refusal> {
        check_node(self.size, row)?;
        let range = if_there(row == self.size, self.heat);
        limited(range, RIGHT_SIDES, Chain::PART, row, self.size + 1)
    }
}
