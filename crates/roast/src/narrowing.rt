// Row steps, rounds and readings on the bounds of a roast, each equal to the reference machine's.
ghost use Rattle.std.specs.Prelude.{◌≡◌, ◌^◌, false, length, IfSome};
ghost use Rattle.balance.specs.Ranges.{Between};
ghost use Rattle.roast.specs.Narrowing.{HasNode, narrowed};
ghost use Rattle.roast.specs.Machine.{step_to, row_step, row_steps, round, reading, readings, mark, changes_nothing, ends};
ghost use Rattle.roast.specs.Assembled.{meant, Fits, FitsBox};

use super::bounds::Bounds;
use super::call::Reading;
use super::matrix::Matrix;
use super::rounding;
use super::rows::{difference, row_sum};
use balance::range::Range;
use balance::refusal::Refusal;
use balance::system::check_node;

impl Bounds {
    // What a row leaves of its node's range.
    fn narrowed(&self, matrix: &Matrix, node: usize) -> Option<Range>
        requires has_the_node { HasNode self.now node }
        requires fits { Fits matrix.now (length self.now) }
        ensures is { result ≡ narrowed (meant matrix.now) self.now node }
        ensures narrow { IfSome result (Between (2 ^ 30)) }
    {
        let sum = row_sum(matrix.row(node), self.all(), node);
        let numerator = difference(matrix.side(node), sum);
        let diagonal = matrix.coefficient(node, node);
        rounding::shared(self.at(node), rounding::quotient(numerator, diagonal))
    }

    // Gives a node the range that it keeps, and says whether that changed it; where it keeps none, the step is a conflict.
    fn step_to(&mut self, node: usize, range: Option<Range>) -> Result<bool, Refusal>
        requires has_the_node { HasNode self.old node }
        requires narrow { IfSome range (Between (2 ^ 30)) }
        ensures { (result, self.new) ≡ step_to self.old node range }
    {
        let range = range.ok_or(Refusal::Conflict { place: node })?;
        let changed = self.at(node) != range;
        self.put(node, range);
        Ok(changed)
    }

    // Narrows a node's range by its row, and says whether that changed it.
    pub(crate) fn row_step(&mut self, matrix: &Matrix, node: usize) -> Result<bool, Refusal>
        requires has_the_node { HasNode self.old node }
        requires fits { Fits matrix.now (length self.old) }
        ensures { (result, self.new) ≡ row_step (narrowed (meant matrix.now)) self.old node }
    {
        let range = self.narrowed(matrix, node);
        self.step_to(node, range)
    }

    // Row steps 1 to n, and how many of them changed a range. A refused one ends them, and those before it stay made.
    fn row_steps(&mut self, matrix: &Matrix) -> Result<usize, Refusal>
        requires { FitsBox matrix.now self.old }
        ensures { (result, self.new) ≡ row_steps (narrowed (meant matrix.now)) self.old (length self.old) }
    {
        let mut changes = 0;
        for node in 1..self.count() + 1 {
            changes += usize::from(self.row_step(matrix, node)?);
        }
        Ok(changes)
    }

    // The same, all or none: a conflict undoes them.
    pub(crate) fn round(&mut self, matrix: &Matrix) -> Result<usize, Refusal>
        requires { FitsBox matrix.now self.old }
        ensures { (result, self.new) ≡ round (narrowed (meant matrix.now)) self.old }
    {
        let before = self.copied();
        let answer = self.row_steps(matrix);
        if answer.is_err() {
            *self = before;
        }
        answer
    }

    // Whether the row step of a node would be accepted and change nothing.
    pub(crate) fn rests(&self, matrix: &Matrix, node: usize) -> bool
        requires has_the_node { HasNode self.now node }
        requires fits { Fits matrix.now (length self.now) }
        ensures { result ≡ changes_nothing (row_step (narrowed (meant matrix.now)) self.now node).0 }
    {
        self.narrowed(matrix, node) == Some(self.at(node))
    }

    // Takes a reading of a node, and says whether it changed the node's range.
    pub(crate) fn reading(&mut self, node: usize, range: Range) -> Result<bool, Refusal>
        ensures { (result, self.new) ≡ reading self.old node range.lower range.upper }
    {
        check_node(self.count(), node)?;
        if !range.is_in_order() {
            return Err(Refusal::Crossed { place: node });
        }
        let shared = rounding::shared(self.at(node), range);
        self.step_to(node, shared)
    }

    // The records in order as readings, each marked in place.
    pub(crate) fn readings(&mut self, list: &mut [Reading])
        ensures { (list.new, self.new) ≡ readings self.old list.old }
    {
        for i in 0..list.len() {
            let record = list[i];
            list[i].answer = mark(self.reading(record.node, record.into()));
        }
    }

    // A node's two ends.
    pub(crate) fn ends(&self, node: usize) -> Result<(i64, i64), Refusal>
        ensures { result ≡ ends self.now node }
    {
        check_node(self.count(), node)?;
        Ok(self.at(node).into())
    }
}

// 0, or the number of the refusal: a byte, as the record holds it and users see it.
fn mark(answer: Result<bool, Refusal>) -> u8
    ensures { result ≡ mark answer }
{
    answer.map_or_else(|refusal| refusal.number(), |_| 0)
}
