ghost use Rattle.std.specs.Prelude.{◌≡◌, ℕ, [], length, ◌^◌, ◌≤◌, OnOk, OnErr, IfOk};
ghost use Rattle.balance.specs.Ranges.{range, Between, AllBetween};
ghost use Rattle.balance.specs.Meanings.{Among};
ghost use Rattle.roast.specs.Rounding.{CommonPart, shared};
ghost use Rattle.roast.specs.Certificates.{opening, Opens, first_box, k, LeastBound, MeasuresRanges};
ghost use Rattle.roast.specs.Narrowing.{at, HasNode, narrowed};
ghost use Rattle.roast.specs.Machine.{replacement, row_step, round, reading, readings, at_rest, ends};
ghost use Rattle.roast.specs.Runs.{CanBeSolved, KeepsCommonPart};
ghost use Rattle.roast.specs.Assembled.{Held};

use super::bounds::Bounds;
use super::call::Reading;
use super::certificate::first_bounds;
use super::matrix::Matrix;
use balance::range::Range;
use balance::refusal::Refusal;
use balance::system::{System, check_node};

/// Any one system with the box of temperatures that are still possible for its nodes.
///
/// An opening assembles the system: it is asked once for each place, and what it tells is kept. Temperatures are in millidegrees Celsius.
/// Every roast has at most 32 nodes (`few`), each range in order and within ±2^30 (`narrow`): a caller may build on both.
#[derive(Drop)]
pub struct Roast<S: System> {
    pub(crate) system: S,
    matrix: Matrix,
    pub(crate) bounds: Bounds,
    ghost held: { (i : ℕ) → Among (length bounds) i → Held (S.meaning system) matrix (length bounds) },
    pub ghost few: { length bounds ≤ 32 },
    pub ghost narrow: { AllBetween (2 ^ 30) bounds },
}

impl<S: System> Roast<S> {
    /// A roast that was never opened has no nodes, and is at rest.
    pub fn new(system: S) -> Roast<S>
        ensures holds_the_system { result.system ≡ system }
        ensures has_no_nodes { result.bounds ≡ [] }
    {
        Roast {
            system,
            matrix: Matrix::new(),
            bounds: Bounds::default(),
        }
    }

    /// Fills the roast with the first box of a certificate. It may be opened again; a refused opening leaves the box as it was.
    ///
    /// Refused are, in this order: the first place that answers by a refusal, row by row and the columns before the right side; a certificate of
    /// another length (9 at 0), or the first of its numbers that is not in 1 to 2^20 (9); the first row that its diagonal does not dominate (10);
    /// the first node whose range would go beyond ±2^30 (11).
    pub fn open(&mut self, certificate: &[i64]) -> Result<(), Refusal>
        ensures answers_and_leaves { (result, self.new.bounds)
            ≡ replacement self.old.bounds (opening (S.meaning self.old.system) certificate.now) }
        ensures opens_when_certified { OnOk result (Opens (S.meaning self.old.system) certificate.now) }
        ensures opens_the_first_box { OnOk result (self.new.bounds ≡ first_box (S.meaning self.old.system) certificate.now) }
        ensures is_refused_only_uncertified { OnErr result (¬ Opens (S.meaning self.old.system) certificate.now) }
        ensures each_end_is_the_least_bound { let m = S.meaning self.old.system in let us = certificate.now in
            OnOk result ((i : ℕ) → LeastBound m us i (k m us i)) }
        ensures measures_ranges { MeasuresRanges }
        ensures can_be_solved { OnOk result (CanBeSolved (S.meaning self.old.system)) }
        ensures keeps_the_system { self.new.system ≡ self.old.system }
    {
        self.bounds = first_bounds(&self.system, &mut self.matrix, certificate)?;
        Ok(())
    }

    /// Narrows a node's range by its row, and says whether that changed it.
    ///
    /// Refused are a node outside 1 to n (4), and a step that leaves the node nothing (12); both leave the box as it was.
    pub fn row_step(&mut self, node: usize) -> Result<bool, Refusal>
        ensures answers_and_leaves { let f = narrowed (S.meaning self.old.system) in
            (result, self.new.bounds) ≡ row_step f self.old.bounds node }
        ensures keeps_the_common_part { let m = S.meaning self.old.system in let box = self.old.bounds in
            HasNode box node → KeepsCommonPart m box node (narrowed m box node) }
        ensures keeps_the_system { self.new.system ≡ self.old.system }
    {
        check_node(self.bounds.count(), node)?;
        self.bounds.row_step(&self.matrix, node)
    }

    /// Row steps 1 to n, and how many of them changed a range; all or none.
    ///
    /// Refused is the first row step that leaves its node nothing (12).
    pub fn round(&mut self) -> Result<usize, Refusal>
        ensures answers_and_leaves { let f = narrowed (S.meaning self.old.system) in
            (result, self.new.bounds) ≡ round f self.old.bounds }
        ensures keeps_the_system { self.new.system ≡ self.old.system }
    {
        self.bounds.round(&self.matrix)
    }

    /// Takes a reading of a node, and says whether it changed the node's range.
    ///
    /// Refused are a node outside 1 to n (4), a lower end above the upper end (6 at the node), and a reading that shares nothing with the node's
    /// range (12); each leaves the box as it was.
    pub fn reading(&mut self, node: usize, lower: i64, upper: i64) -> Result<bool, Refusal>
        ensures answers_and_leaves { (result, self.new.bounds) ≡ reading self.old.bounds node lower upper }
        ensures keeps_the_common_part { let old = at self.old.bounds node in let read = range lower upper in
            CommonPart old read (shared old read) }
        ensures keeps_the_system { self.new.system ≡ self.old.system }
    {
        self.bounds.reading(node, Range { lower, upper })
    }

    /// Takes the records in order as readings, and writes 0 or the number of its refusal into each.
    pub fn readings(&mut self, list: &mut [Reading])
        ensures marks_and_leaves { (list.new, self.new.bounds) ≡ readings self.old.bounds list.old }
        ensures keeps_the_system { self.new.system ≡ self.old.system }
    {
        self.bounds.readings(list)
    }

    /// Whether no row step is refused and none would change a range.
    pub fn at_rest(&self) -> bool
        ensures answers { result ≡ at_rest (narrowed (S.meaning self.now.system)) self.now.bounds }
    {
        (1..=self.bounds.count()).all(|node| self.bounds.rests(&self.matrix, node))
    }

    /// A node's two ends, in order and within ±2^30. Refused is a node outside 1 to n (4).
    pub fn ends(&self, node: usize) -> Result<(i64, i64), Refusal>
        ensures answers { result ≡ ends self.now.bounds node }
        ensures keeps_the_limits { IfOk result (λ ends. Between (2 ^ 30) (range ends.0 ends.1)) }
    {
        self.bounds.ends(node)
    }

    /// The ranges of all nodes, node 1 first.
    pub fn ranges(&self) -> &[Range]
        ensures are_the_box { result.now ≡ self.now.bounds }
        ensures keeps_the_limits { AllBetween (2 ^ 30) result.now }
    {
        self.bounds.all()
    }
}
