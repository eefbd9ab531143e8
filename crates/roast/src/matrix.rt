ghost use Rattle.std.specs.Prelude.{◌≡◌, ◌^◌, ◌≤◌, length, Ok, OnOk};
ghost use Rattle.balance.specs.Ranges.{Between, AllBetween};
ghost use Rattle.balance.specs.Meanings.{Among};
ghost use Rattle.balance.specs.Places.{first_refusal, unless_refused};
ghost use Rattle.roast.specs.Narrowing.{at};
ghost use Rattle.roast.specs.Matrices.{entry, row_of, Assembled};

use balance::range::Range;
use balance::refusal::Refusal;
use balance::system::System;

// The assembled matrix of a system of at most 32 nodes, with its right sides: each place is asked once. Row i begins at cell 32 × (i - 1), so that a
// place is found by one fixed stride, whatever the size.
pub struct Matrix {
    size: usize,
    coefficients: [Range; 1024],
    sides: [Range; 32],
    ghost few: { size ≤ 32 },
    ghost cells: { length coefficients ≡ 1024 },
    ghost rows: { length sides ≡ 32 },
    ghost narrow: { AllBetween (2 ^ 20) coefficients },
    ghost narrow_sides: { AllBetween (2 ^ 42) sides },
}

impl Drop for Matrix {
    fn drop(self) {
        let Matrix {
            size: _,
            coefficients: _,
            sides: _,
        } = self;
    }
}

// Asks for every place, row by row, the columns before the right side, and writes down what is told. The first refusal met ends the search.
fn assemble<S: System>(
    system: &S,
    coefficients: &mut [Range],
    sides: &mut [Range],
) -> Result<(), Refusal>
    requires cells { length coefficients.old ≡ 1024 }
    requires rows { length sides.old ≡ 32 }
    requires narrow { AllBetween (2 ^ 20) coefficients.old }
    requires narrow_sides { AllBetween (2 ^ 42) sides.old }
    ensures answers { result ≡ unless_refused (first_refusal (S.meaning system.now)) (Ok tt) }
    ensures assembles { let m = S.meaning system.now in OnOk result (Assembled m m.size coefficients.new sides.new) }
    ensures narrow_then { AllBetween (2 ^ 20) coefficients.new }
    ensures narrow_sides_then { AllBetween (2 ^ 42) sides.new }
{
    let size = system.size();
    'search: {
        for row in 1..size + 1 {
            for column in 1..size + 1 {
                match system.coefficient(row, column) {
                    Ok(ends) => coefficients[(row - 1) * 32 + (column - 1)] = ends.into(),
                    Err(refusal) => break 'search Err(refusal),
                }
            }
            match system.right_side(row) {
                Ok(ends) => sides[row - 1] = ends.into(),
                Err(refusal) => break 'search Err(refusal),
            }
        }
        Ok(())
    }
}

impl Matrix {
    // The matrix of no system.
    pub(crate) fn new() -> Matrix
        ensures { result.size ≡ 0 }
    {
        Matrix {
            size: 0,
            coefficients: [Range::ZERO; 1024],
            sides: [Range::ZERO; 32],
        }
    }

    // Takes the place of what was assembled before.
    pub(crate) fn assemble<S: System>(&mut self, system: &S) -> Result<(), Refusal>
        ensures answers { result ≡ unless_refused (first_refusal (S.meaning system.now)) (Ok tt) }
        ensures assembles { let a = self.new in OnOk result (Assembled (S.meaning system.now) a.size a.coefficients a.sides) }
    {
        self.size = system.size();
        assemble(system, &mut self.coefficients, &mut self.sides)
    }

    pub(crate) fn size(&self) -> usize
        ensures { result ≡ self.now.size }
    {
        self.size
    }

    pub(crate) fn coefficient(&self, row: usize, column: usize) -> Range
        requires row_is_a_node { Among self.now.size row }
        requires column_is_a_node { Among self.now.size column }
        ensures is { result ≡ entry self.now.coefficients row column }
        ensures narrow { Between (2 ^ 20) result }
    {
        self.coefficients[(row - 1) * 32 + (column - 1)]
    }

    // The coefficients of a row.
    pub(crate) fn row(&self, row: usize) -> &[Range]
        requires { Among self.now.size row }
        ensures is { result.now ≡ row_of self.now.size self.now.coefficients row }
        ensures long { length result.now ≡ self.now.size }
        ensures narrow { AllBetween (2 ^ 20) result.now }
    {
        let start = (row - 1) * 32;
        &self.coefficients[start..start + self.size]
    }

    pub(crate) fn side(&self, row: usize) -> Range
        requires { Among self.now.size row }
        ensures is { result ≡ at self.now.sides row }
        ensures narrow { Between (2 ^ 42) result }
    {
        self.sides[row - 1]
    }
}
