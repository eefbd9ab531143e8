ghost use Rattle.std.specs.Prelude.{◌≡◌, ◌+◌, ◌↔◌, map, length, IsTrue, IsOk, IfOk, IfErr, vec_len};
ghost use Rattle.balance.specs.declared.refusal.Refusal.TheVariants.{Size};
ghost use Rattle.balance.specs.Meanings.{Among, answer, placed};
ghost use Rattle.balance.specs.Tables.{Counted, cell, table};
ghost use Rattle.balance.specs.TablesLemmas.{table_lawful};

use super::cell::Cell;
use super::range::Range;
use super::refusal::{Refusal, Returned};
use super::system::{COEFFICIENTS, RIGHT_SIDES, System, check_node, check_place, is_size, limited};

// The table's part number. In a generic `impl` the checker does not see the value of `Self::PART`, so the constant has a name of its own.
const TABLE_PART: usize = 1;

// n × (n + 1) lent cells of one kind, row after row, the right side last in each row.
#[derive(Drop)]
pub struct Cells<'a, C: Cell> {
    size: usize,
    cells: &'a [C],
    ghost counted: { Counted size (length cells.now) },
}

// Whether so many cells are those of a size.
fn is_counted(size: usize, count: usize) -> bool
    ensures { IsTrue result ↔ Counted size count }
{
    is_size(size) && count == size * (size + 1)
}

impl<'a, C: Cell> Cells<'a, C> {
    // Another size than 1 to 32, or another number of cells, is refused.
    pub fn new(size: usize, cells: &'a [C]) -> Result<Cells<'a, C>, Refusal>
        ensures made_exactly_when_counted { IsOk result ↔ Counted size (length cells.now) }
        ensures holds_the_size { IfOk result (λ t. t.size ≡ size) }
        ensures holds_the_cells { IfOk result (λ t. t.cells.now ≡ cells.now) }
        ensures refuses_size_or_count { IfErr result (λ e. e ≡ Size 0) }
    {
        if is_counted(size, cells.len()) {
            Ok(Cells { size, cells })
        } else {
            Err(Refusal::Size { place: 0 })
        }
    }

    // What the cell at a row and column tells; column n + 1 is the right side.
    fn told(&self, row: usize, column: usize) -> Range
        requires row_is_a_node { Among self.now.size row }
        requires column_has_a_cell { Among (self.now.size + 1) column }
        ensures { result ≡ cell self.now.size (map C.Cell.ends self.now.cells.now) row column }
    {
        let cells = self.cells;
        cells[(row - 1) * (self.size + 1) + (column - 1)].tell()
    }

    // That as an answer, or the refusal of the place.
    fn answer(&self, limits: Range, row: usize, column: usize) -> Result<(i64, i64), Refusal>
        requires row_is_a_node { Among self.now.size row }
        requires column_has_a_cell { Among (self.now.size + 1) column }
        ensures { result ≡ answer (placed limits 1 row column (cell self.now.size (map C.Cell.ends self.now.cells.now) row column)) }
    {
        limited(self.told(row, column), limits, TABLE_PART, row, column)
    }
}

// (The two questions are written as those of a network are: a method of the interface would put `answer` into it.)
impl<'a, C: Cell> System for Cells<'a, C> {
    const PART: usize = TABLE_PART;

    ghost meaning = { λ t. table t.size (map C.Cell.ends t.cells.now) };

    ghost lawful = { λ s. table_lawful C.Cell.ends C.Cell.ordered s.size s.cells.now (length s.cells.now) s.counted };

    fn size(&self) -> usize {
        self.size
    }

    fn coefficient(&self, row: usize, column: usize) -> Result<(i64, i64), Refusal> {
        check_place(self.size, row, column)?;
        self.answer(COEFFICIENTS, row, column)
    }

    fn right_side(&self, row: usize) -> Result<(i64, i64), Refusal> {
        check_node(self.size, row)?;
        self.answer(RIGHT_SIDES, row, self.size + 1)
    }
}

// The same with cells of its own.
#[derive(Drop)]
pub struct Table<C: Cell> {
    size: usize,
    cells: Vec<C>,
    ghost counted: { Counted size (vec_len cells) },
}

impl<C: Cell> Table<C> {
    // Another size than 1 to 32, or another number of cells, is refused, and the cells come back.
    pub fn new(size: usize, cells: Vec<C>) -> Result<Table<C>, Returned<Vec<C>>>
        ensures made_exactly_when_counted { IsOk result ↔ Counted size (vec_len cells) }
        ensures holds_the_size { IfOk result (λ t. t.size ≡ size) }
        ensures holds_the_cells { IfOk result (λ t. t.cells ≡ cells) }
        ensures refuses_size_or_count { IfErr result (λ e. e.refusal ≡ Size 0) }
        ensures hands_the_cells_back { IfErr result (λ e. e.value ≡ cells) }
    {
        if !is_counted(size, cells.len()) {
            return Err(Returned {
                refusal: Refusal::Size { place: 0 },
                value: cells,
            });
        }
        Ok(Table { size, cells })
    }

    // Its cells, lent.
    fn lent(&self) -> Cells<'_, C>
        ensures of_the_size { result.size ≡ self.now.size }
        ensures of_the_cells { result.cells.now ≡ self.now.cells.items }
    {
        Cells {
            size: self.size,
            cells: self.cells.as_slice(),
        }
    }
}

impl<C: Cell> System for Table<C> {
    const PART: usize = TABLE_PART;

    ghost meaning = { λ t. table t.size (map C.Cell.ends t.cells.items) };

    ghost lawful = { λ s. table_lawful C.Cell.ends C.Cell.ordered s.size s.cells.items (vec_len s.cells) s.counted };

    fn size(&self) -> usize {
        self.lent().size()
    }

    fn coefficient(&self, row: usize, column: usize) -> Result<(i64, i64), Refusal> {
        self.lent().coefficient(row, column)
    }

    fn right_side(&self, row: usize) -> Result<(i64, i64), Refusal> {
        self.lent().right_side(row)
    }
}
