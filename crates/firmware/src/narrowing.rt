// Calls that narrow the box that the caller holds. Each writes the box that it leaves, and nothing if it is refused.
ghost use Rattle.std.specs.Prelude.{◌≡◌};
ghost use Rattle.firmware.specs.Drums.{opening_call, row_step_call, round_call, settling_call, reading_call};

use super::held::{held, opened, read, write_box};
use super::settling;
use balance::range::Range;
use balance::refusal::Refusal;
use balance::table::Cells;
use roast::roast::Roast;

// Fills the ranges with the first box.
pub(crate) fn open(
    size: usize,
    cells: &[Range],
    certificate: &[i64],
    ranges: &mut [Range],
) -> Result<(), Refusal>
    ensures { (result, ranges.new) ≡ opening_call size cells.now certificate.now ranges.old }
{
    let system = Cells::new(size, cells)?;
    let mut roast = Roast::new(system);
    let answer = opened(&mut roast, size, certificate, ranges);
    write_box(answer, &roast, ranges)
}

// Narrows a node's range by its row, and says whether that changed it.
pub(crate) fn row_step(
    size: usize,
    cells: &[Range],
    certificate: &[i64],
    ranges: &mut [Range],
    node: usize,
) -> Result<bool, Refusal>
    ensures { (result, ranges.new) ≡ row_step_call size cells.now certificate.now ranges.old node }
{
    let system = Cells::new(size, cells)?;
    let mut roast = Roast::new(system);
    held(&mut roast, size, certificate, ranges)?;
    let answer = roast.row_step(node);
    write_box(answer, &roast, ranges)
}

// Row steps 1 to n, and how many of them changed a range; all or none.
pub(crate) fn round(
    size: usize,
    cells: &[Range],
    certificate: &[i64],
    ranges: &mut [Range],
) -> Result<usize, Refusal>
    ensures { (result, ranges.new) ≡ round_call size cells.now certificate.now ranges.old }
{
    let system = Cells::new(size, cells)?;
    let mut roast = Roast::new(system);
    held(&mut roast, size, certificate, ranges)?;
    let answer = roast.round();
    write_box(answer, &roast, ranges)
}

// Rounds until one changes nothing, 64 at most, and whether the box is at rest then.
pub(crate) fn settle(
    size: usize,
    cells: &[Range],
    certificate: &[i64],
    ranges: &mut [Range],
) -> Result<bool, Refusal>
    ensures { (result, ranges.new) ≡ settling_call size cells.now certificate.now ranges.old }
{
    let system = Cells::new(size, cells)?;
    let mut roast = Roast::new(system);
    held(&mut roast, size, certificate, ranges)?;
    let answer = settling::settle(&mut roast);
    write_box(answer, &roast, ranges)
}

// Narrows a node's range by a reading, and says whether that changed it.
pub(crate) fn reading(
    size: usize,
    cells: &[Range],
    certificate: &[i64],
    ranges: &mut [Range],
    node: usize,
    reading: Range,
) -> Result<bool, Refusal>
    ensures { let us = certificate.now in
        let call = reading_call size cells.now us ranges.old node reading.lower reading.upper in
        (result, ranges.new) ≡ call }
{
    let system = Cells::new(size, cells)?;
    let mut roast = Roast::new(system);
    held(&mut roast, size, certificate, ranges)?;
    let answer = read(&mut roast, node, reading);
    write_box(answer, &roast, ranges)
}
