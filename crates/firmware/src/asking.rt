// Questions about the box that the caller holds, and about its drum. They write nothing.
ghost use Rattle.std.specs.Prelude.{◌≡◌};
ghost use Rattle.firmware.specs.Drums.{rest_call, ends_call, possible_call};

use super::held::held;
use balance::point;
use balance::range::Range;
use balance::refusal::Refusal;
use balance::table::Cells;
use roast::roast::Roast;

// Whether every row step would change nothing.
pub(crate) fn at_rest(
    size: usize,
    cells: &[Range],
    certificate: &[i64],
    ranges: &[Range],
) -> Result<bool, Refusal>
    ensures { result ≡ rest_call size cells.now certificate.now ranges.now }
{
    let system = Cells::new(size, cells)?;
    let mut roast = Roast::new(system);
    held(&mut roast, size, certificate, ranges)?;
    Ok(roast.at_rest())
}

// A node's two ends.
pub(crate) fn ends(
    size: usize,
    cells: &[Range],
    certificate: &[i64],
    ranges: &[Range],
    node: usize,
) -> Result<(i64, i64), Refusal>
    ensures { result ≡ ends_call size cells.now certificate.now ranges.now node }
{
    let system = Cells::new(size, cells)?;
    let mut roast = Roast::new(system);
    held(&mut roast, size, certificate, ranges)?;
    roast.ends(node)
}

// Whether a member of the drum has the point as its solution.
pub(crate) fn possible(
    size: usize,
    cells: &[Range],
    numerators: &[i64],
    denominator: i64,
) -> Result<bool, Refusal>
    ensures { result ≡ possible_call size cells.now numerators.now denominator }
{
    let system = Cells::new(size, cells)?;
    point::possible(&system, numerators, denominator)
}
