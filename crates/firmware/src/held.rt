// The box that the caller holds, as a roast.
ghost use Rattle.std.specs.Prelude.{◌≡◌, length, Ok, Err, MatchResult, OnOk};
ghost use Rattle.roast.specs.Machine.{replacement, reading, all_or_none};
ghost use Rattle.firmware.specs.Drums.{first, held, read_from};

use balance::range::Range;
use balance::refusal::Refusal;
use balance::system::System;
use balance::table::Cells;
use roast::roast::Roast;

// Opens a roast of the caller's cells under a certificate, for a box of some ranges. (The caller holds the roast, as it is large.)
pub(crate) fn opened(
    roast: &mut Roast<Cells<'_, Range>>,
    size: usize,
    certificate: &[i64],
    ranges: &[Range],
) -> Result<(), Refusal>
    requires { size ≡ roast.old.system.size }
    ensures answers_and_leaves { let drum = roast.old.system in
        let first = first drum.size drum.cells.now certificate.now ranges.now in
        (result, roast.new.bounds) ≡ replacement roast.old.bounds first }
    ensures keeps_the_system { roast.new.system ≡ roast.old.system }
{
    if ranges.len() != size {
        return Err(Refusal::Size { place: 0 });
    }
    roast.open(certificate)
}

// Takes a range as a reading of a node.
pub(crate) fn read<S: System>(
    roast: &mut Roast<S>,
    node: usize,
    range: Range,
) -> Result<bool, Refusal>
    ensures answers_and_leaves { (result, roast.new.bounds)
        ≡ reading roast.old.bounds node range.lower range.upper }
    ensures keeps_the_system { roast.new.system ≡ roast.old.system }
{
    roast.reading(node, range.lower, range.upper)
}

// Takes ranges as readings, node 1 first.
fn take<S: System>(roast: &mut Roast<S>, ranges: &[Range]) -> Result<(), Refusal>
    ensures takes_or_refuses { let taken = read_from roast.old.bounds 1 ranges.now in
        MatchResult result (λ done. Ok roast.new.bounds ≡ taken) (λ e. Err e ≡ taken) }
    ensures keeps_the_system { roast.new.system ≡ roast.old.system }
{
    for (i, range) in ranges.iter().enumerate() {
        read(roast, i + 1, *range)?;
    }
    Ok(())
}

// The box that the caller's ranges stand for: the first box with them taken as readings.
pub(crate) fn held(
    roast: &mut Roast<Cells<'_, Range>>,
    size: usize,
    certificate: &[i64],
    ranges: &[Range],
) -> Result<(), Refusal>
    requires { size ≡ roast.old.system.size }
    ensures holds_or_refuses { let drum = roast.new.system in
        let held = held drum.size drum.cells.now certificate.now ranges.now in
        MatchResult result (λ done. Ok roast.new.bounds ≡ held) (λ e. Err e ≡ held) }
    ensures keeps_the_system { roast.new.system ≡ roast.old.system }
{
    opened(roast, size, certificate, ranges)?;
    take(roast, ranges)
}

// Writes the box that an accepted call has left of a roast over the ranges, and hands its answer on.
pub(crate) fn write_box<S: System, X>(
    answer: Result<X, Refusal>,
    roast: &Roast<S>,
    ranges: &mut [Range],
) -> Result<X, Refusal>
    requires { OnOk answer (length ranges.old ≡ length roast.now.bounds) }
    ensures { (result, ranges.new) ≡ all_or_none ranges.old answer roast.now.bounds }
{
    if answer.is_ok() {
        ranges.copy_from_slice(roast.ranges());
    }
    answer
}
