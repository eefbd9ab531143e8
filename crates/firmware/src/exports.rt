// The functions that C calls. Lists come as a pointer and a length, as C holds them, so a drum is not one value here.
ghost use Rattle.std.specs.Prelude.{◌≡◌, length};
ghost use Rattle.balance.specs.Points.{TellsPossible};
ghost use Rattle.balance.specs.Ranges.{range};
ghost use Rattle.heat_file.specs.Files.{read};
ghost use Rattle.heat_file.specs.Filled.{cells_after, certificate_after};
ghost use Rattle.heat_file.specs.Laws.{AcceptsFiles, WantsRoom, WantsFrame, RefusesFirstBad, OneReading, CellsHold, WeightsHold, KeepsRest};
ghost use Rattle.firmware.specs.Drums.{drum, opening_call, row_step_call, round_call, settling_call, reading_call, rest_call, ends_call, ends_left, possible_call, read_answer, EnclosesIfAccepted, KeepsSolutions, KeepsSolutionsWithin, GoesOn};
ghost use Rattle.firmware.specs.Replies.{yes_or_no, count, no_value, reply};

use super::reply::{ACCEPTED, Reply};
use super::{asking, narrowing};
use balance::range::Range;
use heat_file::reader::read_file;

/// Fills cells and a certificate with what a heat file says, and answers its size.
#[unsafe(no_mangle)]
pub extern "C" fn heat_read_file(file: &[u8], cells: &mut [Range], certificate: &mut [i64]) -> Reply
    ensures answers { result ≡ reply count (read_answer file.now cells.old certificate.old) }
    ensures fills_the_cells { let answer = read_answer file.now cells.old certificate.old in
        cells.new ≡ cells_after answer (read file.now) cells.old }
    ensures fills_the_certificate { let answer = read_answer file.now cells.old certificate.old in
        certificate.new ≡ certificate_after answer (read file.now) certificate.old }
    ensures accepts_exactly_the_files_of_some_entries { AcceptsFiles file.now (length cells.old)
        (length certificate.old) (read_answer file.now cells.old certificate.old) }
    ensures wants_room_for_them { WantsRoom file.now (length cells.old)
        (length certificate.old) (read_answer file.now cells.old certificate.old) }
    ensures wants_a_trailer_that_fits { WantsFrame file.now
        (read_answer file.now cells.old certificate.old) }
    ensures refuses_at_the_first_bad_line { RefusesFirstBad file.now
        (read_answer file.now cells.old certificate.old) }
    ensures has_one_reading { OneReading file.now }
    ensures cells_hold_what_the_lines_say { CellsHold file.now
        (read_answer file.now cells.old certificate.old) cells.new }
    ensures weights_hold_what_the_lines_say { WeightsHold file.now
        (read_answer file.now cells.old certificate.old) certificate.new }
    ensures keeps_the_rest { let answer = read_answer file.now cells.old certificate.old in
        KeepsRest answer cells.old cells.new certificate.old certificate.new }
{
    Reply::from(read_file(file, cells, certificate))
}

/// Fills ranges with the first box of a drum.
#[unsafe(no_mangle)]
pub extern "C" fn heat_open(
    size: usize,
    cells: &[Range],
    certificate: &[i64],
    ranges: &mut [Range],
) -> Reply
    ensures answers { let call = opening_call size cells.now certificate.now ranges.old in
        result ≡ reply no_value call.0 }
    ensures writes_the_box_unless_refused { ranges.new
        ≡ (opening_call size cells.now certificate.now ranges.old).1 }
    ensures a_box_that_is_written_holds_every_solution { EnclosesIfAccepted result
        (drum size cells.now) ranges.new }
    ensures the_next_call_goes_on_from_what_is_written { GoesOn size cells.now certificate.now
        result ranges.new }
{
    Reply::from(narrowing::open(size, cells, certificate, ranges))
}

/// Narrows a node's range by its row, and answers 1 if that changed it.
#[unsafe(no_mangle)]
pub extern "C" fn heat_row_step(
    size: usize,
    cells: &[Range],
    certificate: &[i64],
    ranges: &mut [Range],
    node: usize,
) -> Reply
    ensures answers { let call = row_step_call size cells.now certificate.now ranges.old node in
        result ≡ reply yes_or_no call.0 }
    ensures writes_the_box_unless_refused { ranges.new
        ≡ (row_step_call size cells.now certificate.now ranges.old node).1 }
    ensures keeps_every_solution { KeepsSolutions (drum size cells.now) ranges.old ranges.new }
    ensures the_next_call_goes_on_from_what_is_written { GoesOn size cells.now certificate.now
        result ranges.new }
{
    Reply::from(narrowing::row_step(size, cells, certificate, ranges, node))
}

/// Row steps 1 to n, and how many of them changed a range; all or none.
#[unsafe(no_mangle)]
pub extern "C" fn heat_round(
    size: usize,
    cells: &[Range],
    certificate: &[i64],
    ranges: &mut [Range],
) -> Reply
    ensures answers { let call = round_call size cells.now certificate.now ranges.old in
        result ≡ reply count call.0 }
    ensures writes_the_box_unless_refused { ranges.new
        ≡ (round_call size cells.now certificate.now ranges.old).1 }
    ensures keeps_every_solution { KeepsSolutions (drum size cells.now) ranges.old ranges.new }
    ensures the_next_call_goes_on_from_what_is_written { GoesOn size cells.now certificate.now
        result ranges.new }
{
    Reply::from(narrowing::round(size, cells, certificate, ranges))
}

/// Rounds until one changes nothing, 64 at most. Answers 1 if the box is at rest then.
#[unsafe(no_mangle)]
pub extern "C" fn heat_settle(
    size: usize,
    cells: &[Range],
    certificate: &[i64],
    ranges: &mut [Range],
) -> Reply
    ensures answers { let call = settling_call size cells.now certificate.now ranges.old in
        result ≡ reply yes_or_no call.0 }
    ensures writes_the_box_unless_refused { ranges.new
        ≡ (settling_call size cells.now certificate.now ranges.old).1 }
    ensures keeps_every_solution { KeepsSolutions (drum size cells.now) ranges.old ranges.new }
    ensures the_next_call_goes_on_from_what_is_written { GoesOn size cells.now certificate.now
        result ranges.new }
{
    Reply::from(narrowing::settle(size, cells, certificate, ranges))
}

/// Narrows a node's range by a reading, and answers 1 if that changed it.
#[unsafe(no_mangle)]
pub extern "C" fn heat_reading(
    size: usize,
    cells: &[Range],
    certificate: &[i64],
    ranges: &mut [Range],
    node: usize,
    lower: i64,
    upper: i64,
) -> Reply
    ensures answers { let us = certificate.now in
        let call = reading_call size cells.now us ranges.old node lower upper in
        result ≡ reply yes_or_no call.0 }
    ensures writes_the_box_unless_refused { ranges.new
        ≡ (reading_call size cells.now certificate.now ranges.old node lower upper).1 }
    ensures keeps_every_solution_within_the_reading { let read = range lower upper in
        KeepsSolutionsWithin (drum size cells.now) ranges.old node read ranges.new }
    ensures the_next_call_goes_on_from_what_is_written { GoesOn size cells.now certificate.now
        result ranges.new }
{
    let reading = Range { lower, upper };
    Reply::from(narrowing::reading(size, cells, certificate, ranges, node, reading))
}

/// Answers 1 if every row step would change nothing.
#[unsafe(no_mangle)]
pub extern "C" fn heat_at_rest(
    size: usize,
    cells: &[Range],
    certificate: &[i64],
    ranges: &[Range],
) -> Reply
    ensures answers { let call = rest_call size cells.now certificate.now ranges.now in
        result ≡ reply yes_or_no call }
{
    Reply::from(asking::at_rest(size, cells, certificate, ranges))
}

/// Fills a range with a node's two ends.
#[unsafe(no_mangle)]
pub extern "C" fn heat_ends(
    size: usize,
    cells: &[Range],
    certificate: &[i64],
    ranges: &[Range],
    node: usize,
    ends: &mut Range,
) -> Reply
    ensures answers { let call = ends_call size cells.now certificate.now ranges.now node in
        result ≡ reply no_value call }
    ensures writes_the_ends_unless_refused { ends.new
        ≡ ends_left ends.old (ends_call size cells.now certificate.now ranges.now node) }
{
    match asking::ends(size, cells, certificate, ranges, node) {
        Ok(found) => {
            *ends = found.into();
            ACCEPTED
        }
        Err(refusal) => Reply::from(refusal),
    }
}

/// Answers 1 if a member of the drum has the point as its solution.
#[unsafe(no_mangle)]
pub extern "C" fn heat_possible(
    size: usize,
    cells: &[Range],
    numerators: &[i64],
    denominator: i64,
) -> Reply
    ensures answers { let call = possible_call size cells.now numerators.now denominator in
        result ≡ reply yes_or_no call }
    ensures says_yes_exactly_if_a_member_has_the_point { TellsPossible (drum size cells.now)
        numerators.now denominator (possible_call size cells.now numerators.now denominator) }
{
    Reply::from(asking::possible(size, cells, numerators, denominator))
}
