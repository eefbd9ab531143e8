ghost use Rattle.std.specs.Prelude.{◌≡◌};
ghost use Rattle.heat_file.specs.Reports.{length_or_no_room, put_in_front};
ghost use Rattle.file_box.specs.Findings.{table_report};

use super::finding::report_system;
use balance::range::Range;
use balance::refusal::Refusal;
use balance::table::Cells;
use heat_file::report::write_refusal;

// Writes the report on the table of some cells, row after row with the right side last. Answers how long the report is.
pub fn report_table(
    size: usize,
    cells: &[Range],
    certificate: &[i64],
    out: &mut [u8],
) -> Result<usize, Refusal>
    ensures answers { result ≡ length_or_no_room (table_report size cells.now certificate.now) out.old }
    ensures writes_the_report_and_keeps_the_rest { out.new ≡ put_in_front (table_report size cells.now certificate.now) out.old }
{
    match Cells::new(size, cells) {
        Ok(table) => report_system(table, certificate, out),
        Err(refusal) => write_refusal(refusal, out),
    }
}
