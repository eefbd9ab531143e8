ghost use Rattle.std.specs.Prelude.{◌≡◌};
ghost use Rattle.heat_file.specs.Reports.{length_or_no_room, put_in_front};
ghost use Rattle.file_box.specs.FileReports.{file_report, ReportsEnclosure};

use super::table::report_table;
use balance::range::Range;
use balance::refusal::Refusal;
use heat_file::reader::read_file;
use heat_file::report::write_refusal;

// The most nodes, and the cells that they have.
const NODES: usize = 32;

const CELLS: usize = 1_056;

/// Writes what a heat file is answered with: the report of the box that its table and certificate lead to, or the line of the first
/// refusal. Answers how long that is.
///
/// Refused is a report for which there is no room (14); the buffer is then as it was.
pub fn report_file(file: &[u8], out: &mut [u8]) -> Result<usize, Refusal>
    ensures answers { result ≡ length_or_no_room (file_report file.now) out.old }
    ensures writes_the_report_and_keeps_the_rest { out.new ≡ put_in_front (file_report file.now) out.old }
    ensures a_box_that_is_printed_holds_every_solution { ReportsEnclosure file.now (file_report file.now) }
{
    let mut cells = [Range::ZERO; CELLS];
    let mut certificate = [0; NODES];
    match read_file(file, &mut cells, &mut certificate) {
        Ok(size) => {
            let cells = &cells[..size * (size + 1)];
            report_table(size, cells, &certificate[..size], out)
        }
        Err(refusal) => write_refusal(refusal, out),
    }
}
