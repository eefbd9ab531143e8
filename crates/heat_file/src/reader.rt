ghost use Rattle.std.specs.Prelude.{◌≡◌, ◌+◌, ◌*◌, ◌<◌, ◌≤◌, true, [], ◌∷◌, length, pos, Err, MatchResult};
ghost use Rattle.heat_file.specs.Cuts.{cut, closed};
ghost use Rattle.heat_file.specs.Checks.{inside, check, told};
ghost use Rattle.heat_file.specs.Files.{read};
ghost use Rattle.heat_file.specs.Laws.{AcceptsFiles, TellsSize, WantsRoom, WantsFrame, RefusesFirstBad, OneReading, CellsHold, WeightsHold, KeepsRest};
ghost use Rattle.heat_file.specs.Filled.{index, put_cells, put_weights, answer, cells_after, certificate_after, Puts};

use super::check::Standing;
use super::line::Entry;
use super::trailer::data_lines;
use balance::range::Range;
use balance::refusal::Refusal;

// The most nodes of a file.
const NODES: usize = 32;

// The cells of so many.
const CELLS: usize = 1_056;

// Fills cells, row after row with the right side last, and a certificate with what a file says, and answers its size.
// Absent ranges are [0, 0] and absent numbers 1. Nothing is written unless the whole file is good and there is room.
pub fn read_file(
    file: &[u8],
    cells: &mut [Range],
    certificate: &mut [i64],
) -> Result<usize, Refusal>
    ensures answers { result ≡ answer (read file.now) (length cells.old) (length certificate.old) }
    ensures fills_the_cells { cells.new ≡ cells_after result (read file.now) cells.old }
    ensures fills_the_certificate { certificate.new ≡ certificate_after result (read file.now) certificate.old }
    ensures accepts_exactly_the_files_of_some_entries { AcceptsFiles file.now (length cells.old) (length certificate.old) result }
    ensures wants_room_for_them { WantsRoom file.now (length cells.old) (length certificate.old) result }
    ensures wants_a_trailer_that_fits { WantsFrame file.now result }
    ensures refuses_at_the_first_bad_line { RefusesFirstBad file.now result }
    ensures has_one_reading { OneReading file.now }
    ensures cells_hold_what_the_lines_say { CellsHold file.now result cells.new }
    ensures weights_hold_what_the_lines_say { WeightsHold file.now result certificate.new }
    ensures keeps_the_rest { KeepsRest result cells.old cells.new certificate.old certificate.new }
{
    let mut read_cells = [Range::ZERO; CELLS];
    let mut read_weights = [1; NODES];
    let size = read_entries(file, &mut read_cells, &mut read_weights)?;
    let cell_count = size * (size + 1);
    if cells.len() < cell_count || certificate.len() < size {
        return Err(Refusal::Room);
    }
    cells[..cell_count].copy_from_slice(&read_cells[..cell_count]);
    certificate[..size].copy_from_slice(&read_weights[..size]);
    Ok(size)
}

// The size of a file.
pub fn size_of_file(file: &[u8]) -> Result<usize, Refusal>
    ensures answers { result ≡ told (pos 0) (read file.now) }
    ensures tells_the_size_of_exactly_the_files_of_some_entries { TellsSize file.now result }
    ensures wants_a_trailer_that_fits { WantsFrame file.now result }
    ensures refuses_at_the_first_bad_line { RefusesFirstBad file.now result }
{
    read_entries(file, &mut [Range::ZERO; CELLS], &mut [1; NODES])
}

// Puts what a file says into lists with room for any file, and answers its size. Of a refused file they hold what stood before the fault.
fn read_entries(file: &[u8], cells: &mut [Range], certificate: &mut [i64]) -> Result<usize, Refusal>
    requires has_cells { 1056 ≤ length cells.old }
    requires has_weights { 32 ≤ length certificate.old }
    ensures { MatchResult result (λ n. Puts (read file.now) n cells.old certificate.old cells.new certificate.new) (λ r. read file.now ≡ Err r) }
{
    let (place, lines) = data_lines(file).ok_or(Refusal::File)?;
    read_lines(lines, place, cells, certificate)
}

// The same of whole data lines. They begin at a byte place of the file.
fn read_lines(
    text: &[u8],
    from: usize,
    cells: &mut [Range],
    certificate: &mut [i64],
) -> Result<usize, Refusal>
    requires are_whole_lines { closed 10 text.now ≡ true }
    requires are_in_a_file { from + length text.now ≤ 65535 }
    requires has_cells { 1056 ≤ length cells.old }
    requires has_weights { 32 ≤ length certificate.old }
    ensures { MatchResult result (λ n. Puts (check from (cut 10 text.now)) n cells.old certificate.old cells.new certificate.new) (λ r. check from (cut 10 text.now) ≡ Err r) }
{
    let [lines @ .., b'\n'] = text else {
        return Err(Refusal::Shape { place: from });
    };
    let mut standing = Standing::START;
    let mut place = from;
    for line in lines.split(|byte| *byte == b'\n') {
        let entry = Entry::parse(line).ok_or(Refusal::Shape { place })?;
        standing = standing.check(entry, place)?;
        entry.put(standing.size as usize, cells, certificate);
        place += line.len() + 1;
    }
    Ok(standing.size as usize)
}

impl Entry {
    fn put(self, size: usize, cells: &mut [Range], certificate: &mut [i64])
        requires has_few_nodes { size ≤ 32 }
        requires has_its_nodes { inside (pos size) self ≡ true }
        requires has_cells { size * (size + 1) ≤ length cells.old }
        requires has_weights { size ≤ length certificate.old }
        ensures puts_cells { cells.new ≡ put_cells size (self ∷ []) cells.old }
        ensures puts_weights { certificate.new ≡ put_weights (self ∷ []) certificate.old }
    {
        match self {
            Entry::Size(_) => {}
            Entry::Coefficient { row, column, range } => {
                cells[cell_index(size, row as usize, column as usize)] = range;
            }
            Entry::RightSide { row, range } => {
                cells[cell_index(size, row as usize, size + 1)] = range;
            }
            Entry::Weight { node, weight } => certificate[node as usize - 1] = weight,
        }
    }
}

// The cell of a row and a column; column n + 1 is the right side.
fn cell_index(size: usize, row: usize, column: usize) -> usize
    requires has_few_nodes { size ≤ 32 }
    requires row_is_a_node { (1 ≤ row) × (row ≤ size) }
    requires column_has_a_cell { (1 ≤ column) × (column ≤ size + 1) }
    ensures is { result ≡ index size row column }
    ensures is_inside { result < size * (size + 1) }
{
    (row - 1) * (size + 1) + (column - 1)
}
