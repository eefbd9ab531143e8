// A drum of two nodes, read whole.
use balance::range::Range;
use balance::refusal::Refusal;
use heat_file::reader::{read_file, size_of_file};
use std::test::Fail;

const DRUM: &[u8] =
    b"bent tip replaced\nsize 2\na 1 1 4 5\na 1 2 -1 1\na 2 1 -1 1\na 2 2 4 5\nb 1 8 10\nb 2 -10 -8\nend 18 7\n";

const OTHER: Range = Range { lower: 7, upper: 9 };

fn range(lower: i64, upper: i64) -> Range {
    Range { lower, upper }
}

#[test]
fn the_drum_is_read(rt: HostRuntime) -> Result<(), Fail> {
    let mut cells = [OTHER; 6];
    let mut certificate = [9; 2];
    assert_eq!(rt; size_of_file(DRUM), Ok(2));
    assert_eq!(rt; read_file(DRUM, &mut cells, &mut certificate), Ok(2));
    let diagonal = range(4, 5);
    let small = range(-1, 1);
    let told = [
        diagonal,
        small,
        range(8, 10),
        small,
        diagonal,
        range(-10, -8),
    ];
    assert_eq!(rt; cells, told);
    assert_eq!(rt; certificate, [1, 1]);
    Ok(())
}

#[test]
fn what_is_beyond_stays(rt: HostRuntime) -> Result<(), Fail> {
    let mut cells = [OTHER; 8];
    let mut certificate = [9; 4];
    assert_eq!(rt; read_file(DRUM, &mut cells, &mut certificate), Ok(2));
    assert_eq!(rt; cells[5], range(-10, -8));
    assert_eq!(rt; cells[6], OTHER);
    assert_eq!(rt; cells[7], OTHER);
    assert_eq!(rt; certificate, [1, 1, 9, 9]);
    Ok(())
}

#[test]
fn without_room_nothing_is_written(rt: HostRuntime) -> Result<(), Fail> {
    let mut few_cells = [OTHER; 5];
    let mut certificate = [9; 2];
    assert_eq!(rt;
        read_file(DRUM, &mut few_cells, &mut certificate),
        Err(Refusal::Room)
    );
    assert_eq!(rt; few_cells, [OTHER; 5]);
    assert_eq!(rt; certificate, [9; 2]);
    let mut cells = [OTHER; 6];
    let mut one_weight = [9; 1];
    assert_eq!(rt;
        read_file(DRUM, &mut cells, &mut one_weight),
        Err(Refusal::Room)
    );
    assert_eq!(rt; cells, [OTHER; 6]);
    assert_eq!(rt; one_weight, [9]);
    Ok(())
}

#[test]
fn what_is_absent_is_zero_or_one(rt: HostRuntime) -> Result<(), Fail> {
    let mut cells = [OTHER; 6];
    let mut certificate = [9; 2];
    let file = b"size 2\na 2 1 3 3\nu 2 5\nend 0 3\n";
    assert_eq!(rt; read_file(file, &mut cells, &mut certificate), Ok(2));
    let zero = Range::ZERO;
    assert_eq!(rt; cells, [zero, zero, zero, range(3, 3), zero, zero]);
    assert_eq!(rt; certificate, [1, 5]);
    Ok(())
}

#[test]
fn a_refused_file_writes_nothing(rt: HostRuntime) -> Result<(), Fail> {
    let mut cells = [OTHER; 6];
    let mut certificate = [9; 2];
    let file = b"size 2\na 1 1 4 5\nu 1 3\nu 2 3\nu 2 4\nend 0 5\n";
    assert_eq!(rt;
        read_file(file, &mut cells, &mut certificate),
        Err(Refusal::Order { place: 29 })
    );
    assert_eq!(rt; cells, [OTHER; 6]);
    assert_eq!(rt; certificate, [9; 2]);
    Ok(())
}

// Limits on ends and weights are none of the reader's.
#[test]
fn numbers_of_13_digits_are_handed_on(rt: HostRuntime) -> Result<(), Fail> {
    let mut cells = [OTHER; 2];
    let mut certificate = [9; 1];
    let file = b"size 1\na 1 1 -9999999999999 9999999999999\nu 1 -9999999999999\nend 0 3\n";
    assert_eq!(rt; read_file(file, &mut cells, &mut certificate), Ok(1));
    assert_eq!(rt;
        cells,
        [range(-9_999_999_999_999, 9_999_999_999_999), Range::ZERO]
    );
    assert_eq!(rt; certificate, [-9_999_999_999_999]);
    Ok(())
}
