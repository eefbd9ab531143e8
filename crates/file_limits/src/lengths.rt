// Long files.
use balance::range::Range;
use balance::refusal::Refusal;
use heat_file::reader::{read_file, size_of_file};
use std::alloc::Global;
use std::test::Fail;

// Remarks of one byte over and over, the last of them a line feed, and then these lines.
fn long(heap: Global, count: usize, byte: u8, lines: &[u8]) -> Result<Vec<u8>, Fail> {
    let mut file = vec![in heap; byte; count]?;
    file.push(b'\n')?;
    file.extend_from_slice(lines)?;
    Ok(file)
}

#[test]
fn a_file_has_at_most_65535_bytes(rt: HostRuntime) -> Result<(), Fail> {
    let heap = rt.alloc();
    let whole = long(heap, 65_515, b'x', b"size 1\nend 65516 1\n")?;
    assert_eq!(rt; whole.len(), 65_535);
    assert_eq!(rt; size_of_file(&whole), Ok(1));
    let longer = long(heap, 65_516, b'x', b"size 1\nend 65517 1\n")?;
    assert_eq!(rt; longer.len(), 65_536);
    assert_eq!(rt; size_of_file(&longer), Err(Refusal::File));
    Ok(())
}

#[test]
fn many_empty_lines_are_read_fast(rt: HostRuntime) -> Result<(), Fail> {
    let heap = rt.alloc();
    let remarks = long(heap, 65_515, b'\n', b"size 1\nend 65516 1\n")?;
    assert_eq!(rt; size_of_file(&remarks), Ok(1));
    let lines = long(heap, 65_515, b'\n', b"size 1\nend 0 65517\n")?;
    assert_eq!(rt; size_of_file(&lines), Err(Refusal::Shape { place: 0 }));
    let spaces = long(heap, 65_519, b' ', b"end 0 1\n")?;
    assert_eq!(rt; size_of_file(&spaces), Err(Refusal::Shape { place: 0 }));
    Ok(())
}

#[test]
fn a_table_of_32_nodes_is_read(rt: HostRuntime) -> Result<(), Fail> {
    let heap = rt.alloc();
    let mut file = String::new(heap);
    file.push_str("size 32\n")?;
    for row in 1..=32 {
        for column in 1..=32 {
            write!(file, "a {row} {column} -{row} {column}\n")?;
        }
    }
    for row in 1..=32 {
        write!(file, "b {row} -1000000000000 {row}\n")?;
    }
    for node in 1..=32 {
        write!(file, "u {node} {node}\n")?;
    }
    file.push_str("end 0 1089\n")?;
    let mut cells = [Range::ZERO; 1056];
    let mut certificate = [0; 32];
    assert_eq!(rt;
        read_file(file.as_bytes(), &mut cells, &mut certificate),
        Ok(32)
    );
    assert_eq!(rt;
        cells[0],
        Range {
            lower: -1,
            upper: 1
        }
    );
    assert_eq!(rt;
        cells[31 * 33 + 30],
        Range {
            lower: -32,
            upper: 31
        }
    );
    assert_eq!(rt;
        cells[31 * 33 + 32],
        Range {
            lower: -1_000_000_000_000,
            upper: 32
        }
    );
    assert_eq!(rt; certificate[31], 32);
    Ok(())
}
