// Numbers and lines as they may be written.
use balance::range::Range;
use heat_file::line::Entry;
use heat_file::number::parse_number;
use std::test::Fail;

#[test]
fn numbers_have_1_to_13_digits(rt: HostRuntime) -> Result<(), Fail> {
    assert_eq!(rt; parse_number(b"0"), Some(0));
    assert_eq!(rt; parse_number(b"7"), Some(7));
    assert_eq!(rt; parse_number(b"-1"), Some(-1));
    assert_eq!(rt; parse_number(b"9999999999999"), Some(9_999_999_999_999));
    assert_eq!(rt; parse_number(b"-9999999999999"), Some(-9_999_999_999_999));
    let words: [&[u8]; 4] = [b"10000000000000", b"-10000000000000", b"", b"-"];
    for word in words {
        assert_eq!(rt; parse_number(word), None);
    }
    Ok(())
}

#[test]
fn numbers_are_written_in_one_way(rt: HostRuntime) -> Result<(), Fail> {
    let words: [&[u8]; 12] = [
        b"-0", b"00", b"01", b"-01", b"--1", b"+1", b" 1", b"1 ", b"1a", b"1:", b"1/", b"\xb1",
    ];
    for word in words {
        assert_eq!(rt; parse_number(word), None);
    }
    Ok(())
}

#[test]
fn lines_say_entries(rt: HostRuntime) -> Result<(), Fail> {
    let range = Range {
        lower: -4,
        upper: 5,
    };
    assert_eq!(rt; Entry::parse(b"size 2"), Some(Entry::Size(2)));
    assert_eq!(rt;
        Entry::parse(b"a 1 2 -4 5"),
        Some(Entry::Coefficient {
            row: 1,
            column: 2,
            range
        })
    );
    assert_eq!(rt;
        Entry::parse(b"b 33 -4 5"),
        Some(Entry::RightSide { row: 33, range })
    );
    assert_eq!(rt;
        Entry::parse(b"u 0 -1"),
        Some(Entry::Weight {
            node: 0,
            weight: -1
        })
    );
    Ok(())
}

#[test]
fn other_lines_say_nothing(rt: HostRuntime) -> Result<(), Fail> {
    let lines: [&[u8]; 18] = [
        b"",
        b"a",
        b"a ",
        b"size",
        b"size ",
        b"size  2",
        b"size 2 ",
        b"size 2 2",
        b" size 2",
        b"Size 2",
        b"size 2\r",
        b"a 1 2 3",
        b"a 1 2 3 4 5",
        b"a\t1 2 3 4",
        b"b 1 2 3 4",
        b"u 1",
        b"c 1 2",
        b"end 0 1",
    ];
    for line in lines {
        assert_eq!(rt; Entry::parse(line), None);
    }
    Ok(())
}
