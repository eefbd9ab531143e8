// Words, and reports in buffers of every room.
use balance::range::Range;
use balance::refusal::Refusal;
use heat_file::report::{write_box, write_refusal};
use heat_file::word::{Word, word_at, words};
use std::test::Fail;

const FILE: &[u8] = b"tip -0\na 1 -12\n";

#[test]
fn a_word_is_told_by_its_bytes_and_place(rt: HostRuntime) -> Result<(), Fail> {
    let tip = Word::Name {
        bytes: b"tip",
        place: 0,
    };
    let zero = Word::Name {
        bytes: b"-0",
        place: 4,
    };
    let tag = Word::Tag {
        bytes: b"a",
        place: 7,
    };
    let number = Word::Number {
        bytes: b"-12",
        place: 11,
    };
    assert_eq!(rt; word_at(FILE, 0), Some(tip));
    assert_eq!(rt; word_at(FILE, 4), Some(zero));
    assert_eq!(rt; word_at(FILE, 7), Some(tag));
    assert_eq!(rt; word_at(FILE, 11), Some(number));
    assert_eq!(rt; word_at(FILE, 1), None);
    assert_eq!(rt; word_at(FILE, 3), None);
    assert_eq!(rt; word_at(FILE, 15), None);
    Ok(())
}

#[test]
fn the_words_of_a_file_come_in_order(rt: HostRuntime) -> Result<(), Fail> {
    let places = [0, 4, 7, 9, 11];
    let mut found = words(FILE);
    for place in places {
        assert_eq!(rt; found.next(), word_at(FILE, place));
    }
    assert_eq!(rt; found.next(), None);
    assert_eq!(rt; found.next(), None);
    Ok(())
}

#[test]
fn a_report_wants_its_room(rt: HostRuntime) -> Result<(), Fail> {
    let ranges = [Range {
        lower: -4,
        upper: 0,
    }];
    let mut out = [b'.'; 24];
    assert_eq!(rt;
        write_box(&ranges, false, &mut out[..20]),
        Err(Refusal::Room)
    );
    assert_eq!(rt; out, [b'.'; 24]);
    assert_eq!(rt; write_box(&ranges, false, &mut out), Ok(21));
    assert_eq!(rt; out, *b"box 1\n1 -4 0\nrest no\n...");
    Ok(())
}

#[test]
fn a_refusal_wants_its_room(rt: HostRuntime) -> Result<(), Fail> {
    let refusal = Refusal::Limit {
        part: 1,
        row: 2,
        column: 3,
    };
    let mut out = [b'.'; 18];
    assert_eq!(rt; write_refusal(refusal, &mut out[..15]), Err(Refusal::Room));
    assert_eq!(rt; out, [b'.'; 18]);
    assert_eq!(rt; write_refusal(refusal, &mut out), Ok(16));
    assert_eq!(rt; out, *b"refused 8 1 2 3\n..");
    Ok(())
}
