// Why files are refused, and where.
use balance::range::Range;
use balance::refusal::Refusal;
use heat_file::reader::{read_file, size_of_file};
use std::test::Fail;

// What a file is answered with where there is room for two nodes.
fn read(file: &[u8]) -> Result<usize, Refusal> {
    let mut cells = [Range::ZERO; 6];
    let mut certificate = [0; 2];
    read_file(file, &mut cells, &mut certificate)
}

#[test]
fn without_a_trailer_that_fits(rt: HostRuntime) -> Result<(), Fail> {
    let files: [&[u8]; 12] = [
        b"",
        b"\n",
        b"size 1\n",
        b"size 1\nend 0 1",
        b"size 1\nend 0 1\n\n",
        b"size 1\nend 0 1 \n",
        b"size 1\nend 0  1\n",
        b"size 1\nend 00 1\n",
        b"size 1\nend -0 1\n",
        b"size 1\nend 0\n",
        b"size 1\nEND 0 1\n",
        b"size 1\nend 0 1\r\n",
    ];
    for file in files {
        assert_eq!(rt; read(file), Err(Refusal::File));
    }
    assert_eq!(rt; read(b"size 1\nend 0 1\n"), Ok(1));
    Ok(())
}

#[test]
fn a_trailer_that_points_wrongly(rt: HostRuntime) -> Result<(), Fail> {
    let files: [&[u8]; 6] = [
        b"a\nsize 1\nend 1 1\n",
        b"a\nsize 1\nend 3 1\n",
        b"a\nsize 1\nend -2 1\n",
        b"a\nsize 1\nend 17 0\n",
        b"a\nsize 1\nend 18 1\n",
        b"a\nsize 1\nend 9999999999999 1\n",
    ];
    for file in files {
        assert_eq!(rt; read(file), Err(Refusal::File));
    }
    assert_eq!(rt; read(b"a\nsize 1\nend 2 1\n"), Ok(1));
    Ok(())
}

#[test]
fn a_trailer_that_miscounts(rt: HostRuntime) -> Result<(), Fail> {
    let files: [&[u8]; 3] = [
        b"size 1\nu 1 2\nend 0 1\n",
        b"size 1\nu 1 2\nend 0 3\n",
        b"size 1\nu 1 2\nend 0 -2\n",
    ];
    for file in files {
        assert_eq!(rt; read(file), Err(Refusal::File));
    }
    assert_eq!(rt; read(b"size 1\nu 1 2\nend 0 2\n"), Ok(1));
    Ok(())
}

#[test]
fn remarks_are_not_read(rt: HostRuntime) -> Result<(), Fail> {
    assert_eq!(rt; read(b"end 0 1\n\x00\xff\r\n\nsize 1\nend 13 1\n"), Ok(1));
    assert_eq!(rt;
        read(b"end 0 1\n\x00\xff\r\n\nsize 1\nend 12 2\n"),
        Err(Refusal::Shape { place: 12 })
    );
    assert_eq!(rt;
        read(b"end 0 1\n\x00\xff\r\n\nsize 1\nend 13 0\n"),
        Err(Refusal::File)
    );
    Ok(())
}

#[test]
fn lines_of_another_shape(rt: HostRuntime) -> Result<(), Fail> {
    let files: [(&[u8], usize); 10] = [
        (b"end 0 0\n", 0),
        (b"remark\nend 7 0\n", 7),
        (b"remark\na 1 1 2 3\nend 7 1\n", 7),
        (b"\nend 0 1\n", 0),
        (b"size 1\n\nend 0 2\n", 7),
        (b"size 1\nsize\nend 0 2\n", 7),
        (b"size 1\nu 1 2\nu 2\nend 0 3\n", 13),
        (b"size 1\nend 0 1\nend 0 2\n", 7),
        (b"size 1\nu 1 12345678901234\nend 0 2\n", 7),
        (b"size 1\nu 1 \xb2\nend 0 2\n", 7),
    ];
    for (file, place) in files {
        assert_eq!(rt; read(file), Err(Refusal::Shape { place }));
    }
    Ok(())
}

#[test]
fn sizes_that_are_not_allowed(rt: HostRuntime) -> Result<(), Fail> {
    let files: [(&[u8], usize); 4] = [
        (b"size 0\nend 0 1\n", 0),
        (b"size 33\nend 0 1\n", 0),
        (b"size -1\nend 0 1\n", 0),
        (b"size 1\nsize 33\nend 0 2\n", 7),
    ];
    for (file, place) in files {
        assert_eq!(rt; read(file), Err(Refusal::Size { place }));
    }
    assert_eq!(rt; read(b"size 3\nend 0 1\n"), Err(Refusal::Room));
    assert_eq!(rt; size_of_file(b"size 32\nend 0 1\n"), Ok(32));
    Ok(())
}

#[test]
fn nodes_that_are_none(rt: HostRuntime) -> Result<(), Fail> {
    let files: [(&[u8], usize); 7] = [
        (b"size 2\na 0 1 5 4\nend 0 2\n", 7),
        (b"size 2\na 3 1 5 4\nend 0 2\n", 7),
        (b"size 2\na 1 0 5 4\nend 0 2\n", 7),
        (b"size 2\na 1 3 5 4\nend 0 2\n", 7),
        (b"size 2\nb 3 5 4\nend 0 2\n", 7),
        (b"size 2\nu -1 5\nend 0 2\n", 7),
        (b"size 2\nu 2 5\nu 3 5\nend 0 3\n", 13),
    ];
    for (file, place) in files {
        assert_eq!(rt; read(file), Err(Refusal::Node { place }));
    }
    Ok(())
}

#[test]
fn lines_out_of_order(rt: HostRuntime) -> Result<(), Fail> {
    let files: [(&[u8], usize); 9] = [
        (b"size 2\nsize 2\nend 0 2\n", 7),
        (b"size 2\na 1 1 1 1\na 1 1 5 4\nend 0 3\n", 17),
        (b"size 2\na 1 2 1 1\na 1 1 1 1\nend 0 3\n", 17),
        (b"size 2\na 2 1 1 1\na 1 2 1 1\nend 0 3\n", 17),
        (b"size 2\nb 1 1 1\nb 1 1 1\nend 0 3\n", 15),
        (b"size 2\nb 1 1 1\na 2 2 1 1\nend 0 3\n", 15),
        (b"size 2\nu 1 1\nb 2 1 1\nend 0 3\n", 13),
        (b"size 2\nu 2 1\nu 1 1\nend 0 3\n", 13),
        (b"size 2\nu 1 1\nsize 1\nend 0 3\n", 13),
    ];
    for (file, place) in files {
        assert_eq!(rt; read(file), Err(Refusal::Order { place }));
    }
    assert_eq!(rt;
        read(b"size 2\na 1 2 1 1\na 2 1 1 1\nb 1 1 1\nu 1 1\nend 0 5\n"),
        Ok(2)
    );
    Ok(())
}

#[test]
fn crossed_ends(rt: HostRuntime) -> Result<(), Fail> {
    let files: [(&[u8], usize); 3] = [
        (b"size 2\na 1 1 5 4\nend 0 2\n", 7),
        (b"size 2\nb 1 -4 -5\nend 0 2\n", 7),
        (b"size 2\na 1 1 4 4\nb 2 0 -1\nend 0 3\n", 17),
    ];
    for (file, place) in files {
        assert_eq!(rt; read(file), Err(Refusal::Crossed { place }));
    }
    Ok(())
}

#[test]
fn the_first_line_with_the_lowest_number(rt: HostRuntime) -> Result<(), Fail> {
    assert_eq!(rt;
        read(b"size 2\na 1 1 5 4\na 1 1\nend 0 3\n"),
        Err(Refusal::Crossed { place: 7 })
    );
    assert_eq!(rt;
        read(b"size 0\na 1 1\nend 0 2\n"),
        Err(Refusal::Size { place: 0 })
    );
    assert_eq!(rt;
        read(b"size 2\nu 1 1\na 3 1 5 4\nend 0 3\n"),
        Err(Refusal::Node { place: 13 })
    );
    assert_eq!(rt;
        read(b"size 2\nu 1 1\na 2 1 5 4\nend 0 3\n"),
        Err(Refusal::Order { place: 13 })
    );
    Ok(())
}
