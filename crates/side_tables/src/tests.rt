use super::*;
use std::test::Fail;

// Payloads, each with its text or its refusal.
const TABLES: [(&[u8], &str); 15] = [
    (
        b"\0\0\0\0\0\0\0\0\0\0\0\x01\0\0\0\x01\0\0\0\x01\x12\x31\0\x01a",
        "instructions 1\n1 1:3\nfile 1 a\n",
    ),
    (
        b"\0\0\0\0\0\0\0\0\0\0\0\x01\0\0\0\x02\0\0\0\x01\x12\x31\x41\0\x01a",
        "instructions 1\n1 1:3\n2 1:4\nfile 1 a\n",
    ),
    (
        b"\0\0\0\0\0\0\0\0\0\0\0\0\0\0\0\0\0\0\0\0",
        "instructions 0\n",
    ),
    // lines and file names, as many as a word states, none of which is there
    (b"\0\0\0\0\0\0\0\0\0\0\0\0\xff\xff\xff\xff\0\0\0\0", "Cut"),
    (b"\0\0\0\0\0\0\0\0\0\0\0\0\0\0\0\0\xff\xff\xff\xff", "Cut"),
    (b"\0\0\0", "Cut"),
    (b"\0\0\0\x01", "Version"),
    // a u behind a switch to file 0, a negative integer, and a list
    (
        b"\0\0\0\0\0\0\0\0\0\0\0\0\0\0\0\x01\0\0\0\0\x02\x10",
        "ItemTag { item: 1 }",
    ),
    (
        b"\0\0\0\0\0\0\0\0\0\0\0\0\0\0\0\x01\0\0\0\0\x19\xff\xff",
        "ItemTag { item: 0 }",
    ),
    (
        b"\0\0\0\0\0\0\0\0\0\0\0\0\0\0\0\x01\0\0\0\0\x17\0",
        "ItemTag { item: 0 }",
    ),
    (
        b"\0\0\0\0\0\0\0\0\0\0\0\0\0\0\0\x01\0\0\0\0\x12",
        "FileIndex { item: 0 }",
    ),
    (b"\0\0\0\0\0\0\0\0\0\0\0\0\0\0\0\x01\0\0\0\0\x09", "Cut"),
    (b"\0\0\0\0\0\0\0\0\0\0\0\0\0\0\0\0\0\0\0\x01\0\x02a", "Cut"),
    (b"\0\0\0\0\0\0\0\0\0\0\0\0\0\0\0\0\0\0\0\0\0", "Rest"),
    // no line is left that the switch could stand before
    (
        b"\0\0\0\0\0\0\0\0\0\0\0\0\0\0\0\x01\0\0\0\0\x31\x02",
        "Rest",
    ),
];

#[test]
fn tables_are_read_and_shown(rt: HostRuntime) -> Result<(), Fail> {
    one_table();
    for (payload, expected) in TABLES {
        match read_lines(rt.alloc(), payload) {
            Ok(lines) => {
                let text = lines_text(rt.alloc(), &lines)?;
                assert_eq!(rt; text.as_slice(), expected.as_bytes(), "{payload:?}");
            }
            Err(refusal) => {
                let text = format!(in rt.alloc(); "{refusal:?}")?;
                assert_eq!(rt; text.as_str(), expected, "{payload:?}");
            }
        }
    }
    Ok(())
}

// Payloads of literals, each with its text or its refusal.
const LITERALS: [(&[u8], &str); 9] = [
    (
        b"\0\0\0\0\0\0\0\x02\0\0\0\x03\x83\x61\x05\0\0\0\x02\x83\x46",
        "0 5\n1 bytes 8346\n",
    ),
    (b"\0\0\0\0\0\0\0\x01\0\0\0\0", "0 bytes \n"),
    (b"\0\0\0\0\0\0\0\0", ""),
    (b"\0\0\0\x09\0", "packed\n"),
    // literals, as many as a word states, none of which is there
    (b"\0\0\0\0\xff\xff\xff\xff", "Cut"),
    (b"\0\0\0\0\0\0\0\x01\0\0\0\x02\x83", "Cut"),
    (b"\0\0\0", "Cut"),
    (b"\0\0\0\0\0\0\0", "Cut"),
    (b"\0\0\0\0\0\0\0\0\0", "Rest"),
];

#[test]
fn literals_are_read_and_shown(rt: HostRuntime) -> Result<(), Fail> {
    one_literal_table();
    for (payload, expected) in LITERALS {
        let shown = literals_shown(rt.alloc(), payload);
        match read_literals(rt.alloc(), payload) {
            Ok(literals) => {
                let text = literals_text(rt.alloc(), &literals)?;
                assert_eq!(rt; text.as_slice(), expected.as_bytes(), "{payload:?}");
                assert_eq!(rt; shown?.as_slice(), expected.as_bytes(), "{payload:?}");
            }
            Err(refusal) => {
                let text = format!(in rt.alloc(); "{refusal:?}")?;
                assert_eq!(rt; text.as_str(), expected, "{payload:?}");
                assert_eq!(rt; shown.err(), Some(refusal), "{payload:?}");
            }
        }
    }
    Ok(())
}

#[test]
fn literals_are_counted(rt: HostRuntime) -> Result<(), Fail> {
    for (payload, count) in [
        (b"\0\0\0\x09\0".as_slice(), Ok(None)),
        (b"\0\0\0\0\0\0\0\0".as_slice(), Ok(Some(0))),
        (
            b"\0\0\0\0\0\0\0\x02\0\0\0\x03\x83\x61\x05\0\0\0\x02\x83\x46".as_slice(),
            Ok(Some(2)),
        ),
        (b"\0\0\0".as_slice(), Err(SideRefusal::Cut)),
        (b"\0\0\0\0\0\0\0".as_slice(), Err(SideRefusal::Cut)),
        (
            b"\0\0\0\0\0\0\0\x01\0\0\0\x02\x83".as_slice(),
            Err(SideRefusal::Cut),
        ),
        (b"\0\0\0\0\0\0\0\0\0".as_slice(), Err(SideRefusal::Rest)),
    ] {
        assert_eq!(rt; count_literals(payload), count, "{payload:?}");
    }
    Ok(())
}
