use super::*;
use bk_base::{Bytes, Cursor};
use bk_parse::TextRefusal;
use compact_term::{Operand, Plain, read_operand};
use std::test::Fail;

// Operands as bytes, each with its text.
const OPERANDS: [(&[u8], &[u8]); 22] = [
    (&[0xf1], b"i15"),
    (&[0x09, 0x10], b"i16"),
    (&[0xe9, 0xff], b"i2047"),
    (&[0x19, 0x08, 0x00], b"i2048"),
    (&[0x19, 0xff, 0xff], b"i-1"),
    (&[0x19, 0x80, 0x00], b"i-32768"),
    (&[0x39, 0xff, 0x7f, 0xff], b"i-32769"),
    (
        &[
            0xf9, 0x80, 1, 2, 3, 4, 5, 6, 7, 8, 9, 10, 11, 12, 13, 14, 15, 16, 17,
        ],
        b"w0102030405060708090a0b0c0d0e0f1011",
    ),
    (&[0x50], b"u5"),
    (&[0x02], b"a0"),
    (&[0x03], b"x0"),
    (&[0x0b, 0x01], b"x1"),
    (&[0x04], b"y0"),
    (&[0x35], b"f3"),
    (&[0x0e, 0x41], b"h65"),
    (&[0x27, 0x00], b"fr0"),
    (&[0x47, 0x70], b"l7"),
    (&[0x57, 0x03, 0x70], b"x0/7"),
    (&[0x17, 0x20, 0x12, 0x25], b"[a1,f2]"),
    (&[0x17, 0x00], b"[]"),
    (&[0x37, 0x20, 0x00, 0x50, 0x20, 0x10], b"{0:5,2:1}"),
    (&[0x37, 0x00], b"{}"),
];

#[test]
fn operands_have_texts(rt: HostRuntime) -> Result<(), Fail> {
    for (bytes, expected) in OPERANDS {
        let operand = read_operand(rt.alloc(), &mut Cursor::new(bytes))?;
        let mut out = Bytes::new(rt.alloc());
        put_operand(&mut out, &operand)?;
        assert_eq!(rt; out.as_slice(), expected);
    }
    Ok(())
}

// Texts of no operand: numbers have neither sign nor leading zeros and are within their bounds,
// digits of bytes are in lower case, and separators stand between members alone.
const REFUSED: [&[u8]; 45] = [
    b"",
    b"i",
    b"i-0",
    b"i-",
    b"i+1",
    b"i01",
    b"i170141183460469231731687303715884105728",
    b"i-170141183460469231731687303715884105729",
    b"u01",
    b"u+1",
    b"u-1",
    b"u18446744073709551616",
    b"w",
    b"w0102030405060708090a0b0c0d0e0f10",
    b"w0102030405060708090A0B0C0D0E0F1011",
    b"w0102030405060708090a0b0c0d0e0f1011f",
    b"a4294967296",
    b"a-1",
    b"x",
    b"x4294967296",
    b"x3/",
    b"x3/7/8",
    b"/7",
    b"f3/7",
    b"f",
    b"fr",
    b"fr-1",
    b"f4294967296",
    b"h4294967296",
    b"l18446744073709551616",
    b"q1",
    b"1",
    b"X0",
    b"a1 ",
    b"[",
    b"[a1",
    b"a1]",
    b"[]]",
    b"[[]]",
    b"[a1,]",
    b"[,]",
    b"[a1, f2]",
    b"{",
    b"{0}",
    b"{0:1:2}",
];

#[test]
fn texts_are_read_back(rt: HostRuntime) -> Result<(), Fail> {
    for (_, text) in OPERANDS {
        let mut out = Bytes::new(rt.alloc());
        put_operand(&mut out, &read_operand_text(rt.alloc(), text)?)?;
        assert_eq!(rt; out.as_slice(), text);
    }
    let most = b"i-170141183460469231731687303715884105728";
    let operand = read_operand_text(rt.alloc(), most)?;
    assert!(rt; matches!(&operand, Operand::One(Plain::I(n)) if n.value() == i128::MIN));
    Ok(())
}

#[test]
fn other_texts_are_refused(rt: HostRuntime) -> Result<(), Fail> {
    for text in REFUSED {
        let refused = read_operand_text(rt.alloc(), text);
        assert!(rt; matches!(&refused, Err(TextRefusal::Wrong)));
    }
    Ok(())
}
