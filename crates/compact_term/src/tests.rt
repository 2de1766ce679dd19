use super::*;
use bk_base::{ByteList, Bytes, Cursor, NoMemory};
use std::alloc::Global;
use std::test::Fail;

// Each spelling with what it reads as, which takes all of its bytes, or its refusal, which moves nothing.
const OPERANDS: [(&[u8], &str); 27] = [
    (&[0xf1], "Ok(One(I(15)))"),
    (&[0x09, 0x10], "Ok(One(I(16)))"),
    (&[0xe9, 0xff], "Ok(One(I(2047)))"),
    (&[0x19, 0x08, 0x00], "Ok(One(I(2048)))"),
    (&[0x19, 0xff, 0xff], "Ok(One(I(-1)))"),
    (&[0x19, 0x80, 0x00], "Ok(One(I(-32768)))"),
    (&[0x39, 0xff, 0x7f, 0xff], "Ok(One(I(-32769)))"),
    (&[0x10], "Ok(One(U(1)))"),
    (&[0x02], "Ok(One(A(0)))"),
    (&[0x03], "Ok(One(X(0)))"),
    (&[0x0b, 0x01], "Ok(One(X(1)))"),
    (&[0x04], "Ok(One(Y(0)))"),
    (&[0x35], "Ok(One(F(3)))"),
    (&[0x36], "Ok(One(H(3)))"),
    (&[0x0e, 0x41], "Ok(One(H(65)))"),
    (&[0x27, 0x00], "Ok(One(Fr(0)))"),
    (&[0x47, 0x70], "Ok(One(Lit(7)))"),
    (&[0x57, 0x03, 0x70], "Ok(One(Typed(X(0), 7)))"),
    (&[], "Err(Cut)"),
    (&[0x07], "Err(Extended { value: 0 })"),
    (&[0x18, 0xff, 0xff], "Err(Negative { tag: 0 })"),
    (&[0xf8, 0x80], "Err(Wide { tag: 0 })"),
    (&[0x17, 0x10, 0x17, 0x00], "Err(Nested)"),
    (&[0x47, 0x01], "Err(Inner)"),
    (&[0x57, 0x02], "Err(Inner)"),
    // a list of 2 ^ 64 - 1 members, none of which is there
    (
        &[
            0x17, 0xf8, 0x00, 0x00, 0xff, 0xff, 0xff, 0xff, 0xff, 0xff, 0xff, 0xff,
        ],
        "Err(Cut)",
    ),
    // an allocation list of 2 ^ 64 - 1 pairs, none of which is there
    (
        &[
            0x37, 0xf8, 0x00, 0x00, 0xff, 0xff, 0xff, 0xff, 0xff, 0xff, 0xff, 0xff,
        ],
        "Err(Cut)",
    ),
];

#[test]
fn operands_are_read(rt: HostRuntime) -> Result<(), Fail> {
    for (bytes, expected) in OPERANDS {
        let mut cursor = Cursor::new(bytes);
        let read = read_operand(rt.alloc(), &mut cursor);
        let text = format!(in rt.alloc(); "{read:?}")?;
        assert_eq!(rt; text.as_str(), expected);
        let end = if read.is_ok() { bytes.len() } else { 0 };
        assert_eq!(rt; cursor.at(), end);
    }
    Ok(())
}

#[test]
fn operands_with_parts_are_read(rt: HostRuntime) -> Result<(), Fail> {
    let wide: [u8; 19] = [
        0xf9, 0x80, 1, 2, 3, 4, 5, 6, 7, 8, 9, 10, 11, 12, 13, 14, 15, 16, 17,
    ];
    match read_operand(rt.alloc(), &mut Cursor::new(&wide))? {
        Operand::One(Plain::Wide(bytes)) => assert_eq!(rt; bytes.as_slice(), &wide[2..]),
        _ => return Err("no wide integer".into()),
    }
    match read_operand(rt.alloc(), &mut Cursor::new(&[0x17, 0x20, 0x12, 0x25]))? {
        Operand::List(list) => {
            assert_eq!(rt; (list.len(), list.is_empty()), (2, false));
            assert!(rt; matches!(list.get(0), Some(Plain::A(1))));
            assert!(rt; matches!(list.as_slice(), [_, Plain::F(2)]));
        }
        _ => return Err("no list".into()),
    }
    match read_operand(
        rt.alloc(),
        &mut Cursor::new(&[0x37, 0x20, 0x00, 0x50, 0x20, 0x10]),
    )? {
        Operand::Alloc(pairs) => {
            assert_eq!(rt; (pairs.len(), pairs.is_empty()), (2, false));
            assert!(rt; matches!(pairs.get(0), Some((0, 5))));
            assert_eq!(rt; pairs.as_slice(), [(0, 5), (2, 1)].as_slice());
        }
        _ => return Err("no allocation list".into()),
    }
    Ok(())
}

// Each spelling with the canonical one of the same operand.
const REWRITTEN: [(&[u8], &[u8]); 14] = [
    (&[0xf1], &[0xf1]),
    (&[0x09, 0x10], &[0x09, 0x10]),
    (&[0xe9, 0xff], &[0xe9, 0xff]),
    (&[0x19, 0x08, 0x00], &[0x19, 0x08, 0x00]),
    (&[0x19, 0xff, 0xff], &[0x19, 0xff, 0xff]),
    (&[0x19, 0x80, 0x00], &[0x19, 0x80, 0x00]),
    (&[0x39, 0xff, 0x7f, 0xff], &[0x39, 0xff, 0x7f, 0xff]),
    (&[0x0b, 0x01], &[0x13]),
    (
        &[
            0xf8, 0x00, 0x00, 0xff, 0xff, 0xff, 0xff, 0xff, 0xff, 0xff, 0xff,
        ],
        &[
            0xf8, 0x00, 0x00, 0xff, 0xff, 0xff, 0xff, 0xff, 0xff, 0xff, 0xff,
        ],
    ),
    // an integer of 17 bytes
    (
        &[
            0xf9, 0x80, 1, 2, 3, 4, 5, 6, 7, 8, 9, 10, 11, 12, 13, 14, 15, 16, 17,
        ],
        &[
            0xf9, 0x80, 1, 2, 3, 4, 5, 6, 7, 8, 9, 10, 11, 12, 13, 14, 15, 16, 17,
        ],
    ),
    (&[0x57, 0x03, 0x70], &[0x57, 0x03, 0x70]),
    (
        &[0x37, 0x20, 0x00, 0x50, 0x20, 0x10],
        &[0x37, 0x20, 0x00, 0x50, 0x20, 0x10],
    ),
    (&[0x17, 0x20, 0x12, 0x25], &[0x17, 0x20, 0x12, 0x25]),
    (&[0x17, 0x10, 0x51], &[0x17, 0x10, 0x51]),
];

// How long the canonical spelling of the operand is that the bytes spell, and that spelling, written
// with room for just as many bytes.
fn rewritten(alloc: Global, bytes: &[u8]) -> Result<(usize, Bytes), Fail> {
    if bytes.len() > 100 {
        return Err("too long".into());
    }
    let operand = read_operand(alloc, &mut Cursor::new(bytes))?;
    let len = spelled_len(&operand);
    let mut out = Bytes::new(alloc);
    out.reserve(len)?;
    write_operand(&operand, &mut out)?;
    Ok((len, out))
}

#[test]
fn operands_are_written(rt: HostRuntime) -> Result<(), Fail> {
    for (bytes, expected) in REWRITTEN {
        let (len, out) = rewritten(rt.alloc(), bytes)?;
        assert_eq!(rt; out.as_slice(), expected);
        assert_eq!(rt; len, expected.len());
    }
    Ok(())
}

#[test]
fn a_list_of_300_members_is_read(rt: HostRuntime) -> Result<(), Fail> {
    let mut bytes = Bytes::new(rt.alloc());
    bytes.extend(&[0x17, 0x28, 0x2c])?;
    // the numbers from 0, each in two bytes
    for i in 0..300u64 {
        let first = if i < 256 { 0x08 } else { 0x28 };
        bytes.extend(&[first, (i % 256) as u8])?;
    }
    match read_operand(rt.alloc(), &mut Cursor::new(bytes.as_slice()))? {
        Operand::List(list) => {
            assert_eq!(rt; list.len(), 300);
            for (i, member) in list.as_slice().iter().enumerate() {
                assert!(rt; matches!(member, Plain::U(n) if *n == i as u64));
            }
        }
        _ => return Err("no list".into()),
    }
    Ok(())
}

#[test]
fn integers_hold_their_values(rt: HostRuntime) -> Result<(), Fail> {
    for z in [0, -1, i128::MAX, i128::MIN, 1 << 64, -(1 << 64) - 1] {
        assert_eq!(rt; Integer128::from(z).value(), z);
    }
    let bytes = ByteList::from_slice(rt.alloc(), &[7; 17])?;
    let wide = WideInteger::new(rt.alloc(), bytes)?;
    assert_eq!(rt; (wide.len(), wide.as_slice()), (17, [7; 17].as_slice()));
    Ok(())
}

#[test]
fn lists_hold_what_was_pushed(rt: HostRuntime) -> Result<(), Fail> {
    let mut members = PlainList::new(rt.alloc());
    members.push(Plain::U(0))?;
    assert!(rt; matches!(members.get(0), Some(Plain::U(0))) && members.get(1).is_none());
    let mut pairs = PairList::new(rt.alloc());
    pairs.push((1, 2))?;
    assert!(rt; pairs.get(0) == Some(&(1, 2)) && pairs.get(1).is_none());
    assert!(rt; matches!(Operand::default(), Operand::One(Plain::U(0))));
    let refusal = OperandRefusal::from(NoMemory);
    assert!(rt; refusal == OperandRefusal::NoMemory);
    let text = format!(in rt.alloc(); "{refusal}, {}", OperandRefusal::Wide { tag: 2 })?;
    assert_eq!(rt;
        text.as_str(),
        "out of memory, the number is too wide for tag 2"
    );
    Ok(())
}
