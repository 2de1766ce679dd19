ghost use Rattle.std.specs.Prelude.{◌<◌, ◌^◌, length};

use super::*;
use compact_term::{Operand, OperandRefusal, Plain};
use std::process::Abort;
use std::test::Fail;

// The size of the sub-header, and its four words: format 0, opcode 3, one label and no function.
const HEADER: [u8; 20] = [0, 0, 0, 16, 0, 0, 0, 0, 0, 0, 0, 3, 0, 0, 0, 1, 0, 0, 0, 0];

// What follows the header, and how it is refused.
const REFUSED: [(&[u8], CodeRefusal); 9] = [
    (&[0xb7], CodeRefusal::Opcode { at: 20, op: 183 }),
    (&[0x00], CodeRefusal::Opcode { at: 20, op: 0 }),
    (
        &[3, 0x40, 3, 0x13, 0xff],
        CodeRefusal::Opcode { at: 24, op: 255 },
    ),
    // an operand's own refusal, and its offset
    (
        &[0x40, 0x03, 0x07],
        CodeRefusal::Operand {
            at: 22,
            why: OperandRefusal::Extended { value: 0 },
        },
    ),
    // the offset is that of the whole operand, and not of the member that is wrong
    (
        &[0xa4, 0x03, 0x17, 0x20, 0x10, 0x17, 0x00],
        CodeRefusal::Operand {
            at: 22,
            why: OperandRefusal::Nested,
        },
    ),
    // cut instructions
    (
        &[3, 0x40],
        CodeRefusal::Operand {
            at: 22,
            why: OperandRefusal::Cut,
        },
    ),
    (
        &[3, 0x40, 0x03],
        CodeRefusal::Operand {
            at: 23,
            why: OperandRefusal::Cut,
        },
    ),
    (
        &[0x01, 0x08],
        CodeRefusal::Operand {
            at: 21,
            why: OperandRefusal::Cut,
        },
    ),
    // an allocation list that states 2^64 - 1 pairs and has one
    (
        &[
            0x0c, 0x37, 0xf8, 0x00, 0x00, 0xff, 0xff, 0xff, 0xff, 0xff, 0xff, 0xff, 0xff, 0x00,
            0x50,
        ],
        CodeRefusal::Operand {
            at: 21,
            why: OperandRefusal::Cut,
        },
    ),
];

#[test]
fn code_is_read(rt: HostRuntime) -> Result<(), Fail> {
    let mut payload = vec![in rt.alloc(); 0, 0, 0, 18]?;
    payload.extend_from_slice(&HEADER[4..])?;
    payload.extend_from_slice(&[7, 8, 0x40, 0x03, 0x0b, 0x01, 0x03])?;
    let code = read_code(rt.alloc(), payload.as_slice())?;
    assert_eq!(rt; code.extra.as_slice(), [7, 8].as_slice());
    assert_eq!(rt; (code.max_op, code.labels, code.functions), (3, 1, 0));
    assert_eq!(rt; (code.instrs.len(), code.instrs.is_empty()), (2, false));
    let first = code.instrs.get(0).ok_or("no instruction")?;
    assert_eq!(rt; first.op(), 64);
    assert!(rt;
        matches!(
            first.operands().as_slice(),
            [Operand::One(Plain::X(0)), Operand::One(Plain::X(1))]
        )
    );
    assert_eq!(rt; code.instrs.as_slice()[1].op(), 3);
    assert!(rt; InstrList::new(rt.alloc()).is_empty());
    reading_is_exact();
    one_instr_form();
    one_code();
    one_stop();
    Ok(())
}

// Puts the operands u0 to u299, each in two bytes and behind the same front.
fn put_numbers(out: &mut Vec<u8>, front: &[u8]) -> Result<(), Fail> {
    for n in 0..300u16 {
        let first = if n < 256 { 0x08 } else { 0x28 };
        out.extend_from_slice(front)?;
        out.extend_from_slice(&[first, (n % 256) as u8])?;
    }
    Ok(())
}

#[test]
fn long_code_is_read_whole(rt: HostRuntime) -> Result<(), Fail> {
    let mut payload = Vec::new(rt.alloc());
    payload.extend_from_slice(&HEADER)?;
    // 300 labels, and a select_val with a list of 300 members
    put_numbers(&mut payload, &[1])?;
    payload.extend_from_slice(&[0x3b, 0x03, 0x15, 0x17, 0x28, 0x2c])?;
    put_numbers(&mut payload, &[])?;
    let code = read_code(rt.alloc(), payload.as_slice())?;
    assert_eq!(rt; code.instrs.len(), 301);
    let (select, labels) = code.instrs.as_slice().split_last().ok_or("no code")?;
    for (i, label) in labels.iter().enumerate() {
        assert_eq!(rt; label.op(), 1);
        assert!(rt;
            matches!(label.operands().as_slice(), [Operand::One(Plain::U(n))] if *n == i as u64)
        );
    }
    let Some(Operand::List(members)) = select.operands().get(2) else {
        return Err("no list".into());
    };
    assert_eq!(rt; members.len(), 300);
    for (i, member) in members.as_slice().iter().enumerate() {
        assert!(rt; matches!(member, Plain::U(n) if *n == i as u64));
    }
    Ok(())
}

// Reads a payload, and compares what is written of its code.
fn writes(rt: &(impl Abort + AllocGlobal), payload: &[u8], written: &[u8]) -> Result<(), Fail>
    requires { length payload.now < 2 ^ 32 }
{
    canonical_code_is_shortest();
    let code = read_code(rt.alloc(), payload)?;
    let found = write_code(rt.alloc(), &code)?;
    assert_eq!(rt; found.as_slice(), written);
    Ok(())
}

#[test]
fn code_is_written(rt: HostRuntime) -> Result<(), Fail> {
    // x1 in two bytes, which is written in one
    writes(
        &rt,
        b"\0\0\0\x10\0\0\0\0\0\0\0\x03\0\0\0\x01\0\0\0\0\x40\x03\x0b\x01\x03",
        b"\0\0\0\x10\0\0\0\0\0\0\0\x03\0\0\0\x01\0\0\0\0\x40\x03\x13\x03",
    )?;
    // two extra bytes in the sub-header
    let extra = b"\0\0\0\x12\0\0\0\0\0\0\0\x03\0\0\0\x01\0\0\0\0\x07\x08\x40\x03\x13\x03";
    writes(&rt, extra, extra)?;
    canonical_instr_is_spelled();
    canonical_code_is_spelled();
    spelled_code_is_bytes();
    spelled_code_is_proper();
    Ok(())
}

#[test]
fn wrong_code_is_refused(rt: HostRuntime) -> Result<(), Fail> {
    for (instrs, refusal) in REFUSED {
        let mut payload = Vec::new(rt.alloc());
        payload.extend_from_slice(&HEADER)?;
        payload.extend_from_slice(instrs)?;
        match read_code(rt.alloc(), payload.as_slice()) {
            Ok(_) => return Err("no refusal".into()),
            Err(found) => assert_eq!(rt; found, refusal),
        }
    }
    // cut before and in the sub-header, too short, and of another format
    let mut short = HEADER;
    short[3] = 15;
    let mut format = HEADER;
    format[7] = 1;
    for payload in [&[], &HEADER[..3], &HEADER[..19], &short, &format] {
        let found = read_code(rt.alloc(), payload);
        assert!(rt; matches!(found, Err(CodeRefusal::Header)));
    }
    let refusal = CodeRefusal::Operand {
        at: 22,
        why: OperandRefusal::Nested,
    };
    let text = format!(in rt.alloc(); "{refusal}")?;
    assert_eq!(rt; text.as_str(), "operand at 22: a list stands in a list");
    Ok(())
}
