use super::*;
use crate::text::put_reason;
use beam_module::open_module;
use bk_base::{Bytes, NoMemory, Steps};
use compact_term::Reg;
use std::alloc::Global;
use std::test::Fail;

// Each file has the atoms m and f.

// f/1: allocate u3 u1, deallocate u2, return.
const FRAME_SIZE: &[u8] =
    b"FOR1\0\0\0@BEAMAtU8\0\0\0\x08\0\0\0\x02\x01m\x01fCode\0\0\0#\0\0\0\x10\0\0\0\0\0\0\0\xb6\0\0\0\x0a\0\0\0\x01\x01\x10\x02\x12\x22\x10\x01 \x0c0\x10\x12 \x13\x03\0";

// f/0: move x0 x0, return. A function whose name is no atom, of two arguments: jump f9, jump f1, return.
const BOTH_WRONG: &[u8] =
    b"FOR1\0\0\0LBEAMAtU8\0\0\0\x08\0\0\0\x02\x01m\x01fCode\0\0\0.\0\0\0\x10\0\0\0\0\0\0\0\xb6\0\0\0\x0a\0\0\0\x02\x01\x10\x02\x12\x22\0\x01 @\x03\x03\x13\x010\x02\x122 \x01@=\x95=\x15\x13\x03\0\0";

// f/0: move a0 x0, return. f/1: deallocate u0, return.
const SECOND_WRONG: &[u8] =
    b"FOR1\0\0\0HBEAMAtU8\0\0\0\x08\0\0\0\x02\x01m\x01fCode\0\0\0,\0\0\0\x10\0\0\0\0\0\0\0\xb6\0\0\0\x0a\0\0\0\x02\x01\x10\x02\x12\x22\0\x01 @\x02\x03\x13\x010\x02\x12\x22\x10\x01@\x12\0\x13\x03";

const NO_FUNCTION: &[u8] =
    b"FOR1\0\0\04BEAMAtU8\0\0\0\x08\0\0\0\x02\x01m\x01fCode\0\0\0\x15\0\0\0\x10\0\0\0\0\0\0\0\xb6\0\0\0\x0a\0\0\0\0\x03\0\0\0";

const JUDGED: [(&[u8], &str); 4] = [
    (FRAME_SIZE, "f/1 4 deallocate: frame size\nrefused 1\n"),
    (
        BOTH_WRONG,
        "f/0 3 move: unset x0\nf/0 4 return: unset x0\na3/2 6 func_info: index 2\na3/2 8 jump: label 1\na3/2 9 jump: label 1\nrefused 5\n",
    ),
    (SECOND_WRONG, "f/1 8 deallocate: no frame\nrefused 1\n"),
    (NO_FUNCTION, "accepted\n"),
];

const REASONS: [(Reason, &str); 16] = [
    (Reason::Unset(Reg::X(1)), "unset x1"),
    (Reason::Slot(Reg::Y(2)), "slot y2"),
    (Reason::NoFrame, "no frame"),
    (Reason::FrameOpen, "frame open"),
    (Reason::FrameSize, "frame size"),
    (Reason::OpenTag(Reg::Y(0)), "open tag y0"),
    (Reason::Heap, "heap"),
    (Reason::Order(Reg::Y(1)), "order y1"),
    (Reason::Innermost(Reg::Y(3)), "innermost y3"),
    (Reason::Clash, "clash"),
    (Reason::Leave, "leave"),
    (Reason::Unsupported, "unsupported"),
    (Reason::Operand(1), "operand 1"),
    (Reason::Index(2), "index 2"),
    (Reason::Label(3), "label 3"),
    (Reason::Target(10), "target 10"),
];

#[derive(Drop)]
struct Visits;

// Whether the report of the module in these bytes has this text.
fn is_judged(alloc: Global, file: &[u8], text: &str) -> Result<bool, Fail> {
    let m = open_module(alloc, file)?;
    let report = validate(alloc, &m, &mut Steps::start(Visits))?;
    let written = report_text(alloc, &m, &report)?;
    Ok(written.as_slice() == text.as_bytes())
}

#[test]
fn modules_are_judged(rt: HostRuntime) -> Result<(), Fail> {
    for (file, text) in JUDGED {
        assert!(rt; is_judged(rt.alloc(), file, text)?, "at {text}");
    }
    Ok(())
}

// f/1, as large as a function may be: 199,996 times move x0 x0, return.
fn largest(alloc: Global) -> Result<Bytes, NoMemory> {
    let mut file = Bytes::new(alloc);
    file.extend(b"FOR1\0\x09\x27\xf0BEAMAtU8\0\0\0\x08\0\0\0\x02\x01m\x01f")?;
    file.extend(b"Code\0\x09\x27\xd2\0\0\0\x10\0\0\0\0\0\0\0\xb6\0\0\0\x03\0\0\0\x01")?;
    file.extend(b"\x01\x10\x02\x12\x22\x10\x01 ")?;
    for _ in 0..199_996 {
        file.extend(b"@\x03\x03")?;
    }
    file.extend(b"\x13\x03\0\0")?;
    Ok(file)
}

#[test]
fn the_largest_function_is_judged(rt: HostRuntime) -> Result<(), Fail> {
    let file = largest(rt.alloc())?;
    assert!(rt; is_judged(rt.alloc(), file.as_slice(), "accepted\n")?);
    Ok(())
}

fn is_shown(alloc: Global, reason: Reason, text: &str) -> Result<bool, NoMemory> {
    let mut out = Bytes::new(alloc);
    put_reason(&mut out, reason)?;
    Ok(out.as_slice() == text.as_bytes())
}

#[test]
fn reasons_are_shown(rt: HostRuntime) -> Result<(), Fail> {
    for (reason, text) in REASONS {
        assert!(rt; is_shown(rt.alloc(), reason, text)?, "at {text}");
    }
    Ok(())
}
