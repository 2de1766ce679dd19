use super::*;
use Reason::{Index, Label, Operand, Target, Unsupported};
use action_rules::Reason;
use beam_module::open_module;
use bk_base::Bytes;
use iff_form::{Id, put_chunk, put_head};
use std::test::Fail;

// The atoms m, f, erlang, error, exit and throw.
const ATOMS: &[u8] = b"\0\0\0\x06\x01m\x01f\x06erlang\x05error\x04exit\x05throw";

// m:error/1, erlang:error/1, erlang:error/2, erlang:error/3, erlang:exit/1, erlang:throw/1,
// erlang:exit/2 and erlang:error/4.
const IMPORTS: &[u8] = b"\0\0\0\x08\
\0\0\0\x01\0\0\0\x04\0\0\0\x01\
\0\0\0\x03\0\0\0\x04\0\0\0\x01\
\0\0\0\x03\0\0\0\x04\0\0\0\x02\
\0\0\0\x03\0\0\0\x04\0\0\0\x03\
\0\0\0\x03\0\0\0\x05\0\0\0\x01\
\0\0\0\x03\0\0\0\x06\0\0\0\x01\
\0\0\0\x03\0\0\0\x05\0\0\0\x02\
\0\0\0\x03\0\0\0\x04\0\0\0\x04";

// A fun of f/1.
const FUNS: &[u8] = b"\0\0\0\x01\0\0\0\x02\0\0\0\x01\0\0\0\x02\0\0\0\0\0\0\0\0\0\0\0\0";

const TWO_LITERALS: &[u8] = b"\0\0\0\0\0\0\0\x02\0\0\0\x03\x83\x61\x05\0\0\0\x02\x83\x46";

const PACKED: &[u8] = b"\0\0\0\x09\0";

// The header of code of six labels and two functions, and the front of f/1, which is entered at
// label 2.
const FRONT: &[u8] =
    b"\0\0\0\x10\0\0\0\0\0\0\0\xb6\0\0\0\x06\0\0\0\x02\x01\x10\x02\x12\x22\x10\x01\x20";

// f/0 with label 3, which is entered at label 4 and has label 5.
const BACK: &[u8] = b"\x01\x30\x02\x12\x22\x00\x01\x40\x01\x50\x13\x03";

// A module whose function f/1 has this code behind its entry label.
fn module_of(rt: &impl AllocGlobal, literals: &[u8], instrs: &[u8]) -> Result<Bytes, Fail> {
    let mut code = Bytes::new(rt.alloc());
    code.extend(FRONT)?;
    code.extend(instrs)?;
    code.extend(BACK)?;
    let mut body = Bytes::new(rt.alloc());
    for (id, payload) in [
        (Id(*b"AtU8"), ATOMS),
        (Id(*b"ImpT"), IMPORTS),
        (Id(*b"FunT"), FUNS),
        (Id(*b"LitT"), literals),
        (Id(*b"Code"), code.as_slice()),
    ] {
        if u32::try_from(payload.len()).is_ok() {
            put_chunk(&mut body, id, payload)?;
        }
    }
    let size = u32::try_from(body.len()).unwrap_or(0);
    let mut file = Bytes::new(rt.alloc());
    put_head(&mut file, size.saturating_add(4))?;
    file.extend(body.as_slice())?;
    Ok(file)
}

// Instructions, each with what is wrong with it.
const FAULTS: [(&[u8], Option<Reason>); 29] = [
    // init y0
    (b"\x11\x04", Some(Unsupported)),
    // move: a number, to a number, of atoms 6 and 7, of literals 1 and 2
    (b"\x40\x00\x03", Some(Operand(1))),
    (b"\x40\x03\x00", Some(Operand(2))),
    (b"\x40\x62\x03", None),
    (b"\x40\x72\x03", Some(Index(1))),
    (b"\x40\x47\x10\x03", None),
    (b"\x40\x47\x20\x03", Some(Index(1))),
    // move of atom 7 to a number
    (b"\x40\x72\x00", Some(Index(1))),
    // call_ext of imports 7 and 8, and make_fun3 of funs 0 and 1
    (b"\x07\x10\x70", None),
    (b"\x07\x10\x80", Some(Index(2))),
    (b"\xab\x00\x03\x17\x00", None),
    (b"\xab\x10\x03\x17\x00", Some(Index(1))),
    // put_tuple2 of x9 and the empty list, and of x9 and atom 7
    (b"\xa4\x03\x17\x20\x93\x02", None),
    (b"\xa4\x03\x17\x20\x93\x72", Some(Index(2))),
    // jump to labels 2, 3 and 0
    (b"\x3d\x25", None),
    (b"\x3d\x35", Some(Label(1))),
    (b"\x3d\x05", Some(Operand(1))),
    // bif1 that fails at labels 1, 3 and 0
    (b"\x0a\x15\x00\x03\x03", None),
    (b"\x0a\x35\x00\x03\x03", Some(Label(1))),
    (b"\x0a\x05\x00\x03\x03", None),
    // select_val by x11 to labels 2 and 3, and by atom 7 to label 3
    (b"\x3b\x03\x25\x17\x20\xb3\x25", None),
    (b"\x3b\x03\x25\x17\x20\xb3\x35", Some(Label(3))),
    (b"\x3b\x03\x25\x17\x20\x72\x35", Some(Index(3))),
    // select_val that goes on at label 3, by atom 7 to label 3
    (b"\x3b\x03\x35\x17\x20\x72\x35", Some(Label(2))),
    // call of f/0, of its labels 5 and 3, and of f/0 with an argument
    (b"\x04\x00\x45", None),
    (b"\x04\x00\x55", Some(Target(2))),
    (b"\x04\x00\x35", Some(Target(2))),
    (b"\x04\x10\x45", Some(Target(2))),
    // call of a label that there is not
    (b"\x04\x10\x65", Some(Target(2))),
];

fn faulty_code(rt: &impl AllocGlobal) -> Result<Bytes, Fail> {
    let mut code = Bytes::new(rt.alloc());
    for (instr, _) in &FAULTS {
        code.extend(instr)?;
    }
    Ok(code)
}

#[test]
fn the_first_fault_is_told(rt: HostRuntime) -> Result<(), Fail> {
    let code = faulty_code(&rt)?;
    let file = module_of(&rt, TWO_LITERALS, code.as_slice())?;
    let m = open_module(rt.alloc(), file.as_slice())?;
    let f = m.function(0).ok_or("no function")?;
    assert_eq!(rt; f.instrs().len(), 32);
    for (i, (instr, (_, fault))) in f.instrs().iter().skip(3).zip(&FAULTS).enumerate() {
        assert_eq!(rt; instruction_fault(&m, &f, instr), *fault, "at {i}");
    }
    assert_eq!(rt; x_bound(&f), 10);
    sound_instructions_have_plans();
    sound_instructions_stay_inside();
    sound_calls_have_targets();
    named_registers_are_counted();
    Ok(())
}

#[test]
fn packed_literals_are_not_looked_at(rt: HostRuntime) -> Result<(), Fail> {
    let file = module_of(&rt, PACKED, b"\x40\x47\x20\x03")?;
    let m = open_module(rt.alloc(), file.as_slice())?;
    let f = m.function(0).ok_or("no function")?;
    let instr = f.instrs().get(3).ok_or("no instruction")?;
    assert!(rt; instruction_fault(&m, &f, instr).is_none());
    Ok(())
}

// call_ext of each import, and of one that there is not.
const CALLS: &[u8] = b"\x07\x10\x00\x07\x10\x10\x07\x10\x20\x07\x10\x30\x07\x10\x40\
\x07\x10\x50\x07\x10\x60\x07\x10\x70\x07\x10\x80";

const ENDS: [bool; 9] = [false, true, true, true, true, true, false, false, false];

#[test]
fn five_calls_never_return(rt: HostRuntime) -> Result<(), Fail> {
    let file = module_of(&rt, TWO_LITERALS, CALLS)?;
    let m = open_module(rt.alloc(), file.as_slice())?;
    let f = m.function(0).ok_or("no function")?;
    assert_eq!(rt; f.instrs().len(), 12);
    for (i, (instr, never)) in f.instrs().iter().skip(3).zip(&ENDS).enumerate() {
        assert_eq!(rt; ends(&m, instr), *never, "at {i}");
    }
    let other = m.function(1).ok_or("no function")?;
    assert_eq!(rt; x_bound(&other), 3);
    Ok(())
}
