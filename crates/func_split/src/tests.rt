use super::*;
use bk_base::ByteList;
use code_chunk::{CodeVal, InstrList};
use compact_term::{Operand, Plain};
use op_table::{Instr, OperandList};
use std::process::Abort;
use std::test::Fail;

// An instruction, as these tests write it.
#[derive(Clone, Copy)]
enum Row {
    // label u
    Label(u64),
    // label x0
    Unnumbered,
    // line u0
    Line,
    // func_info a1 a u
    Func(u32, u64),
    // func_info a1 x0 u0
    Unnamed,
    // return
    Return,
    // int_code_end
    End,
}

use Row::{End, Func, Label, Line, Return, Unnamed, Unnumbered};

// A label and a func_info with a number that is too large.
const WIDE: Row = Label(1 << 32);

const MANY: Row = Func(2, 256);

#[tactic(auto, unfolding(op_table::specs::Table::table))]
fn func_info(rt: &impl AllocGlobal, name: Plain, arity: u64) -> Result<Instr, Fail> {
    let mut operands = OperandList::new(rt.alloc());
    operands.push(Operand::One(Plain::A(1)))?;
    operands.push(Operand::One(name))?;
    operands.push(Operand::One(Plain::U(arity)))?;
    Ok(Instr::new(2, operands))
}

#[tactic(auto, unfolding(op_table::specs::Table::table))]
fn label(rt: &impl AllocGlobal, number: Plain) -> Result<Instr, Fail> {
    let mut operands = OperandList::new(rt.alloc());
    operands.push(Operand::One(number))?;
    Ok(Instr::new(1, operands))
}

#[tactic(auto, unfolding(op_table::specs::Table::table))]
fn line(rt: &impl AllocGlobal) -> Result<Instr, Fail> {
    let mut operands = OperandList::new(rt.alloc());
    operands.push(Operand::One(Plain::U(0)))?;
    Ok(Instr::new(153, operands))
}

#[tactic(auto, unfolding(op_table::specs::Table::table))]
fn instr_of(rt: &impl AllocGlobal, row: Row) -> Result<Instr, Fail> {
    match row {
        Label(number) => label(rt, Plain::U(number)),
        Unnumbered => label(rt, Plain::X(0)),
        Line => line(rt),
        Func(name, arity) => func_info(rt, Plain::A(name), arity),
        Unnamed => func_info(rt, Plain::X(0), 0),
        Return => Ok(Instr::new(19, OperandList::new(rt.alloc()))),
        End => Ok(Instr::new(3, OperandList::new(rt.alloc()))),
    }
}

fn put_rows(rt: &impl AllocGlobal, instrs: &mut InstrList, rows: &[Row]) -> Result<(), Fail> {
    for row in rows {
        instrs.push(instr_of(rt, *row)?)?;
    }
    Ok(())
}

// Code whose header says so many labels and functions.
fn code_of(rt: &impl AllocGlobal, labels: u32, functions: u32, instrs: InstrList) -> CodeVal {
    CodeVal {
        extra: ByteList::new(rt.alloc()),
        max_op: 182,
        labels,
        functions,
        instrs,
    }
}

fn split_rows(
    rt: &impl AllocGlobal,
    rows: &[Row],
    labels: u32,
    functions: u32,
) -> Result<Result<SplitCode, SplitRefusal>, Fail> {
    let mut instrs = InstrList::new(rt.alloc());
    put_rows(rt, &mut instrs, rows)?;
    Ok(split(rt.alloc(), code_of(rt, labels, functions, instrs)))
}

// Instructions that are no functions, and where it is told why. The label count is 6.
const REFUSED: [(&[Row], usize, FunctionWhy); 29] = [
    (&[], 0, FunctionWhy::Start),
    (&[Label(1), Return, End], 0, FunctionWhy::Start),
    (
        &[Line, Label(1), Func(2, 0), Label(2), End],
        0,
        FunctionWhy::Start,
    ),
    (&[Func(2, 0), Label(2), Return, End], 0, FunctionWhy::Start),
    // Start and End, Start and Shape, Start and LabelRange at one instruction
    (&[End, End, End], 0, FunctionWhy::Start),
    (&[Return], 0, FunctionWhy::Start),
    (&[WIDE, Return, End], 0, FunctionWhy::Start),
    (&[Label(0), Return, End], 0, FunctionWhy::Start),
    // the label is the entry label of the function before
    (
        &[
            Label(1),
            Func(2, 0),
            Label(2),
            Line,
            Func(3, 0),
            Label(3),
            End,
        ],
        4,
        FunctionWhy::NoLabel,
    ),
    // good, bad, good
    (
        &[
            Label(1),
            Func(2, 0),
            Label(2),
            Func(3, 0),
            Label(3),
            Func(4, 0),
            Label(4),
            End,
        ],
        3,
        FunctionWhy::NoLabel,
    ),
    // NoLabel and NoEntry
    (
        &[Label(1), Func(2, 0), Label(2), Return, Func(3, 0), End],
        4,
        FunctionWhy::NoLabel,
    ),
    (
        &[Label(1), Func(2, 0), Return, End],
        1,
        FunctionWhy::NoEntry,
    ),
    (
        &[Label(1), Func(2, 0), Line, Label(2), End],
        1,
        FunctionWhy::NoEntry,
    ),
    // NoEntry and Shape, NoEntry and End
    (&[Label(1), MANY, Return, End], 1, FunctionWhy::NoEntry),
    (&[Label(1), Func(2, 0)], 1, FunctionWhy::NoEntry),
    (&[WIDE, Func(2, 0), Label(2), End], 0, FunctionWhy::Shape),
    (&[Label(1), Unnamed, Label(2), End], 1, FunctionWhy::Shape),
    (&[Label(1), MANY, Label(2), End], 1, FunctionWhy::Shape),
    (
        &[Label(1), Func(2, 0), Unnumbered, End],
        2,
        FunctionWhy::Shape,
    ),
    // LabelTwice and End
    (
        &[Label(1), Func(2, 0), Label(1)],
        2,
        FunctionWhy::LabelTwice,
    ),
    // a label twice before a func_info without a label
    (
        &[
            Label(1),
            Func(2, 0),
            Label(1),
            Return,
            Func(3, 0),
            Label(2),
            End,
        ],
        2,
        FunctionWhy::LabelTwice,
    ),
    (
        &[Label(0), Func(2, 0), Label(2), End],
        0,
        FunctionWhy::LabelRange,
    ),
    (
        &[Label(1), Func(2, 0), Label(6), End],
        2,
        FunctionWhy::LabelRange,
    ),
    // Shape and End, LabelRange and End
    (&[Label(1), Func(2, 0), WIDE], 2, FunctionWhy::Shape),
    (
        &[Label(1), Func(2, 0), Label(7)],
        2,
        FunctionWhy::LabelRange,
    ),
    (
        &[Label(1), Func(2, 0), Label(2), Return],
        3,
        FunctionWhy::End,
    ),
    (
        &[Label(1), Func(2, 0), Label(2), End, Return, End],
        3,
        FunctionWhy::End,
    ),
    (
        &[Label(1), Func(2, 0), Label(2), End, End],
        3,
        FunctionWhy::End,
    ),
    // a second function behind an int_code_end
    (
        &[
            Label(1),
            Func(2, 0),
            Label(2),
            Return,
            End,
            Label(3),
            Func(3, 0),
            Label(4),
            End,
        ],
        4,
        FunctionWhy::End,
    ),
];

#[test]
fn the_first_fault_is_told(rt: HostRuntime) -> Result<(), Fail> {
    for (i, (rows, at, why)) in REFUSED.iter().enumerate() {
        let refusal = split_rows(&rt, rows, 6, 1)?.err();
        let told = SplitRefusal::Functions { at: *at, why: *why };
        assert_eq!(rt; refusal, Some(told), "at {i}");
    }
    code_splits_where_nothing_is_wrong();
    one_split();
    splitting_is_exact();
    Ok(())
}

const ONE: &[Row] = &[Label(1), Func(2, 0), Label(2), Return, End];

#[test]
fn labels_and_functions_are_those_of_the_header(rt: HostRuntime) -> Result<(), Fail> {
    for (rows, labels, functions, at, why) in [
        (ONE, 3, 0, 0, FunctionWhy::Count),
        (ONE, 3, 2, 0, FunctionWhy::Count),
        (&[End], 3, 1, 0, FunctionWhy::Count),
        (ONE, 2, 1, 2, FunctionWhy::LabelRange),
        (ONE, 0, 1, 0, FunctionWhy::LabelRange),
        (
            &[Label(1), Func(2, 0), Label(1), Return, End],
            3,
            1,
            2,
            FunctionWhy::LabelTwice,
        ),
        // Count is looked at last
        (
            &[Label(1), Func(2, 0), Label(1), Return, End],
            3,
            2,
            2,
            FunctionWhy::LabelTwice,
        ),
    ] {
        let refusal = split_rows(&rt, rows, labels, functions)?.err();
        assert_eq!(rt; refusal, Some(SplitRefusal::Functions { at, why }));
    }
    for (rows, labels, functions) in [(ONE, 3, 1), (ONE, 4_000_000_000, 1), (&[End], 0, 0)] {
        let code = split_rows(&rt, rows, labels, functions)??;
        assert_eq!(rt; code.functions(), functions as usize);
    }
    let count = SplitRefusal::Functions {
        at: 0,
        why: FunctionWhy::Count,
    };
    let text = format!(in rt.alloc(); "{count}, {}", SplitRefusal::NoMemory)?;
    assert_eq!(rt;
        text.as_str(),
        "wrong count of functions at instruction 0, out of memory"
    );
    Ok(())
}

// A function of five instructions, and one of six whose label stands before two `line`.
const TWO: &[Row] = &[
    Label(1),
    Func(7, 0),
    Label(3),
    Label(2),
    Return,
    Label(5),
    Line,
    Line,
    Func(8, 255),
    Label(4),
    Return,
    End,
];

#[test]
fn functions_borrow_their_instructions(rt: HostRuntime) -> Result<(), Fail> {
    let code = split_rows(&rt, TWO, 6, 2)??;
    assert_eq!(rt; code.functions(), 2);
    for (i, first, entry, name, arity, ops) in [
        (0, 0, 2, 7, 0, [1, 2, 1, 1, 19].as_slice()),
        (1, 5, 4, 8, 255, [1, 153, 153, 2, 1, 19].as_slice()),
    ] {
        let function = code.function(i).ok_or("no function")?;
        assert_eq!(rt; (function.first(), function.entry()), (first, entry));
        assert_eq!(rt; (function.name(), function.arity()), (name, arity));
        assert_eq!(rt; function.instrs().len(), ops.len());
        for (instr, op) in function.instrs().iter().zip(ops) {
            assert_eq!(rt; instr.op(), *op);
        }
    }
    assert!(rt; code.function(2).is_none() && code.function(usize::MAX).is_none());
    Ok(())
}

#[test]
fn labels_have_places_in_their_function(rt: HostRuntime) -> Result<(), Fail> {
    let code = split_rows(&rt, TWO, 6, 2)??;
    let first = code.function(0).ok_or("no function")?;
    let second = code.function(1).ok_or("no function")?;
    for (label, in_first, in_second, arity) in [
        (0, None, None, None),
        (1, Some(0), None, None),
        (2, Some(3), None, None),
        (3, Some(2), None, Some(0)),
        (4, None, Some(4), Some(255)),
        (5, None, Some(0), None),
        (6, None, None, None),
    ] {
        assert_eq!(rt; first.place_of(label), in_first, "{label}");
        assert_eq!(rt; second.place_of(label), in_second, "{label}");
        assert_eq!(rt; code.entry_of(label), arity, "{label}");
    }
    Ok(())
}

// These instructions, so many `return`, and an end.
fn split_long(
    rt: &impl AllocGlobal,
    front: &[Row],
    returns: u32,
    end: &[Row],
) -> Result<Result<SplitCode, SplitRefusal>, Fail> {
    let mut instrs = InstrList::new(rt.alloc());
    put_rows(rt, &mut instrs, front)?;
    for _ in 0..returns {
        instrs.push(instr_of(rt, Return)?)?;
    }
    put_rows(rt, &mut instrs, end)?;
    Ok(split(rt.alloc(), code_of(rt, 5, 2, instrs)))
}

// A function of three instructions, and the first four of another.
const FRONT: &[Row] = &[
    Label(1),
    Func(2, 0),
    Label(2),
    Label(3),
    Line,
    Func(3, 0),
    Label(4),
];

// Instructions before and behind so many `return`, and what is told.
const LONG: [(&[Row], u32, &[Row], usize, FunctionWhy); 6] = [
    (FRONT, 199_997, &[End], 3, FunctionWhy::Long),
    // the last instruction is counted, since it is no int_code_end
    (FRONT, 199_997, &[], 3, FunctionWhy::Long),
    (FRONT, 199_996, &[], 200_002, FunctionWhy::End),
    // a func_info that has no label of its own begins no function
    (
        &[Label(1), Func(2, 0), Label(2), Func(3, 0), Label(3)],
        199_996,
        &[End],
        0,
        FunctionWhy::Long,
    ),
    (
        &[Label(1), Func(2, 0), Label(2), Func(3, 0), Label(3)],
        199_995,
        &[End],
        3,
        FunctionWhy::NoLabel,
    ),
    // LabelRange and Long
    (
        &[Label(0), Func(2, 0), Label(2)],
        199_998,
        &[End],
        0,
        FunctionWhy::LabelRange,
    ),
];

#[test]
fn functions_have_200_000_instructions_at_most(rt: HostRuntime) -> Result<(), Fail> {
    let code = split_long(&rt, FRONT, 199_996, &[End])??;
    let function = code.function(1).ok_or("no function")?;
    assert_eq!(rt; (function.first(), function.instrs().len()), (3, 200_000));
    for (front, returns, end, at, why) in LONG {
        let refusal = split_long(&rt, front, returns, end)?.err();
        assert_eq!(rt; refusal, Some(SplitRefusal::Functions { at, why }));
    }
    Ok(())
}
