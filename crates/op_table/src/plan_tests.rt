use super::*;
use compact_term::{Operand, PairList, Plain, PlainList};
use std::alloc::Global;
use std::test::Fail;

// An operand of a test.
#[derive(Clone, Copy)]
enum Said {
    U(u64),
    A(u32),
    X(u32),
    Y(u32),
    F(u32),
    // a list of X registers
    Xs(&'static [u32]),
    // a list of slots
    Ys(&'static [u32]),
    // a list of X registers in pairs
    Pairs(&'static [(u32, u32)]),
    // a list of atoms and labels in pairs
    Labels(&'static [(u32, u32)]),
    Need(&'static [(u64, u64)]),
}

use Said::{A, F, Labels, Need, Pairs, U, X, Xs, Y, Ys};

fn list_of(alloc: Global, said: Said) -> Result<PlainList, Fail> {
    let mut list = PlainList::new(alloc);
    match said {
        Xs(numbers) => {
            for n in numbers {
                list.push(Plain::X(*n))?;
            }
        }
        Ys(numbers) => {
            for n in numbers {
                list.push(Plain::Y(*n))?;
            }
        }
        Pairs(pairs) => {
            for (key, value) in pairs {
                list.push(Plain::X(*key))?;
                list.push(Plain::X(*value))?;
            }
        }
        Labels(pairs) => {
            for (atom, label) in pairs {
                list.push(Plain::A(*atom))?;
                list.push(Plain::F(*label))?;
            }
        }
        _ => (),
    }
    Ok(list)
}

fn operand_of(alloc: Global, said: Said) -> Result<Operand, Fail> {
    Ok(match said {
        U(n) => Operand::One(Plain::U(n)),
        A(n) => Operand::One(Plain::A(n)),
        X(n) => Operand::One(Plain::X(n)),
        Y(n) => Operand::One(Plain::Y(n)),
        F(n) => Operand::One(Plain::F(n)),
        Need(amounts) => {
            let mut pairs = PairList::new(alloc);
            for pair in amounts {
                pairs.push(*pair)?;
            }
            Operand::Alloc(pairs)
        }
        _ => Operand::List(list_of(alloc, said)?),
    })
}

fn instr_of(alloc: Global, op: u8, said: &[Said]) -> Result<Instr, Fail> {
    let mut operands = OperandList::new(alloc);
    for one in said {
        operands.push(operand_of(alloc, *one)?)?;
    }
    let row = op_row(op).ok_or("no row")?;
    if usize::from(row.arity) != operands.len() {
        return Err("another number of operands".into());
    }
    Ok(Instr::new(op, operands))
}

// An opcode, operands, and its plan.
#[rattlefmt::skip]
const PLANS: [(u8, &[Said], &str); 26] = [
    (1, &[U(7)], "Plan { before: [], fails: [], raises: false, after: [], exit: Next }"),
    (4, &[U(2), F(9)], "Plan { before: [Live(2), InFrame, FullY], fails: [], raises: false, after: [Keep(0), Write(X(0))], exit: Enter(9) }"),
    (5, &[U(1), F(9), U(4)], "Plan { before: [Live(1), DropFrame(4)], fails: [], raises: false, after: [], exit: TailLocal(9) }"),
    (7, &[U(2), U(0)], "Plan { before: [Live(2), InFrame, FullY], fails: [], raises: true, after: [Keep(0), Write(X(0))], exit: Next }"),
    (78, &[U(2), U(0)], "Plan { before: [Live(2), NoFrame], fails: [], raises: false, after: [], exit: TailExt }"),
    (75, &[U(255)], "Plan { before: [Live(256), InFrame, FullY], fails: [], raises: true, after: [Keep(0), Write(X(0))], exit: Next }"),
    (19, &[], "Plan { before: [NoFrame, Read(Reg(X(0)))], fails: [], raises: false, after: [], exit: Return }"),
    (72, &[A(0)], "Plan { before: [Read(Const)], fails: [], raises: false, after: [], exit: End }"),
    (125, &[F(0), U(3), U(1), X(1), A(2), Y(2)], "Plan { before: [Live(3), FullY, Read(Reg(X(1))), Read(Const), Keep(3)], fails: [], raises: true, after: [Write(Y(2))], exit: Next }"),
    (45, &[F(3), Y(0)], "Plan { before: [Read(Reg(Y(0)))], fails: [3], raises: false, after: [], exit: Next }"),
    (13, &[U(1), Need(&[(2, 1), (1, 3), (0, 7)]), U(2)], "Plan { before: [Live(2), NewFrame(1), Keep(2), Room(7, 1)], fails: [], raises: false, after: [], exit: Next }"),
    (16, &[U(5), U(0)], "Plan { before: [Live(0), FullY, Keep(0), Room(5, 0)], fails: [], raises: false, after: [], exit: Next }"),
    (136, &[U(1), U(2)], "Plan { before: [Trim(1, 2)], fails: [], raises: false, after: [], exit: Next }"),
    (64, &[X(1), Y(0)], "Plan { before: [Copy(Reg(X(1)), Y(0))], fails: [], raises: false, after: [], exit: Next }"),
    (169, &[X(0), X(1)], "Plan { before: [Swap(X(0), X(1))], fails: [], raises: false, after: [], exit: Next }"),
    (164, &[X(0), Xs(&[1, 2])], "Plan { before: [Read(Reg(X(1))), Read(Reg(X(2))), Take(3)], fails: [], raises: false, after: [Write(X(0))], exit: Next }"),
    (181, &[A(1), U(4_294_967_295), X(0), X(1), Xs(&[])], "Plan { before: [Read(Reg(X(0))), Take(4294967296)], fails: [], raises: false, after: [Write(X(1))], exit: Next }"),
    (171, &[U(0), X(0), Xs(&[1])], "Plan { before: [Read(Reg(X(1))), TakeFun], fails: [], raises: false, after: [Write(X(0))], exit: Next }"),
    (172, &[Ys(&[0, 1])], "Plan { before: [Write(Y(0)), Write(Y(1))], fails: [], raises: false, after: [], exit: Next }"),
    (158, &[F(5), X(0), Pairs(&[(1, 2), (3, 4)])], "Plan { before: [Read(Reg(X(0))), Read(Reg(X(1))), Read(Reg(X(3)))], fails: [5], raises: false, after: [Write(X(2)), Write(X(4))], exit: Next }"),
    (59, &[X(0), F(4), Labels(&[(1, 5), (2, 6)])], "Plan { before: [Read(Reg(X(0)))], fails: [4], raises: false, after: [], exit: Labels([5, 6]) }"),
    (62, &[Y(1), F(7)], "Plan { before: [Tag(1, 7, Catch)], fails: [], raises: false, after: [], exit: Next }"),
    (63, &[Y(0)], "Plan { before: [Untag(0, Catch), Caught], fails: [], raises: false, after: [], exit: Next }"),
    (106, &[Y(1)], "Plan { before: [Untag(1, Try), Landed], fails: [], raises: false, after: [], exit: Next }"),
    (26, &[F(3), X(0)], "Plan { before: [Read(Reg(X(0))), FullY, Keep(0)], fails: [3], raises: true, after: [], exit: Next }"),
    (177, &[F(0), U(4), U(1), U(8), X(0), Xs(&[1])], "Plan { before: [Live(1), FullY, Read(Reg(X(1))), Keep(1)], fails: [], raises: true, after: [Room(4, 0), Write(X(0))], exit: Next }"),
];

#[test]
fn instructions_have_plans(rt: HostRuntime) -> Result<(), Fail> {
    for (op, said, text) in PLANS {
        let instr = instr_of(rt.alloc(), op, said)?;
        let made = plan(rt.alloc(), &instr, false)?;
        let told = format!(in rt.alloc(); "{made:?}")?;
        assert_eq!(rt; told.as_str(), text);
    }
    Ok(())
}

#[test]
fn calls_that_never_return_have_another_plan(rt: HostRuntime) -> Result<(), Fail> {
    let call = instr_of(rt.alloc(), 7, &[U(1), U(3)])?;
    let made = plan(rt.alloc(), &call, true)?;
    assert!(rt; matches!(made.before.as_slice(), [Action::Live(1), Action::FullY]));
    assert!(rt; matches!(made.exit, Exit::End) && !made.raises && made.after.is_empty());
    let last = instr_of(rt.alloc(), 78, &[U(1), U(3)])?;
    let made = plan(rt.alloc(), &last, true)?;
    assert!(rt; matches!(made.exit, Exit::TailExt));
    Ok(())
}

#[test]
fn some_instructions_have_no_plans(rt: HostRuntime) -> Result<(), Fail> {
    // an opcode, operands, and why there is no plan
    let refused: [(u8, &[Said], PlanRefusal); 5] = [
        (3, &[], PlanRefusal::Unsupported { op: 3 }),
        (
            131,
            &[F(0), X(0), U(1)],
            PlanRefusal::Unsupported { op: 131 },
        ),
        (64, &[X(1023), U(0)], PlanRefusal::Shape { operand: 1 }),
        (64, &[X(0), A(0)], PlanRefusal::Shape { operand: 2 }),
        (61, &[F(0)], PlanRefusal::Shape { operand: 1 }),
    ];
    for (op, said, why) in refused {
        let instr = instr_of(rt.alloc(), op, said)?;
        assert!(rt; matches!(plan(rt.alloc(), &instr, false), Err(e) if e == why));
    }
    Ok(())
}
