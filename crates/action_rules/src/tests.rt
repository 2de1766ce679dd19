use super::*;
use bk_base::{ItemList, NoMemory, TagKind};
use compact_term::Reg;
use op_table::{Action, Src};
use reg_state::{FrameState, Kind, Slot, State, below};
use std::alloc::Global;
use std::test::Fail;

const CATCH: Slot = Slot::Tag {
    label: 5,
    kind: TagKind::Catch,
};

const TRY: Slot = Slot::Tag {
    label: 6,
    kind: TagKind::Try,
};

const TERM: Slot = Slot::Is(Kind::Term);

const CONTEXT: Slot = Slot::Is(Kind::Context);

const UNSET: Slot = Slot::Is(Kind::Unset);

const X0: Reg = Reg::X(0);

const X1: Reg = Reg::X(1);

const X2: Reg = Reg::X(2);

const Y0: Reg = Reg::Y(0);

const Y1: Reg = Reg::Y(1);

const Y2: Reg = Reg::Y(2);

const Y3: Reg = Reg::Y(3);

const Y4: Reg = Reg::Y(4);

#[derive(Clone, Copy)]
enum Shape {
    Absent,
    Slots(&'static [Slot]),
    Clash,
}

type Row = (&'static [Kind], Shape, u64, u64);

fn list<T: Copy + Drop>(alloc: Global, items: &[T]) -> Result<ItemList<T>, NoMemory> {
    let mut list = ItemList::new(alloc);
    for item in items {
        list.push(*item)?;
    }
    Ok(list)
}

fn state(alloc: Global, row: Row) -> Result<State, NoMemory> {
    let frame = match row.1 {
        Shape::Absent => FrameState::Absent,
        Shape::Slots(slots) => FrameState::Slots(list(alloc, slots)?),
        Shape::Clash => FrameState::Clash,
    };
    Ok(State {
        x: list(alloc, row.0)?,
        frame,
        words: row.2,
        funs: row.3,
    })
}

fn is_state(alloc: Global, s: &State, row: Row) -> Result<bool, NoMemory> {
    let wanted = state(alloc, row)?;
    Ok(below(s, &wanted) && below(&wanted, s))
}

// A state, and actions with the reasons why they aren't accepted there.
const NEEDS: [(Row, &[(Action, Option<Reason>)]); 6] = [
    // a mark beside a term, no frame
    (
        (&[Kind::Context, Kind::Caught], Shape::Absent, 3, 1),
        &[
            (Action::Read(Src::Const), None),
            (Action::Read(Src::Reg(X0)), None),
            (Action::Read(Src::Reg(X1)), Some(Reason::Unset(X1))),
            (Action::Read(Src::Reg(X2)), Some(Reason::Unset(X2))),
            (Action::Read(Src::Reg(Y0)), Some(Reason::NoFrame)),
            (Action::Live(1), None),
            (Action::Live(3), Some(Reason::Unset(X1))),
            (Action::FullY, None),
            (Action::Keep(0), None),
            (Action::Room(9, 9), None),
            (Action::Take(3), None),
            (Action::Take(4), Some(Reason::Heap)),
            (Action::TakeFun, None),
            (Action::Write(X2), None),
            (Action::Write(Y0), Some(Reason::NoFrame)),
            (Action::Copy(Src::Const, Y0), Some(Reason::NoFrame)),
            (Action::Swap(X2, X1), Some(Reason::Unset(X2))),
            (Action::Swap(X0, X1), Some(Reason::Unset(X1))),
            (Action::NewFrame(2), None),
            (Action::DropFrame(0), Some(Reason::NoFrame)),
            (Action::Trim(0, 0), Some(Reason::NoFrame)),
            (Action::InFrame, Some(Reason::NoFrame)),
            (Action::NoFrame, None),
            (Action::Tag(0, 5, TagKind::Catch), Some(Reason::NoFrame)),
            (Action::Untag(0, TagKind::Catch), Some(Reason::NoFrame)),
            (Action::Caught, None),
            (Action::Landed, Some(Reason::Unset(X0))),
        ],
    ),
    // two handlers above two slots
    (
        (
            &[Kind::Term, Kind::Term],
            Shape::Slots(&[TERM, UNSET, CATCH, TRY]),
            0,
            0,
        ),
        &[
            (Action::Live(2), None),
            (Action::Live(3), Some(Reason::Unset(X2))),
            (Action::Take(0), None),
            (Action::Take(1), Some(Reason::Heap)),
            (Action::TakeFun, Some(Reason::Heap)),
            (Action::Read(Src::Reg(Y0)), None),
            (Action::Read(Src::Reg(Y1)), Some(Reason::Unset(Y1))),
            (Action::Read(Src::Reg(Y2)), Some(Reason::Unset(Y2))),
            (Action::Read(Src::Reg(Y4)), Some(Reason::Slot(Y4))),
            (Action::FullY, Some(Reason::Unset(Y1))),
            (Action::Write(Y1), None),
            (Action::Write(Y2), Some(Reason::OpenTag(Y2))),
            (Action::Write(Y4), Some(Reason::Slot(Y4))),
            (Action::Copy(Src::Reg(Y1), Y2), Some(Reason::Unset(Y1))),
            (Action::Copy(Src::Reg(X0), Y2), Some(Reason::OpenTag(Y2))),
            (Action::Swap(X0, Y0), None),
            (Action::Swap(Y0, Y1), Some(Reason::Unset(Y1))),
            (Action::NewFrame(0), Some(Reason::FrameOpen)),
            (Action::NoFrame, Some(Reason::FrameOpen)),
            (Action::InFrame, None),
            (Action::DropFrame(3), Some(Reason::FrameSize)),
            (Action::DropFrame(4), Some(Reason::OpenTag(Y2))),
            (Action::Trim(2, 2), None),
            (Action::Trim(3, 1), Some(Reason::OpenTag(Y2))),
            (Action::Trim(2, 3), Some(Reason::FrameSize)),
            (Action::Tag(1, 7, TagKind::Try), None),
            (Action::Tag(2, 7, TagKind::Try), Some(Reason::Order(Y2))),
            (Action::Tag(3, 7, TagKind::Try), Some(Reason::Order(Y3))),
            (Action::Tag(4, 7, TagKind::Try), Some(Reason::Slot(Y4))),
            (Action::Untag(2, TagKind::Catch), None),
            (Action::Untag(2, TagKind::Try), Some(Reason::Innermost(Y2))),
            (Action::Untag(3, TagKind::Try), Some(Reason::Innermost(Y3))),
            (
                Action::Untag(1, TagKind::Catch),
                Some(Reason::Innermost(Y1)),
            ),
            (Action::Untag(4, TagKind::Catch), Some(Reason::Slot(Y4))),
        ],
    ),
    // a term or a mark, and a full frame
    (
        (&[Kind::Loose], Shape::Slots(&[CONTEXT, CATCH]), 0, 0),
        &[
            (Action::Read(Src::Reg(X0)), Some(Reason::Unset(X0))),
            (Action::FullY, None),
            (Action::Caught, None),
            (Action::Landed, Some(Reason::Unset(X0))),
        ],
    ),
    // a mark, and a frame without slots
    (
        (&[Kind::Caught], Shape::Slots(&[]), 0, 0),
        &[
            (Action::Caught, None),
            (Action::Landed, None),
            (Action::DropFrame(0), None),
        ],
    ),
    // nothing in x0, and a frame without handlers
    (
        (&[], Shape::Slots(&[UNSET, TERM]), 0, 0),
        &[
            (Action::Caught, Some(Reason::Unset(X0))),
            (Action::DropFrame(2), None),
            (Action::Live(0), None),
        ],
    ),
    // a frame that isn't known
    (
        (&[Kind::Term], Shape::Clash, 0, 0),
        &[
            (Action::Read(Src::Reg(X0)), None),
            (Action::Read(Src::Reg(Y0)), Some(Reason::Clash)),
            (Action::FullY, Some(Reason::Clash)),
            (Action::Keep(0), None),
            (Action::Write(X0), None),
            (Action::Write(Y0), Some(Reason::Clash)),
            (Action::Copy(Src::Const, Y0), Some(Reason::Clash)),
            (Action::Swap(X0, Y0), Some(Reason::Clash)),
            (Action::NewFrame(1), Some(Reason::Clash)),
            (Action::DropFrame(1), Some(Reason::Clash)),
            (Action::Trim(1, 1), Some(Reason::Clash)),
            (Action::InFrame, Some(Reason::Clash)),
            (Action::NoFrame, Some(Reason::Clash)),
            (Action::Tag(0, 5, TagKind::Catch), Some(Reason::Clash)),
            (Action::Untag(0, TagKind::Catch), Some(Reason::Clash)),
        ],
    ),
];

// An action, a state, and what the action makes of it.
const EFFECTS: [(Action, Row, Row); 41] = [
    // actions that only need something
    (
        Action::Read(Src::Reg(X0)),
        (&[Kind::Caught], Shape::Slots(&[UNSET]), 2, 1),
        (&[Kind::Caught], Shape::Slots(&[UNSET]), 2, 1),
    ),
    (
        Action::Live(2),
        (&[Kind::Term], Shape::Absent, 2, 1),
        (&[Kind::Term], Shape::Absent, 2, 1),
    ),
    (
        Action::FullY,
        (&[], Shape::Slots(&[UNSET]), 2, 1),
        (&[], Shape::Slots(&[UNSET]), 2, 1),
    ),
    (
        Action::InFrame,
        (&[], Shape::Absent, 0, 0),
        (&[], Shape::Absent, 0, 0),
    ),
    (
        Action::NoFrame,
        (&[], Shape::Slots(&[TERM]), 0, 0),
        (&[], Shape::Slots(&[TERM]), 0, 0),
    ),
    // registers and what is reserved
    (
        Action::Keep(1),
        (&[Kind::Context, Kind::Term], Shape::Slots(&[TERM]), 4, 1),
        (&[Kind::Context], Shape::Slots(&[TERM]), 0, 0),
    ),
    (
        Action::Room(3, 2),
        (&[Kind::Term], Shape::Absent, 7, 0),
        (&[Kind::Term], Shape::Absent, 3, 2),
    ),
    (
        Action::Take(2),
        (&[], Shape::Absent, 5, 1),
        (&[], Shape::Absent, 3, 1),
    ),
    (
        Action::Take(9),
        (&[], Shape::Absent, 5, 1),
        (&[], Shape::Absent, 0, 1),
    ),
    (
        Action::TakeFun,
        (&[], Shape::Absent, 5, 2),
        (&[], Shape::Absent, 5, 1),
    ),
    (
        Action::TakeFun,
        (&[], Shape::Absent, 5, 0),
        (&[], Shape::Absent, 5, 0),
    ),
    // writes, of which those to a tagged or a missing slot change nothing
    (
        Action::Write(X2),
        (&[Kind::Context], Shape::Absent, 0, 0),
        (
            &[Kind::Context, Kind::Unset, Kind::Term],
            Shape::Absent,
            0,
            0,
        ),
    ),
    (
        Action::Write(Y0),
        (&[], Shape::Slots(&[UNSET, UNSET]), 0, 0),
        (&[], Shape::Slots(&[TERM, UNSET]), 0, 0),
    ),
    (
        Action::Write(Y0),
        (&[], Shape::Slots(&[CATCH]), 0, 0),
        (&[], Shape::Slots(&[CATCH]), 0, 0),
    ),
    (
        Action::Write(Y1),
        (&[], Shape::Slots(&[UNSET]), 0, 0),
        (&[], Shape::Slots(&[UNSET]), 0, 0),
    ),
    (
        Action::Write(Y0),
        (&[], Shape::Absent, 0, 0),
        (&[], Shape::Absent, 0, 0),
    ),
    (
        Action::Write(Y0),
        (&[], Shape::Clash, 0, 0),
        (&[], Shape::Clash, 0, 0),
    ),
    // copies, which leave nothing known of what is no term
    (
        Action::Copy(Src::Const, Y0),
        (&[], Shape::Slots(&[UNSET]), 0, 0),
        (&[], Shape::Slots(&[TERM]), 0, 0),
    ),
    (
        Action::Copy(Src::Reg(X0), X1),
        (&[Kind::Context], Shape::Absent, 0, 0),
        (&[Kind::Context, Kind::Context], Shape::Absent, 0, 0),
    ),
    (
        Action::Copy(Src::Reg(X0), X1),
        (&[Kind::Caught, Kind::Term], Shape::Absent, 0, 0),
        (&[Kind::Caught], Shape::Absent, 0, 0),
    ),
    (
        Action::Copy(Src::Reg(X0), Y0),
        (&[Kind::Loose], Shape::Slots(&[TERM]), 0, 0),
        (&[Kind::Loose], Shape::Slots(&[UNSET]), 0, 0),
    ),
    (
        Action::Copy(Src::Reg(Y0), X0),
        (&[Kind::Term], Shape::Slots(&[CATCH]), 0, 0),
        (&[], Shape::Slots(&[CATCH]), 0, 0),
    ),
    (
        Action::Copy(Src::Reg(Y1), X0),
        (&[Kind::Term], Shape::Slots(&[TERM]), 0, 0),
        (&[], Shape::Slots(&[TERM]), 0, 0),
    ),
    (
        Action::Copy(Src::Reg(Y0), X0),
        (&[Kind::Term], Shape::Clash, 0, 0),
        (&[], Shape::Clash, 0, 0),
    ),
    // exchanges
    (
        Action::Swap(X0, X1),
        (&[Kind::Context, Kind::Term], Shape::Absent, 0, 0),
        (&[Kind::Term, Kind::Context], Shape::Absent, 0, 0),
    ),
    (
        Action::Swap(X0, Y0),
        (&[Kind::Term], Shape::Slots(&[CONTEXT]), 0, 0),
        (&[Kind::Context], Shape::Slots(&[TERM]), 0, 0),
    ),
    (
        Action::Swap(X0, Y1),
        (&[Kind::Term], Shape::Slots(&[CONTEXT]), 0, 0),
        (&[], Shape::Slots(&[CONTEXT]), 0, 0),
    ),
    (
        Action::Swap(Y0, X0),
        (&[Kind::Term], Shape::Slots(&[TRY]), 0, 0),
        (&[], Shape::Slots(&[TRY]), 0, 0),
    ),
    // frames
    (
        Action::NewFrame(2),
        (&[], Shape::Absent, 0, 0),
        (&[], Shape::Slots(&[UNSET, UNSET]), 0, 0),
    ),
    (
        Action::NewFrame(0),
        (&[], Shape::Clash, 0, 0),
        (&[], Shape::Slots(&[]), 0, 0),
    ),
    (
        Action::DropFrame(1),
        (&[], Shape::Slots(&[TERM]), 0, 0),
        (&[], Shape::Absent, 0, 0),
    ),
    (
        Action::DropFrame(1),
        (&[], Shape::Clash, 0, 0),
        (&[], Shape::Absent, 0, 0),
    ),
    (
        Action::Trim(2, 1),
        (&[], Shape::Slots(&[TERM, UNSET, CONTEXT]), 0, 0),
        (&[], Shape::Slots(&[CONTEXT]), 0, 0),
    ),
    (
        Action::Trim(1, 1),
        (&[], Shape::Slots(&[TERM, UNSET, CONTEXT]), 0, 0),
        (&[], Shape::Clash, 0, 0),
    ),
    (
        Action::Trim(0, 0),
        (&[], Shape::Absent, 0, 0),
        (&[], Shape::Clash, 0, 0),
    ),
    (
        Action::Trim(1, 1),
        (&[], Shape::Clash, 0, 0),
        (&[], Shape::Clash, 0, 0),
    ),
    // handlers
    (
        Action::Tag(1, 5, TagKind::Catch),
        (&[], Shape::Slots(&[TERM, TERM]), 0, 0),
        (&[], Shape::Slots(&[TERM, CATCH]), 0, 0),
    ),
    (
        Action::Tag(1, 5, TagKind::Catch),
        (&[], Shape::Slots(&[TERM]), 0, 0),
        (&[], Shape::Slots(&[TERM]), 0, 0),
    ),
    (
        Action::Untag(0, TagKind::Try),
        (&[], Shape::Slots(&[TRY, CATCH]), 0, 0),
        (&[], Shape::Slots(&[TERM, CATCH]), 0, 0),
    ),
    (
        Action::Caught,
        (&[Kind::Caught, Kind::Term], Shape::Slots(&[TERM]), 4, 1),
        (&[Kind::Term], Shape::Slots(&[TERM]), 0, 0),
    ),
    (
        Action::Landed,
        (&[Kind::Caught], Shape::Slots(&[TERM]), 4, 1),
        (
            &[Kind::Term, Kind::Term, Kind::Term],
            Shape::Slots(&[TERM]),
            0,
            0,
        ),
    ),
];

// The first case that `need` answers otherwise.
fn first_wrong(cases: &[(Action, Option<Reason>)], s: &State) -> Option<usize> {
    cases
        .iter()
        .position(|(action, reason)| need(*action, s) != *reason)
}

#[test]
fn needs_fail_for_their_first_reason(rt: HostRuntime) -> Result<(), Fail> {
    for (i, (row, cases)) in NEEDS.iter().enumerate() {
        let s = state(rt.alloc(), *row)?;
        assert_eq!(rt; first_wrong(cases, &s), None, "state {i}");
    }
    Ok(())
}

#[test]
fn actions_have_their_effects(rt: HostRuntime) -> Result<(), Fail> {
    for (i, (action, before, after)) in EFFECTS.iter().enumerate() {
        let mut s = state(rt.alloc(), *before)?;
        apply(rt.alloc(), *action, &mut s)?;
        assert!(rt; is_state(rt.alloc(), &s, *after)?, "row {i}");
    }
    Ok(())
}

#[test]
fn actions_follow_one_another(rt: HostRuntime) -> Result<(), Fail> {
    let actions = [
        Action::NewFrame(2),
        Action::Copy(Src::Reg(X0), Y1),
        Action::Write(X0),
        Action::Trim(1, 1),
    ];
    let mut s = state(rt.alloc(), (&[Kind::Context], Shape::Absent, 3, 1))?;
    apply_all(rt.alloc(), &actions, &mut s)?;
    let after: Row = (&[Kind::Term], Shape::Slots(&[CONTEXT]), 3, 1);
    assert!(rt; is_state(rt.alloc(), &s, after)?);
    Ok(())
}
