use super::*;
use bk_base::{ItemList, NoMemory, TagKind};
use std::alloc::Global;
use std::test::Fail;

const CATCH: Slot = Slot::Tag {
    label: 5,
    kind: TagKind::Catch,
};

const TRY: Slot = Slot::Tag {
    label: 5,
    kind: TagKind::Try,
};

const OTHER_CATCH: Slot = Slot::Tag {
    label: 6,
    kind: TagKind::Catch,
};

const TERM: Slot = Slot::Is(Kind::Term);

const CONTEXT: Slot = Slot::Is(Kind::Context);

const UNSET: Slot = Slot::Is(Kind::Unset);

#[derive(Clone, Copy)]
enum Shape {
    Absent,
    Slots(&'static [Slot]),
    Clash,
}

type Row = (&'static [Kind], Shape, u64, u64);

// Two states, their join, and whether the first is below the second and the second below the first.
const JOINS: [(Row, Row, Row, bool, bool); 15] = [
    (
        (&[Kind::Context, Kind::Term], Shape::Absent, 4, 0),
        (&[Kind::Term, Kind::Caught], Shape::Absent, 2, 0),
        (&[Kind::Term, Kind::Loose], Shape::Absent, 0, 0),
        false,
        false,
    ),
    // equal states
    (
        (&[Kind::Caught], Shape::Slots(&[CATCH, UNSET]), 3, 1),
        (&[Kind::Caught], Shape::Slots(&[CATCH, UNSET]), 3, 1),
        (&[Kind::Caught], Shape::Slots(&[CATCH, UNSET]), 3, 1),
        true,
        true,
    ),
    // a register that is set on one side alone
    (
        (&[Kind::Term, Kind::Term], Shape::Absent, 0, 0),
        (&[Kind::Term], Shape::Absent, 0, 0),
        (&[Kind::Term, Kind::Unset], Shape::Absent, 0, 0),
        true,
        false,
    ),
    (
        (&[Kind::Term], Shape::Absent, 0, 0),
        (&[Kind::Term, Kind::Context], Shape::Absent, 0, 0),
        (&[Kind::Term], Shape::Absent, 0, 0),
        false,
        true,
    ),
    (
        (&[Kind::Caught, Kind::Loose], Shape::Absent, 0, 0),
        (&[Kind::Context, Kind::Unset], Shape::Absent, 0, 0),
        (&[Kind::Loose, Kind::Unset], Shape::Absent, 0, 0),
        false,
        false,
    ),
    // frames of one and of two slots, and none
    (
        (&[], Shape::Slots(&[TERM]), 0, 0),
        (&[], Shape::Slots(&[TERM, TERM]), 0, 0),
        (&[], Shape::Clash, 0, 0),
        false,
        false,
    ),
    (
        (&[], Shape::Absent, 0, 0),
        (&[], Shape::Slots(&[]), 0, 0),
        (&[], Shape::Clash, 0, 0),
        false,
        false,
    ),
    (
        (&[], Shape::Absent, 0, 0),
        (&[], Shape::Clash, 0, 0),
        (&[], Shape::Clash, 0, 0),
        true,
        false,
    ),
    (
        (&[], Shape::Clash, 0, 0),
        (&[], Shape::Slots(&[TERM]), 0, 0),
        (&[], Shape::Clash, 0, 0),
        false,
        true,
    ),
    // tags: the same one, another label, another kind, and none
    (
        (&[], Shape::Slots(&[CONTEXT, TRY]), 0, 0),
        (&[], Shape::Slots(&[TERM, TRY]), 0, 0),
        (&[], Shape::Slots(&[TERM, TRY]), 0, 0),
        true,
        false,
    ),
    (
        (&[], Shape::Slots(&[CATCH]), 0, 0),
        (&[], Shape::Slots(&[OTHER_CATCH]), 0, 0),
        (&[], Shape::Clash, 0, 0),
        false,
        false,
    ),
    (
        (&[], Shape::Slots(&[CATCH]), 0, 0),
        (&[], Shape::Slots(&[TRY]), 0, 0),
        (&[], Shape::Clash, 0, 0),
        false,
        false,
    ),
    (
        (&[], Shape::Slots(&[TERM, CATCH]), 0, 0),
        (&[], Shape::Slots(&[TERM, UNSET]), 0, 0),
        (&[], Shape::Clash, 0, 0),
        false,
        false,
    ),
    // words and funs that are reserved on one side alone, or otherwise
    (
        (&[], Shape::Absent, 7, 2),
        (&[], Shape::Absent, 0, 2),
        (&[], Shape::Absent, 0, 2),
        true,
        false,
    ),
    (
        (&[], Shape::Absent, 7, 1),
        (&[], Shape::Absent, 7, 2),
        (&[], Shape::Absent, 7, 0),
        false,
        false,
    ),
];

fn list<T: Copy + Drop>(alloc: Global, items: &[T]) -> Result<ItemList<T>, NoMemory> {
    let mut list = ItemList::new(alloc);
    for item in items {
        list.push(*item)?;
    }
    Ok(list)
}

fn frame(alloc: Global, shape: Shape) -> Result<FrameState, NoMemory> {
    match shape {
        Shape::Absent => Ok(FrameState::Absent),
        Shape::Slots(slots) => Ok(FrameState::Slots(list(alloc, slots)?)),
        Shape::Clash => Ok(FrameState::Clash),
    }
}

fn state(alloc: Global, row: Row) -> Result<State, NoMemory> {
    Ok(State {
        x: list(alloc, row.0)?,
        frame: frame(alloc, row.1)?,
        words: row.2,
        funs: row.3,
    })
}

fn is_frame(frame: &FrameState, shape: Shape) -> bool {
    match (frame, shape) {
        (FrameState::Absent, Shape::Absent) | (FrameState::Clash, Shape::Clash) => true,
        (FrameState::Slots(slots), Shape::Slots(wanted)) => slots.as_slice() == wanted,
        _ => false,
    }
}

fn is_state(s: &State, row: Row) -> bool {
    s.x.as_slice() == row.0 && is_frame(&s.frame, row.1) && s.words == row.2 && s.funs == row.3
}

#[test]
fn states_are_joined_and_compared(rt: HostRuntime) -> Result<(), Fail> {
    for (i, (first, second, joined, is_below, is_above)) in JOINS.iter().enumerate() {
        let mut a = state(rt.alloc(), *first)?;
        let b = state(rt.alloc(), *second)?;
        assert_eq!(rt; below(&a, &b), *is_below, "row {i}");
        assert_eq!(rt; below(&b, &a), *is_above, "row {i}");
        assert_eq!(rt; join_into(&mut a, &b), !*is_above, "row {i}");
        assert!(rt; is_state(&a, *joined), "row {i}");
        assert!(rt; !join_into(&mut a, &b), "row {i}");
        let copy = copy_state(rt.alloc(), &a)?;
        assert!(rt; is_state(&copy, *joined), "row {i}");
    }
    Ok(())
}
