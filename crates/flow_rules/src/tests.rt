use super::*;
use Kind::{Caught, Loose, Term, Unset};
use beam_module::open_module;
use bk_base::{ItemList, NoMemory, Steps, TagKind};
use compact_term::Reg;
use label_fixpoint::{Flow, solve};
use reg_state::{FrameState, Kind, Slot, State, below};
use std::alloc::Global;
use std::test::Fail;

// Each file has the atoms m and f, and one function that is entered at label 2, which stands at
// place 2 of its code.

// f/1: allocate u3 u1, deallocate u2, return.
const FRAME_SIZE: &[u8] =
    b"FOR1\0\0\0@BEAMAtU8\0\0\0\x08\0\0\0\x02\x01m\x01fCode\0\0\0#\0\0\0\x10\0\0\0\0\0\0\0\xb6\0\0\0\x0a\0\0\0\x01\x01\x10\x02\x12\x22\x10\x01 \x0c0\x10\x12 \x13\x03\0";

// f/1: allocate u2 u1, init_yregs [y0,y1], try y1 f3, try y0 f4, call u1 f2, try_end y0, try_end y1,
// deallocate u2, return, label u4, try_case y0, try_end y1, deallocate u2, return, label u3,
// try_case y1, deallocate u2, return.
const TRIES: &[u8] =
    b"FOR1\0\0\0dBEAMAtU8\0\0\0\x08\0\0\0\x02\x01m\x01fCode\0\0\0E\0\0\0\x10\0\0\0\0\0\0\0\xb6\0\0\0\x0a\0\0\0\x01\x01\x10\x02\x12\x22\x10\x01 \x0c \x10\xac\x17 \x04\x14h\x145h\x04E\x04\x10%i\x04i\x14\x12 \x13\x01@j\x04i\x14\x12 \x13\x010j\x14\x12 \x13\x03\0\0\0";

// The same with y0 and y1 exchanged where there are handlers.
const TRIES_TURNED: &[u8] =
    b"FOR1\0\0\0dBEAMAtU8\0\0\0\x08\0\0\0\x02\x01m\x01fCode\0\0\0E\0\0\0\x10\0\0\0\0\0\0\0\xb6\0\0\0\x0a\0\0\0\x01\x01\x10\x02\x12\x22\x10\x01 \x0c \x10\xac\x17 \x04\x14h\x045h\x14E\x04\x10%i\x14i\x04\x12 \x13\x01@j\x14i\x04\x12 \x13\x010j\x04\x12 \x13\x03\0\0\0";

// f/1: is_nil f3 x0, allocate u1 u1, try y0 f4, label u3, call u1 f2, return, label u4, return.
const CLASH: &[u8] =
    b"FOR1\0\0\0LBEAMAtU8\0\0\0\x08\0\0\0\x02\x01m\x01fCode\0\0\0/\0\0\0\x10\0\0\0\0\0\0\0\xb6\0\0\0\x0a\0\0\0\x01\x01\x10\x02\x12\x22\x10\x01 45\x03\x0c\x10\x10h\x04E\x010\x04\x10%\x13\x01@\x13\x03\0";

// f/2, with the import m:f/1: gc_bif1 f3 u1 u0 x0 x1, return, label u3, return.
const BUILT_IN: &[u8] =
    b"FOR1\0\0\0\x5cBEAMAtU8\0\0\0\x08\0\0\0\x02\x01m\x01fCode\0\0\0'\0\0\0\x10\0\0\0\0\0\0\0\xb6\0\0\0\x0a\0\0\0\x01\x01\x10\x02\x12\x22 \x01 |5\x10\0\x03\x13\x13\x010\x13\x03\0ImpT\0\0\0\x10\0\0\0\x01\0\0\0\x01\0\0\0\x02\0\0\0\x01";

// f/1: select_val x0 f3 [a1,f4], label u3, badmatch x0, label u4, return.
const SELECT: &[u8] =
    b"FOR1\0\0\0HBEAMAtU8\0\0\0\x08\0\0\0\x02\x01m\x01fCode\0\0\0+\0\0\0\x10\0\0\0\0\0\0\0\xb6\0\0\0\x0a\0\0\0\x01\x01\x10\x02\x12\x22\x10\x01 ;\x035\x17 \x12E\x010H\x03\x01@\x13\x03\0";

// f/1: allocate u1 u1, catch y0 f3, call u1 f2, label u3, catch_end y0, deallocate u1, return.
const CATCH: &[u8] =
    b"FOR1\0\0\0LBEAMAtU8\0\0\0\x08\0\0\0\x02\x01m\x01fCode\0\0\0-\0\0\0\x10\0\0\0\0\0\0\0\xb6\0\0\0\x0a\0\0\0\x01\x01\x10\x02\x12\x22\x10\x01 \x0c\x10\x10>\x045\x04\x10%\x010?\x04\x12\x10\x13\x03\0\0\0";

// f/1: move a0 x0.
const LEAVE: &[u8] =
    b"FOR1\0\0\0<BEAMAtU8\0\0\0\x08\0\0\0\x02\x01m\x01fCode\0\0\0 \0\0\0\x10\0\0\0\0\0\0\0\xb6\0\0\0\x0a\0\0\0\x01\x01\x10\x02\x12\x22\x10\x01 @\x02\x03\x03";

// f/0: fclearerror, move a0 x0, jump f1, jump f9, return.
const NEVER: &[u8] =
    b"FOR1\0\0\0DBEAMAtU8\0\0\0\x08\0\0\0\x02\x01m\x01fCode\0\0\0&\0\0\0\x10\0\0\0\0\0\0\0\xb6\0\0\0\x0a\0\0\0\x01\x01\x10\x02\x12\x22\0\x01 ^@\x02\x03=\x15=\x95\x13\x03\0\0";

const NONE: Slot = Slot::Is(Unset);

const VALUE: Slot = Slot::Is(Term);

const TRY_3: Slot = Slot::Tag {
    label: 3,
    kind: TagKind::Try,
};

const TRY_4: Slot = Slot::Tag {
    label: 4,
    kind: TagKind::Try,
};

const CATCH_3: Slot = Slot::Tag {
    label: 3,
    kind: TagKind::Catch,
};

#[derive(Clone, Copy)]
enum Shape {
    Absent,
    Slots(&'static [Slot]),
    Clash,
}

use Shape::{Absent, Clash, Slots};

// A place, the kinds of its registers and its frame where something comes there, and the need that
// fails with them. Nothing is reserved.
type Place = (usize, Option<(&'static [Kind], Shape)>, Option<Reason>);

const FLOWS: [(&[u8], &[Place]); 8] = [
    (
        FRAME_SIZE,
        &[
            (1, None, None),
            (2, Some((&[Term], Absent)), None),
            (
                4,
                Some((&[Term], Slots(&[NONE, NONE, NONE]))),
                Some(Reason::FrameSize),
            ),
            (5, Some((&[Term], Absent)), None),
        ],
    ),
    (
        TRIES,
        &[
            (7, Some((&[Term], Slots(&[TRY_4, TRY_3]))), None),
            (8, Some((&[Term], Slots(&[TRY_4, TRY_3]))), None),
            (12, Some((&[Caught], Slots(&[TRY_4, TRY_3]))), None),
            (
                14,
                Some((&[Term, Term, Term], Slots(&[VALUE, TRY_3]))),
                None,
            ),
            (17, None, None),
        ],
    ),
    (
        TRIES_TURNED,
        &[
            (
                6,
                Some((&[Term], Slots(&[TRY_3, VALUE]))),
                Some(Reason::Order(Reg::Y(1))),
            ),
            (
                8,
                Some((&[Term], Slots(&[TRY_3, TRY_4]))),
                Some(Reason::Innermost(Reg::Y(1))),
            ),
            (12, None, None),
            (17, Some((&[Caught], Slots(&[TRY_3, TRY_4]))), None),
            (
                19,
                Some((&[Term, Term, Term], Slots(&[VALUE, TRY_4]))),
                Some(Reason::OpenTag(Reg::Y(1))),
            ),
        ],
    ),
    (
        CLASH,
        &[
            (6, Some((&[Term], Clash)), None),
            (7, Some((&[Term], Clash)), Some(Reason::Clash)),
            (8, Some((&[Term], Clash)), Some(Reason::Clash)),
            (9, Some((&[Caught], Clash)), None),
        ],
    ),
    (
        BUILT_IN,
        &[
            (3, Some((&[Term, Term], Absent)), None),
            (4, Some((&[Term, Term], Absent)), None),
            (5, Some((&[Term], Absent)), None),
        ],
    ),
    (
        SELECT,
        &[
            (4, Some((&[Term], Absent)), None),
            (6, Some((&[Term], Absent)), None),
        ],
    ),
    (
        CATCH,
        &[
            (6, Some((&[Loose], Slots(&[CATCH_3]))), None),
            (8, Some((&[Term], Slots(&[VALUE]))), None),
            (9, Some((&[Term], Absent)), None),
        ],
    ),
    (LEAVE, &[(3, Some((&[Term], Absent)), Some(Reason::Leave))]),
];

#[derive(Drop)]
struct Book;

fn items_of<T: Copy>(alloc: Global, items: &[T]) -> Result<ItemList<T>, NoMemory> {
    let mut list = Vec::with_capacity(alloc, items.len())?;
    list.extend_from_slice(items)?;
    Ok(ItemList::from(list))
}

fn state_of(alloc: Global, kinds: &[Kind], shape: Shape) -> Result<State, NoMemory> {
    Ok(State {
        x: items_of(alloc, kinds)?,
        frame: match shape {
            Absent => FrameState::Absent,
            Slots(slots) => FrameState::Slots(items_of(alloc, slots)?),
            Clash => FrameState::Clash,
        },
        words: 0,
        funs: 0,
    })
}

fn state_at(states: &ItemList<Option<State>>, place: usize) -> Option<&State> {
    states.get(place)?.as_ref()
}

fn is_judged(
    alloc: Global,
    flow: &FnFlow<'_>,
    found: Option<&State>,
    place: &Place,
) -> Result<bool, NoMemory> {
    let (at, wanted, reason) = *place;
    if at >= flow.places() {
        return Ok(false);
    }
    match (found, wanted) {
        (None, None) => Ok(true),
        (Some(state), Some((kinds, shape))) => {
            let other = state_of(alloc, kinds, shape)?;
            let found = flow.check(at, state).map(|fault| fault.reason);
            Ok(below(state, &other) && below(&other, state) && found == reason)
        }
        _ => Ok(false),
    }
}

fn are_judged(alloc: Global, file: &[u8], places: &[Place]) -> Result<bool, Fail> {
    let module = open_module(alloc, file)?;
    if module.functions() == 0 {
        return Ok(false);
    }
    let flow = FnFlow::new(alloc, &module, 0)?;
    let mut steps = Steps::start(Book);
    let states = solve(alloc, &flow, &mut steps)?.states;
    for place in places {
        if !is_judged(alloc, &flow, state_at(&states, place.0), place)? {
            return Ok(false);
        }
    }
    Ok(true)
}

#[test]
fn states_come_to_places(rt: HostRuntime) -> Result<(), Fail> {
    for (file, places) in FLOWS {
        assert!(rt; are_judged(rt.alloc(), file, places)?);
    }
    Ok(())
}

const FAULTS: [Fault; 2] = [
    Fault {
        function: 0,
        place: 3,
        reason: Reason::Unsupported,
    },
    Fault {
        function: 0,
        place: 6,
        reason: Reason::Label(1),
    },
];

fn has_faults(alloc: Global, file: &[u8], wanted: &[Fault]) -> Result<bool, Fail> {
    let module = open_module(alloc, file)?;
    if module.functions() == 0 {
        return Ok(false);
    }
    match FnFlow::new(alloc, &module, 0) {
        Err(FlowRefusal::Faults(list)) => Ok(list.as_slice() == wanted),
        _ => Ok(false),
    }
}

#[test]
fn all_faults_of_opcodes_and_operands_are_told(rt: HostRuntime) -> Result<(), Fail> {
    assert!(rt; has_faults(rt.alloc(), NEVER, &FAULTS)?);
    Ok(())
}
