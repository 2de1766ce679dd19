//! The order of states.

ghost use Rattle.std.specs.Prelude.{ℕ, ◌≡◌, ◌↔◌, IsTrue};
ghost use Rattle.reg_state.specs.Kinds.{KindBelow};
ghost use Rattle.reg_state.specs.Related.{SlotRel, SlotsRel, FrameRel, Reserved};
ghost use Rattle.reg_state.specs.Join.{tagged_alike};
ghost use Rattle.reg_state.specs.States.{x_of, slot_of, slots_of, frame_of, store_of, IsBelow};

use crate::kind::{Kind, kind_at, kind_below};
use crate::state::{FrameState, Slot, State};

fn kinds_below(a: &[Kind], b: &[Kind]) -> bool
    ensures { IsTrue result ↔ ((i : ℕ) → KindBelow (x_of a.now i) (x_of b.now i)) }
{
    for i in 0..b.len() {
        if !kind_below(kind_at(a, i), kind_at(b, i)) {
            return false;
        }
    }
    true
}

/// Whether neither is tagged, or both with the same tag.
pub(crate) fn tagged_alike(a: Slot, b: Slot) -> bool
    ensures { result ≡ tagged_alike (slot_of a) (slot_of b) }
{
    match (a, b) {
        (Slot::Is(_), Slot::Is(_)) => true,
        _ => a == b,
    }
}

fn slot_below(a: Slot, b: Slot) -> bool
    ensures { IsTrue result ↔ SlotRel KindBelow (slot_of a) (slot_of b) }
{
    match (a, b) {
        (Slot::Is(a), Slot::Is(b)) => kind_below(a, b),
        _ => tagged_alike(a, b),
    }
}

fn slots_below(a: &[Slot], b: &[Slot]) -> bool
    ensures { IsTrue result ↔ SlotsRel KindBelow (slots_of a.now) (slots_of b.now) }
{
    if a.len() != b.len() {
        return false;
    }
    for i in 0..a.len() {
        if !slot_below(a[i], b[i]) {
            return false;
        }
    }
    true
}

fn frame_below(a: &FrameState, b: &FrameState) -> bool
    ensures { IsTrue result ↔ FrameRel KindBelow (frame_of a.now) (frame_of b.now) }
{
    match (a, b) {
        (_, FrameState::Clash) => true,
        (FrameState::Absent, FrameState::Absent) => true,
        (FrameState::Slots(a), FrameState::Slots(b)) => slots_below(a.as_slice(), b.as_slice()),
        _ => false,
    }
}

fn is_reserved(a: u64, b: u64) -> bool
    ensures { IsTrue result ↔ Reserved a b }
{
    a == b || b == 0
}

/// Whether `a` is below `b`: each register, each slot and the frame are known in `a` as well as in
/// `b`, and what is reserved in `b` is reserved in `a` just so.
pub fn below(a: &State, b: &State) -> bool
    ensures { IsTrue result ↔ IsBelow (store_of a.now) (store_of b.now) }
{
    is_reserved(a.words, b.words)
        && is_reserved(a.funs, b.funs)
        && kinds_below(a.x.as_slice(), b.x.as_slice())
        && frame_below(&a.frame, &b.frame)
}
