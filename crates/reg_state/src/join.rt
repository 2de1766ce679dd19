//! The least state above two.

ghost use Rattle.std.specs.Prelude.{ℕ, ◌≡◌, ◌↔◌, false, length};
ghost use Rattle.reg_state.specs.Kinds.{joined_kind};
ghost use Rattle.reg_state.specs.States.{x_of, slot_of, slots_of, frame_of, store_of, IsBelow};
ghost use Rattle.reg_state.specs.Join.{are_alike, joined_slot, joined_slots, joined_frame, joined_number, joined, IsLeastAbove};

use crate::kind::{Kind, KindList, joined_kind, kind_at};
use crate::order::{below, tagged_alike};
use crate::state::{FrameState, Slot, SlotList, State};

fn join_kinds(a: &mut KindList, b: &[Kind])
    ensures { (i : ℕ) → x_of a.new i ≡ joined_kind (x_of a.old i) (x_of b.now i) }
{
    for i in 0..a.len() {
        let joined = joined_kind(kind_at(a.as_slice(), i), kind_at(b, i));
        a.set(i, joined);
    }
}

fn are_alike(a: &[Slot], b: &[Slot]) -> bool
    ensures { result ≡ are_alike (slots_of a.now) (slots_of b.now) }
{
    if a.len() != b.len() {
        return false;
    }
    for i in 0..a.len() {
        if !tagged_alike(a[i], b[i]) {
            return false;
        }
    }
    true
}

fn joined_slot(a: Slot, b: Slot) -> Slot
    ensures { slot_of result ≡ joined_slot (slot_of a) (slot_of b) }
{
    match (a, b) {
        (Slot::Is(a), Slot::Is(b)) => Slot::Is(joined_kind(a, b)),
        _ => a,
    }
}

fn join_slots(a: &mut SlotList, b: &[Slot])
    requires { length a.old ≡ length b.now }
    ensures { slots_of a.new ≡ joined_slots (slots_of a.old) (slots_of b.now) }
{
    for i in 0..a.len() {
        let joined = joined_slot(a.as_slice()[i], b[i]);
        a.set(i, joined);
    }
}

fn join_frame(a: &mut FrameState, b: &FrameState)
    ensures { frame_of a.new ≡ joined_frame (frame_of a.old) (frame_of b.now) }
{
    match (&mut *a, b) {
        (FrameState::Absent, FrameState::Absent) => {}
        (FrameState::Slots(slots), FrameState::Slots(others)) => {
            let others = others.as_slice();
            if are_alike(slots.as_slice(), others) {
                join_slots(slots, others);
            } else {
                *a = FrameState::Clash;
            }
        }
        _ => *a = FrameState::Clash,
    }
}

fn joined_number(a: u64, b: u64) -> u64
    ensures { result ≡ joined_number a b }
{
    if a == b { a } else { 0 }
}

/// Makes `a` the least state above `a` and `b`, and says whether that changed it.
///
/// It takes no memory. Registers past the end of either list are `Unset` in the join.
pub fn join_into(a: &mut State, b: &State) -> bool
    ensures joined { store_of a.new ≡ joined (store_of a.old) (store_of b.now) }
    ensures least { IsLeastAbove (store_of a.old) (store_of b.now) (store_of a.new) }
    ensures unchanged { (result ≡ false) ↔ IsBelow (store_of a.new) (store_of a.old) }
{
    if below(b, a) {
        return false;
    }
    join_kinds(&mut a.x, b.x.as_slice());
    join_frame(&mut a.frame, &b.frame);
    a.words = joined_number(a.words, b.words);
    a.funs = joined_number(a.funs, b.funs);
    true
}
