//! What each action needs of what is known.

ghost use Rattle.std.specs.Prelude.{◌≡◌, ◌+◌, ◌<◌, List, length, slice_get, Option, Some, None, MatchResult, ok_or};
ghost use Rattle.std.specs.Result.{result_err};
ghost use Rattle.compact_term.specs.declared.operand.Reg.TheVariants.{Y};
ghost use Rattle.reg_state.specs.declared.kind.Kind.{Kind};
ghost use Rattle.reg_state.specs.Store.{SlotOf};
ghost use Rattle.reg_state.specs.Store.FrameOf.{Slots};
ghost use Rattle.reg_state.specs.States.{x_of, slot_of, slots_of, frame_of, store_of};
ghost use Rattle.action_rules.specs.declared.reason.Reason.{Reason};
ghost use Rattle.action_rules.specs.declared.reason.Reason.TheVariants as reasons;
ghost use Rattle.action_rules.specs.KindDomain.{kinds, is_term};
ghost use Rattle.action_rules.specs.Needs.{check, in_frame, in_slot, no_frame, is_tagged, is_tagged_as, none_tagged, holds_term, is_full, full_from, full_frame, untagged_from, sized, readable, source_readable, writable, live_from, taggable, untaggable};
ghost use Rattle.action_rules.specs.Known.{known_need, HasFewSlots};

use crate::reason::Reason;
use bk_base::TagKind;
use compact_term::Reg;
use op_table::{Action, Src};
use reg_state::{FrameState, Kind, Slot, State, kind_at};

fn check(holds: bool, why: Reason) -> Result<(), Reason>
    ensures { result_err result ≡ check holds why }
{
    if holds { Ok(()) } else { Err(why) }
}

// The register of slot `i`. There are no more slots than a register can number.
fn slot_register(i: usize) -> Reg
    ensures { i < 4_294_967_296 → result ≡ Y i }
{
    Reg::Y(u32::try_from(i).unwrap_or(u32::MAX))
}

fn is_term(kind: Kind) -> bool
    ensures { result ≡ is_term kind }
{
    matches!(kind, Kind::Context | Kind::Term)
}

fn is_tagged(slot: Slot) -> bool
    ensures { result ≡ is_tagged (slot_of slot) }
{
    matches!(slot, Slot::Tag { .. })
}

fn is_tagged_as(kind: TagKind, slot: Slot) -> bool
    ensures { result ≡ is_tagged_as kind (slot_of slot) }
{
    match slot {
        Slot::Is(_) => false,
        Slot::Tag { kind: other, .. } => kind == other,
    }
}

fn none_tagged(slots: &[Slot]) -> bool
    ensures { result ≡ none_tagged (slots_of slots.now) }
{
    slots.iter().all(|slot| !is_tagged(*slot))
}

fn holds_term(slot: Slot) -> bool
    ensures { result ≡ holds_term kinds (slot_of slot) }
{
    match slot {
        Slot::Is(kind) => is_term(kind),
        Slot::Tag { .. } => false,
    }
}

fn is_full(slot: Slot) -> bool
    ensures { result ≡ is_full kinds (slot_of slot) }
{
    is_tagged(slot) || holds_term(slot)
}

// The slots of a frame, or why there are none.
fn slots_in(frame: &FrameState) -> Result<&[Slot], Reason>
    ensures { MatchResult result (λ slots. frame_of frame.now ≡ Slots (slots_of slots.now)) (λ why. (need : List (SlotOf Kind) → Option Reason) → in_frame (frame_of frame.now) need ≡ Some why) }
{
    match frame {
        FrameState::Absent => Err(Reason::NoFrame),
        FrameState::Slots(slots) => Ok(slots.as_slice()),
        FrameState::Clash => Err(Reason::Clash),
    }
}

fn slot_in(slots: &[Slot], y: u32) -> Result<Slot, Reason>
    ensures { result ≡ ok_or (slice_get slots.now y) (reasons.Slot (Y y)) }
{
    slots
        .get(y as usize)
        .copied()
        .ok_or(Reason::Slot(Reg::Y(y)))
}

fn in_frame(frame: &FrameState) -> Result<(), Reason>
    ensures { result_err result ≡ in_frame (frame_of frame.now) (λ slots. None) }
{
    slots_in(frame)?;
    Ok(())
}

fn no_frame(frame: &FrameState) -> Result<(), Reason>
    ensures { result_err result ≡ no_frame (frame_of frame.now) }
{
    match frame {
        FrameState::Absent => Ok(()),
        FrameState::Slots(_) => Err(Reason::FrameOpen),
        FrameState::Clash => Err(Reason::Clash),
    }
}

fn full_slots(slots: &[Slot]) -> Result<(), Reason>
    ensures { length slots.now < 4_294_967_296 → result_err result ≡ full_from kinds 0 (slots_of slots.now) }
{
    for (i, slot) in slots.iter().enumerate() {
        check(is_full(*slot), Reason::Unset(slot_register(i)))?;
    }
    Ok(())
}

fn full_frame(frame: &FrameState) -> Result<(), Reason>
    ensures { HasFewSlots (frame_of frame.now) → result_err result ≡ full_frame kinds (frame_of frame.now) }
{
    match frame {
        FrameState::Absent => Ok(()),
        FrameState::Slots(slots) => full_slots(slots.as_slice()),
        FrameState::Clash => Err(Reason::Clash),
    }
}

fn untagged(slots: &[Slot]) -> Result<(), Reason>
    ensures { length slots.now < 4_294_967_296 → result_err result ≡ untagged_from 0 (slots_of slots.now) }
{
    for (i, slot) in slots.iter().enumerate() {
        check(!is_tagged(*slot), Reason::OpenTag(slot_register(i)))?;
    }
    Ok(())
}

// A frame of `dropped + kept` slots, of which the dropped ones have no handler.
fn sized(frame: &FrameState, dropped: u32, kept: u32) -> Result<(), Reason>
    ensures { HasFewSlots (frame_of frame.now) → result_err result ≡ sized (frame_of frame.now) (dropped + kept) dropped }
{
    let slots = slots_in(frame)?;
    if slots.len() != dropped as usize + kept as usize {
        return Err(Reason::FrameSize);
    }
    untagged(&slots[..dropped as usize])
}

// A slot of a frame, or why there isn't such a one.
fn frame_slot(frame: &FrameState, y: u32) -> Result<Slot, Reason>
    ensures { MatchResult result (λ slot. (need : SlotOf Kind → Option Reason) → in_frame (frame_of frame.now) (λ slots. in_slot y (slice_get slots y) need) ≡ need (slot_of slot)) (λ why. (need : SlotOf Kind → Option Reason) → in_frame (frame_of frame.now) (λ slots. in_slot y (slice_get slots y) need) ≡ Some why) }
{
    let slots = slots_in(frame)?;
    slot_in(slots, y)
}

fn readable(r: Reg, s: &State) -> Result<(), Reason>
    ensures { result_err result ≡ readable kinds r (store_of s.now) }
{
    match r {
        Reg::X(n) => check(
            is_term(kind_at(s.x.as_slice(), n as usize)),
            Reason::Unset(r),
        ),
        Reg::Y(y) => {
            let slot = frame_slot(&s.frame, y)?;
            check(holds_term(slot), Reason::Unset(r))
        }
    }
}

fn source_readable(source: Src, s: &State) -> Result<(), Reason>
    ensures { result_err result ≡ source_readable kinds source (store_of s.now) }
{
    match source {
        Src::Reg(r) => readable(r, s),
        Src::Const => Ok(()),
    }
}

fn writable(r: Reg, s: &State) -> Result<(), Reason>
    ensures { result_err result ≡ writable r (store_of s.now) }
{
    match r {
        Reg::X(_) => Ok(()),
        Reg::Y(y) => {
            let slot = frame_slot(&s.frame, y)?;
            check(!is_tagged(slot), Reason::OpenTag(r))
        }
    }
}

fn live(x: &[Kind], n: u32) -> Result<(), Reason>
    ensures { result_err result ≡ live_from kinds (x_of x.now) 0 n }
{
    for i in 0..n {
        check(is_term(kind_at(x, i as usize)), Reason::Unset(Reg::X(i)))?;
    }
    Ok(())
}

fn taggable(y: u32, frame: &FrameState) -> Result<(), Reason>
    ensures { result_err result ≡ taggable y (frame_of frame.now) }
{
    let slots = slots_in(frame)?;
    slot_in(slots, y)?;
    check(
        none_tagged(&slots[..y as usize + 1]),
        Reason::Order(Reg::Y(y)),
    )
}

fn untaggable(y: u32, kind: TagKind, frame: &FrameState) -> Result<(), Reason>
    ensures { result_err result ≡ untaggable y kind (frame_of frame.now) }
{
    let slots = slots_in(frame)?;
    let slot = slot_in(slots, y)?;
    let is_lowest = none_tagged(&slots[..y as usize]);
    check(
        is_lowest && is_tagged_as(kind, slot),
        Reason::Innermost(Reg::Y(y)),
    )
}

fn met(action: Action, s: &State) -> Result<(), Reason>
    ensures { HasFewSlots (frame_of s.now.frame) → result_err result ≡ known_need action (store_of s.now) }
{
    let first = kind_at(s.x.as_slice(), 0);
    match action {
        Action::Read(source) => source_readable(source, s),
        Action::Live(n) => live(s.x.as_slice(), n),
        Action::FullY => full_frame(&s.frame),
        Action::Keep(_) | Action::Room(_, _) => Ok(()),
        Action::Take(words) => check(words <= s.words, Reason::Heap),
        Action::TakeFun => check(1 <= s.funs, Reason::Heap),
        Action::Write(r) => writable(r, s),
        Action::Copy(source, r) => source_readable(source, s).and(writable(r, s)),
        Action::Swap(a, b) => readable(a, s).and(readable(b, s)),
        Action::NewFrame(_) | Action::NoFrame => no_frame(&s.frame),
        Action::DropFrame(n) => sized(&s.frame, n, 0),
        Action::Trim(n, r) => sized(&s.frame, n, r),
        Action::InFrame => in_frame(&s.frame),
        Action::Tag(y, _, _) => taggable(y, &s.frame),
        Action::Untag(y, kind) => untaggable(y, kind, &s.frame),
        Action::Caught => check(first != Kind::Unset, Reason::Unset(Reg::X(0))),
        Action::Landed => check(first == Kind::Caught, Reason::Unset(Reg::X(0))),
    }
}

/// Why an action is not accepted in `s`, or `None` where its need holds. It takes no memory.
///
/// The first reason is told. In a frame of 2^32 slots or more it may name another slot.
pub fn need(action: Action, s: &State) -> Option<Reason>
    ensures { HasFewSlots (frame_of s.now.frame) → result ≡ known_need action (store_of s.now) }
{
    met(action, s).err()
}
