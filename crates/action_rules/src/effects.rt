//! What each action does to what is known.

ghost use Rattle.std.specs.Prelude.{◌≡◌, ◌<◌, [], length, replicate, IfOk, OnOk};
ghost use Rattle.reg_state.specs.Store.SlotOf.{Holds};
ghost use Rattle.reg_state.specs.States.{x_of, slot_of, slots_of, frame_of, store_of};
ghost use Rattle.reg_state.specs.declared.kind.Kind.TheVariants.{Unset};
ghost use Rattle.op_table.specs.declared.action.Action.TheVariants.{Swap};
ghost use Rattle.action_rules.specs.Effects.{overwritten, write_slot, put_slot, over_slots, slot_value, value_of, source_value, put_x, write_reg, first_kept, arrived, with_x, with_room, trimmed};
ghost use Rattle.action_rules.specs.KindDomain.{kinds, copied_kind};
ghost use Rattle.action_rules.specs.Known.{known_effect, known_effects};

use bk_base::{ItemList, NoMemory};
use compact_term::Reg;
use op_table::{Action, Src};
use reg_state::{FrameState, Kind, KindList, Slot, SlotList, State, kind_at};
use std::alloc::Global;

fn overwritten(slot: Slot, kind: Kind) -> Slot
    ensures { slot_of result ≡ overwritten (slot_of slot) kind }
{
    match slot {
        Slot::Is(_) => Slot::Is(kind),
        Slot::Tag { .. } => slot,
    }
}

fn write_slot(slots: &mut SlotList, y: u32, kind: Kind)
    ensures { slots_of slots.new ≡ write_slot (slots_of slots.old) y kind }
{
    if let Some(slot) = slots.get(y as usize).copied() {
        slots.set(y as usize, overwritten(slot, kind));
    }
}

fn put_slot(slots: &mut SlotList, y: u32, slot: Slot)
    ensures { slots_of slots.new ≡ put_slot (slots_of slots.old) y (slot_of slot) }
{
    if (y as usize) < slots.len() {
        slots.set(y as usize, slot);
    }
}

fn write_frame(frame: &mut FrameState, y: u32, kind: Kind)
    ensures { frame_of frame.new ≡ over_slots (λ slots. write_slot slots y kind) (frame_of frame.old) }
{
    if let FrameState::Slots(slots) = frame {
        write_slot(slots, y, kind);
    }
}

fn put_frame(frame: &mut FrameState, y: u32, slot: Slot)
    ensures { frame_of frame.new ≡ over_slots (λ slots. put_slot slots y (slot_of slot)) (frame_of frame.old) }
{
    if let FrameState::Slots(slots) = frame {
        put_slot(slots, y, slot);
    }
}

fn copied(kind: Kind) -> Kind
    ensures { result ≡ copied_kind kind }
{
    match kind {
        Kind::Context | Kind::Term => kind,
        _ => Kind::Unset,
    }
}

fn slot_value(frame: &FrameState, y: u32) -> Kind
    ensures { result ≡ slot_value kinds (frame_of frame.now) y }
{
    let FrameState::Slots(slots) = frame else {
        return Kind::Unset;
    };
    match slots.get(y as usize) {
        Some(Slot::Is(kind)) => copied(*kind),
        _ => Kind::Unset,
    }
}

fn value_of(r: Reg, s: &State) -> Kind
    ensures { result ≡ value_of kinds r (store_of s.now) }
{
    match r {
        Reg::X(n) => copied(kind_at(s.x.as_slice(), n as usize)),
        Reg::Y(y) => slot_value(&s.frame, y),
    }
}

fn source_value(source: Src, s: &State) -> Kind
    ensures { result ≡ source_value kinds source [] (store_of s.now) }
{
    match source {
        Src::Reg(r) => value_of(r, s),
        Src::Const => Kind::Term,
    }
}

// Puts registers up to `n` into the list where they aren't in it.
fn reach(x: &mut KindList, n: u32) -> Result<(), NoMemory>
    ensures same { OnOk result (x_of x.new ≡ x_of x.old) }
    ensures reached { OnOk result (n < length x.new) }
{
    for _ in x.len()..n as usize + 1 {
        x.push(Kind::Unset)?;
    }
    Ok(())
}

fn put_x(x: &mut KindList, n: u32, kind: Kind) -> Result<(), NoMemory>
    ensures { OnOk result (x_of x.new ≡ put_x (x_of x.old) n kind) }
{
    reach(x, n)?;
    x.set(n as usize, kind);
    Ok(())
}

fn write_reg(r: Reg, kind: Kind, s: &mut State) -> Result<(), NoMemory>
    ensures { OnOk result (store_of s.new ≡ write_reg r kind (store_of s.old)) }
{
    match r {
        Reg::X(n) => put_x(&mut s.x, n, kind)?,
        Reg::Y(y) => write_frame(&mut s.frame, y, kind),
    }
    Ok(())
}

fn swap(a: Reg, b: Reg, s: &mut State) -> Result<(), NoMemory>
    ensures { OnOk result (store_of s.new ≡ known_effect (Swap a b) (store_of s.old)) }
{
    let first = value_of(a, s);
    let second = value_of(b, s);
    write_reg(a, second, s)?;
    write_reg(b, first, s)
}

fn set_room(words: u64, funs: u64, s: &mut State)
    ensures { store_of s.new ≡ with_room words funs (store_of s.old) }
{
    s.words = words;
    s.funs = funs;
}

fn keep(n: u32, s: &mut State)
    ensures { store_of s.new ≡ with_x (first_kept kinds n (x_of s.old.x)) (store_of s.old) }
{
    s.x.truncate(n as usize);
    set_room(0, 0, s);
}

fn arrive(n: u32, s: &mut State) -> Result<(), NoMemory>
    ensures { OnOk result (store_of s.new ≡ with_x (arrived kinds n []) (store_of s.old)) }
{
    s.x.truncate(0);
    for _ in 0..n {
        s.x.push(Kind::Term)?;
    }
    set_room(0, 0, s);
    Ok(())
}

fn unset_slots(alloc: Global, n: u32) -> Result<SlotList, NoMemory>
    ensures { IfOk result (λ slots. slots_of slots ≡ replicate n (Holds Unset)) }
{
    let mut slots = ItemList::new(alloc);
    for _ in 0..n {
        slots.push(Slot::Is(Kind::Unset))?;
    }
    Ok(slots)
}

fn trim(frame: &mut FrameState, n: u32, r: u32)
    ensures { frame_of frame.new ≡ trimmed kinds n r (frame_of frame.old) }
{
    match frame {
        FrameState::Slots(slots) if slots.len() == n as usize + r as usize => {
            slots.drop_front(n as usize);
        }
        _ => *frame = FrameState::Clash,
    }
}

/// Does to `s` what an action does, whether or not its need holds.
///
/// On an `Err`, for want of memory, what has become of `s` isn't told.
pub fn apply(alloc: Global, action: Action, s: &mut State) -> Result<(), NoMemory>
    ensures { OnOk result (store_of s.new ≡ known_effect action (store_of s.old)) }
{
    match action {
        Action::Read(_) | Action::Live(_) | Action::FullY | Action::InFrame | Action::NoFrame => {}
        Action::Keep(n) => keep(n, s),
        Action::Room(words, funs) => set_room(words, funs, s),
        Action::Take(words) => set_room(s.words.saturating_sub(words), s.funs, s),
        Action::TakeFun => set_room(s.words, s.funs.saturating_sub(1), s),
        Action::Write(r) => write_reg(r, Kind::Term, s)?,
        Action::Copy(source, r) => write_reg(r, source_value(source, s), s)?,
        Action::Swap(a, b) => swap(a, b, s)?,
        Action::NewFrame(n) => s.frame = FrameState::Slots(unset_slots(alloc, n)?),
        Action::DropFrame(_) => s.frame = FrameState::Absent,
        Action::Trim(n, r) => trim(&mut s.frame, n, r),
        Action::Tag(y, label, kind) => put_frame(&mut s.frame, y, Slot::Tag { label, kind }),
        Action::Untag(y, _) => put_frame(&mut s.frame, y, Slot::Is(Kind::Term)),
        Action::Caught => arrive(1, s)?,
        Action::Landed => arrive(3, s)?,
    }
    Ok(())
}

/// Does to `s` what actions do one after another, whether or not their needs hold.
///
/// On an `Err`, for want of memory, what has become of `s` isn't told.
pub fn apply_all(alloc: Global, actions: &[Action], s: &mut State) -> Result<(), NoMemory>
    ensures { OnOk result (store_of s.new ≡ known_effects actions.now (store_of s.old)) }
{
    for action in actions {
        apply(alloc, *action, s)?;
    }
    Ok(())
}
