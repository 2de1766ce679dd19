//! Copies of states.

ghost use Rattle.std.specs.Prelude.{◌≡◌, IfOk};

use crate::state::{FrameState, State};
use bk_base::{ItemList, NoMemory};
use std::alloc::Global;

fn copy_items<T: Copy>(alloc: Global, items: &[T]) -> Result<ItemList<T>, NoMemory>
    ensures { IfOk result (λ copy. copy ≡ items.now) }
{
    let mut copy = Vec::with_capacity(alloc, items.len())?;
    copy.extend_from_slice(items)?;
    Ok(ItemList::from(copy))
}

/// A frame equal to `frame`. It is refused for want of memory alone.
pub fn copy_frame(alloc: Global, frame: &FrameState) -> Result<FrameState, NoMemory>
    ensures { IfOk result (λ copy. copy ≡ frame.now) }
{
    match frame {
        FrameState::Absent => Ok(FrameState::Absent),
        FrameState::Slots(slots) => Ok(FrameState::Slots(copy_items(alloc, slots.as_slice())?)),
        FrameState::Clash => Ok(FrameState::Clash),
    }
}

/// A state equal to `s`. It is refused for want of memory alone.
pub fn copy_state(alloc: Global, s: &State) -> Result<State, NoMemory>
    ensures { IfOk result (λ copy. copy ≡ s.now) }
{
    Ok(State {
        x: copy_items(alloc, s.x.as_slice())?,
        frame: copy_frame(alloc, &s.frame)?,
        words: s.words,
        funs: s.funs,
    })
}
