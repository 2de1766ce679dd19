//! States of the registers and the frame.

use crate::kind::{Kind, KindList};
use bk_base::{ItemList, TagKind};

/// A slot of a frame: it holds something, or is tagged with a handler of failures.
#[derive(Clone, Copy, Debug, PartialEq, Eq)]
pub enum Slot {
    Is(Kind),
    Tag { label: u32, kind: TagKind },
}

/// Slots in order, from y0 on.
pub type SlotList = ItemList<Slot>;

/// The frame of a function.
#[derive(Debug, Drop)]
pub enum FrameState {
    /// There is none.
    Absent,
    /// One of these slots.
    Slots(SlotList),
    /// It isn't known whether there is one, or of which slots.
    Clash,
}

/// What is known at a place of a function.
#[derive(Debug, Drop)]
pub struct State {
    /// The kinds of the registers from x0 on. A register past the end is `Unset`.
    pub x: KindList,
    /// The frame.
    pub frame: FrameState,
    /// How many words of the heap are reserved.
    pub words: u64,
    /// How many funs have their place reserved on the heap.
    pub funs: u64,
}
