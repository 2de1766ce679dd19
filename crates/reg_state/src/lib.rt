//! What is known of the registers and the frame at a place of a function, the order of such states,
//! and their joins.
#![tactic(auto)]

mod copying;
mod join;
mod kind;
mod laws;
mod order;
mod state;

pub use copying::{copy_frame, copy_state};
pub use join::join_into;
pub use kind::{Kind, KindList, kind_at};
pub use laws::{joins_are_least, states_are_ordered};
pub use order::below;
pub use state::{FrameState, Slot, SlotList, State};

#[cfg(test)]
mod tests;
