//! What each action of a plan needs and does.
#![tactic(auto)]

mod effects;
mod laws;
mod needs;
mod reason;

pub use effects::{apply, apply_all};
pub use laws::{effects_keep_bounds, effects_keep_order, needs_pass_down, plans_are_steady};
pub use needs::need;
pub use reason::Reason;

#[cfg(test)]
mod tests;
