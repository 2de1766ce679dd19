//! What is wrong with instructions of a module, whatever they are run with.
#![tactic(auto)]

mod ending;
mod fault;
mod laws;
mod naming;
mod operands;
mod registers;

pub use ending::ends;
pub use fault::{Fault, FaultList};
pub use laws::{
    named_registers_are_counted, sound_calls_have_targets, sound_instructions_have_plans,
    sound_instructions_stay_inside,
};
pub use operands::instruction_fault;
pub use registers::x_bound;

#[cfg(test)]
mod tests;
