//! The operands of instructions in their compact form, which BEAM files have in `Code` and elsewhere.
#![tactic(auto)]

mod integer;
mod laws;
mod list;
mod number;
mod number_writing;
mod operand;
mod reader;
mod refusal;
mod tags;
mod writer;

pub use integer::{Integer128, WideInteger};
pub use laws::{
    canonical_is_shortest, canonical_is_spelled, canonical_numbers_are_short, fronts_are_cut,
    one_form, reading_is_exact, refusals_stand,
};
pub use list::{PairList, PlainList};
pub use operand::{Operand, Plain, Reg};
pub use reader::read_operand;
pub use refusal::OperandRefusal;
pub use writer::{spelled_len, write_operand};

#[cfg(test)]
mod tests;
