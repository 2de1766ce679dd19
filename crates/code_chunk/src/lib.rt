//! The chunk `Code`: a sub-header, and instructions up to the end.
#![tactic(auto)]

mod code;
mod instructions;
mod laws;
mod refusal;
mod writing;

pub use code::{CodeVal, read_code, read_head};
pub use instructions::{InstrList, next_operand, read_opcode};
pub use laws::{
    canonical_code_is_shortest, canonical_code_is_spelled, canonical_instr_is_spelled,
    code_has_fewer_instructions_than_bytes, instructions_are_read_in_order, one_code,
    one_instr_form, one_stop, reading_is_exact, spelled_code_is_bytes, spelled_code_is_proper,
};
pub use refusal::CodeRefusal;
pub use writing::write_code;

#[cfg(test)]
mod tests;
