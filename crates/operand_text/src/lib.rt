//! The texts of operands, as listings show them, written and read.
#![tactic(auto)]

mod laws;
mod reading;
mod writing;

pub use laws::{canonical_is_near_its_text, operand_texts_are_words, operands_invert};
pub use reading::read_operand_text;
pub use writing::{put_operand, put_register};

#[cfg(test)]
mod tests;
