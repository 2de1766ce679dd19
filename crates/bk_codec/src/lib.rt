//! What the codecs have in common: how bytes are read from the front, how values are spelled, and
//! the laws that tie a reading to a spelling. All of it is generic in the values and in the refusals.
//! `specs/` has the words, `proofs/` the laws, and the code is the fields that every codec reads.
#![tactic(auto)]

mod fields;

pub use fields::{end, text, word};

#[cfg(test)]
mod tests;
