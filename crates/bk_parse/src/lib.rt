//! What texts are read by: the parts between separators, numbers in decimal and bytes in hexadecimal.
#![tactic(auto)]

mod decimal;
mod hex_digits;
mod laws;
mod parts;
mod refusal;

pub use decimal::{read_i128, read_u32, read_u64};
pub use hex_digits::read_hex;
pub use laws::{
    hex_bytes_invert, numbers_invert, parts_of_joined_texts, parts_rejoin, signed_numbers_invert,
};
pub use parts::Parts;
pub use refusal::TextRefusal;

#[cfg(test)]
mod tests;
