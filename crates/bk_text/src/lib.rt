//! What texts are put together from: numbers in decimal, bytes in hexadecimal, and for contracts the
//! lines of a table and a text of which a front was put.
#![tactic(auto)]

mod decimal;
mod hex_digits;

pub use decimal::{put_lettered, put_marked, put_natural, put_number};
pub use hex_digits::{ROW, put_hex, put_hex_backwards, put_row};

#[cfg(test)]
mod tests;
