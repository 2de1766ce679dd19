//! The tables of lines and of literals of a module, read from their chunks and written as text.
#![tactic(auto)]

mod laws;
mod line_item;
mod line_reading;
mod line_text;
mod lines;
mod literal;
mod literal_counting;
mod literal_reading;
mod literal_showing;
mod literal_text;
mod literals;
mod refusal;

pub use laws::{
    fronts_are_cut, lines_are_refused, one_literal_table, one_table, reading_is_exact,
    refusals_stand,
};
pub use line_reading::read_lines;
pub use line_text::lines_text;
pub use lines::{BytesList, Lines, PlaceList};
pub use literal::{Literal, LiteralList};
pub use literal_counting::count_literals;
pub use literal_reading::read_literals;
pub use literal_showing::literals_shown;
pub use literal_text::literals_text;
pub use literals::Literals;
pub use refusal::SideRefusal;

#[cfg(test)]
mod tests;
