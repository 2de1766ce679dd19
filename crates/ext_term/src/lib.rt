//! External terms: reading them, writing them, and their text.
#![tactic(auto)]

mod laws;
mod name;
mod parts;
mod reading;
mod refusal;
mod tags;
mod term;
mod text;
mod writing;

pub use laws::{
    bytes_behind_are_refused, canonical, fronts_are_cut, one_term, reading_is_exact,
    refusals_stand, spelled_terms_meet_their_type,
};
pub use name::name_text;
pub use reading::read_term;
pub use refusal::TermRefusal;
pub use term::{Term, TermList, TermPairList};
pub use text::{put_term, term_text};
pub use writing::write_term;

#[cfg(test)]
mod tests;
