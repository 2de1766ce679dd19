//! Reading a listing back: the file that it lists.
#![tactic(auto)]

mod bare;
mod closed;
mod header;
mod id_text;
mod instruction;
mod keywords;
mod laws;
mod reading;
mod refusal;
mod sofar;
mod stop;
mod within;

pub use laws::{one_listed_file, one_stop, reading_is_exact};
pub use reading::read_listing;
pub use refusal::{ListingRefusal, ListingWhy};

#[cfg(test)]
mod tests;
