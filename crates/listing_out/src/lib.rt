//! The listing of a file, from which the file can be built again.
#![tactic(auto)]

mod code;
mod comments;
mod file;
mod laws;
mod names;
mod payload;
mod reading;

pub use file::listing;
pub use laws::{
    a_file_is_listable, a_listing_bounds_its_file, listing_is_of_its_file, payload_lines_grow,
};
pub use reading::file_listing;

#[cfg(test)]
mod tests;
