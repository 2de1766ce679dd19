//! Modules that are made: of a number of functions, so that there are modules of any size without a
//! compiler.
#![tactic(auto)]

mod code;
mod laws;
mod making;

pub use laws::generated_files_open;
pub use making::{MOST_FUNCTIONS, generated};

#[cfg(test)]
mod tests;
