//! The instructions of a module as functions.
#![tactic(auto)]

mod before;
mod faults;
mod function;
mod laws;
mod mark;
mod refusal;
mod split_code;
mod splitting;
#[cfg(test)]
mod tests;

pub use function::Function;
pub use laws::{
    code_splits_where_nothing_is_wrong, functions_stand_in_their_code, one_split,
    splitting_is_exact,
};
pub use refusal::{FunctionWhy, SplitRefusal};
pub use split_code::SplitCode;
pub use splitting::split;
