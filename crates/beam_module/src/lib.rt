//! The value of a file: its chunks in order, the code as instructions; and the module that a file holds.
#![tactic(auto)]

mod chunk_value;
mod comparison;
mod file_value;
mod laws;
mod module;
mod naming;
mod opening;
mod reading;
mod refusal;
mod stripping;
mod writing;

pub use chunk_value::ChunkVal;
pub use comparison::{Compared, compare};
pub use file_value::FileVal;
pub use func_split::{Function, FunctionWhy};
pub use laws::{
    a_file_has_a_canon, a_file_meets_its_type, canon_is_a_file, canon_is_shortest,
    comparison_tells_what_differs, names_are_exact, one_comparison, one_file, one_module,
    opening_is_exact, reading_is_exact,
};
pub use module::Module;
pub use naming::module_name;
pub use opening::open_module;
pub use reading::{form_from, read_file};
pub use refusal::{ModuleRefusal, TableWhy};
pub use stripping::strip;
pub use writing::canon;

#[cfg(test)]
mod tests;
