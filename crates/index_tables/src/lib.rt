//! The tables of names of a module: its atoms, imports, exports, local functions and funs, read from
//! their chunks and written as text
//! or as a chunk again.
#![tactic(auto)]

mod atoms;
mod entry;
mod laws;
mod reading;
mod refusal;
mod table;
mod text;
mod writing;

pub use atoms::atom_name;
pub use entry::{Entry, Export, Fun, Import};
pub use laws::{
    a_table_has_one_payload, atoms_are_decided, entries_are_decided, reading_is_exact,
    written_tables_are_read_back, written_tables_are_spelled,
};
pub use reading::{read_atoms, read_entries, read_exports, read_funs, read_imports, read_locals};
pub use refusal::TableRefusal;
pub use table::{Atoms, Exports, Funs, Imports};
pub use text::{
    EntryLine, atoms_text, entries_text, exports_text, funs_text, imports_text, put_import,
};
pub use writing::{write_atoms, write_entries, write_exports, write_funs, write_imports};

#[cfg(test)]
mod tests;
