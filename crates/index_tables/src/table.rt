//! The tables: lists of their records, in order.

use crate::entry::{Export, Fun, Import};
use bk_base::{ItemList, Text};

/// The names of a module's atoms. Their numbers count from 1, and atom 1 is the module's name.
pub type Atoms = ItemList<Text>;

/// The functions of other modules that a module calls, counted from 0.
pub type Imports = ItemList<Import>;

/// The functions that a module offers, or those that it keeps to itself.
pub type Exports = ItemList<Export>;

/// The functions that a module makes funs of, counted from 0.
pub type Funs = ItemList<Fun>;
