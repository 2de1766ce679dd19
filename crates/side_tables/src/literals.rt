//! The table of literals.

use crate::literal::LiteralList;

/// The literals that the instructions of a module name by their numbers.
#[derive(Debug, Drop)]
pub enum Literals<'a> {
    /// The literals, counted from 0.
    Plain(LiteralList<'a>),
    /// A table whose first word isn't 0. Its literals are packed, and are not read.
    Packed,
}
