//! The tags of terms, and the numbers of tag `z`.

/// A number without sign.
pub(crate) const U: u8 = 0;

/// An integer.
pub(crate) const I: u8 = 1;

/// An atom.
pub(crate) const A: u8 = 2;

/// A register that is shared by all functions.
pub(crate) const X: u8 = 3;

/// A slot of the function's frame.
pub(crate) const Y: u8 = 4;

/// A label.
pub(crate) const F: u8 = 5;

/// A character.
pub(crate) const H: u8 = 6;

/// What is extended by what follows its number.
pub(crate) const Z: u8 = 7;

/// A count, and as many operands.
pub(crate) const LIST: u64 = 1;

/// A register for floats.
pub(crate) const FLOAT: u64 = 2;

/// A count, and as many pairs.
pub(crate) const ALLOC: u64 = 3;

/// A literal.
pub(crate) const LITERAL: u64 = 4;

/// A register and a type.
pub(crate) const TYPED: u64 = 5;
