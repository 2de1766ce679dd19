//! The bytes by which terms begin (External Term Format).

/// The version, before the one term of a file.
pub(crate) const VERSION: u8 = 131;

/// A bit string.
pub(crate) const BITS: u8 = 77;

/// An integer of one byte.
pub(crate) const SMALL_INTEGER: u8 = 97;

/// An integer of four bytes, with a sign.
pub(crate) const INTEGER: u8 = 98;

/// An atom in Latin-1, with its length in two bytes.
pub(crate) const LONG_LATIN_ATOM: u8 = 100;

/// A tuple, with its size in one byte.
pub(crate) const SMALL_TUPLE: u8 = 104;

/// A tuple, with its size in four bytes.
pub(crate) const LARGE_TUPLE: u8 = 105;

/// The empty list.
pub(crate) const NIL: u8 = 106;

/// A list of bytes.
pub(crate) const STRING: u8 = 107;

/// A list, with its tail.
pub(crate) const LIST: u8 = 108;

/// A binary.
pub(crate) const BINARY: u8 = 109;

/// An integer by its magnitude, whose length is in one byte.
pub(crate) const SMALL_BIG: u8 = 110;

/// An integer by its magnitude, whose length is in four bytes.
pub(crate) const LARGE_BIG: u8 = 111;

/// An external function.
pub(crate) const EXPORT: u8 = 113;

/// An atom in Latin-1, with its length in one byte.
pub(crate) const SHORT_LATIN_ATOM: u8 = 115;

/// A map.
pub(crate) const MAP: u8 = 116;

/// An atom in UTF-8, with its length in two bytes.
pub(crate) const LONG_ATOM: u8 = 118;

/// An atom in UTF-8, with its length in one byte.
pub(crate) const SHORT_ATOM: u8 = 119;
