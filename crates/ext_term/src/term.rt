//! External terms.

use bk_base::{ByteList, Text};
use sqlite_items::{Boxed, Items};

/// Terms in order.
pub type TermList = Items<Term>;

/// Keys and their values, in order.
pub type TermPairList = Items<(Term, Term)>;

/// A term of Erlang, as it stands in a file.
#[derive(Debug, Drop)]
pub enum Term {
    /// An integer whose magnitude has at most 16 bytes. Zero isn't negative.
    Int {
        /// Whether it is below zero.
        neg: bool,
        /// How far it is from zero.
        mag: u128,
    },
    /// An integer whose magnitude is spelled in more bytes, which are kept as they are.
    Wide {
        /// Whether it is below zero.
        neg: bool,
        /// How far it is from zero, the lowest byte first.
        mag: ByteList,
    },
    /// An atom, by its name.
    Atom(Text),
    /// A tuple.
    Tuple(TermList),
    /// The empty list.
    Nil,
    /// A list: its items, and the tail behind them, which is [`Term::Nil`] in a proper list.
    List(TermList, Boxed<Term>),
    /// A binary.
    Binary(ByteList),
    /// A bit string: its bytes, and how many bits of the last one belong to it.
    Bits {
        /// The bytes.
        bytes: ByteList,
        /// The number of bits of the last byte, counted from its highest.
        last: u8,
    },
    /// A map, with its pairs in the order in which they were read.
    Map(TermPairList),
    /// An external function: its module, its name, and its arity.
    Export(Text, Text, u8),
}
