//! What operands are for.

/// What an operand is for, which says what it may be.
#[derive(Clone, Copy, Debug, PartialEq, Eq)]
pub enum Role {
    /// A value that is read: a register up to x1022 or y1023, with a type or without, an integer, an
    /// atom, a character or a literal.
    S,
    /// A register that is written, up to x1022 or y1023, with a type or without.
    D,
    /// A slot of the frame up to y1023, without a type.
    Y,
    /// An atom.
    A,
    /// A number up to 4,294,967,295.
    N,
    /// A number up to 255: how many arguments there are.
    R,
    /// A number up to 1023: how many registers x0, x1 and on are kept.
    V,
    /// A number up to 1024: how many slots a frame has.
    Z,
    /// How much of the heap is needed: a number of words up to 4,294,967,295, or an allocation list
    /// of such amounts with the kinds 0 (words), 1 (floats) and 2 (funs), each at most once.
    H,
    /// The number of an import.
    M,
    /// The number of a fun.
    G,
    /// A label, from 1.
    F,
    /// A label, or 0 for an exception in place of a jump.
    FOr0,
    /// The label of a function's entry, from 1.
    E,
    /// Any operand, which is not read.
    Any,
    /// A list of values that are read: each register in it is one of a `D`, and there is any other
    /// operand that holds no others.
    Ls,
    /// A list of slots, each as a `Y`.
    Ly,
    /// A list of pairs, each a value as an `S` and a register as a `D`.
    Lm,
    /// A list of pairs, each of any operand that holds no others and a label as an `F`.
    Lp,
}
