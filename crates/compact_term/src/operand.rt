//! What operands are.

use crate::integer::{Integer128, WideInteger};
use crate::list::{PairList, PlainList};

/// A register of the machine.
#[derive(Clone, Copy, Debug, PartialEq, Eq)]
pub enum Reg {
    /// A register that is shared by all functions.
    X(u32),
    /// A slot of the function's frame.
    Y(u32),
}

/// An operand that holds no others.
#[derive(Debug, Drop)]
pub enum Plain {
    /// A number without sign.
    U(u64),
    /// An integer of at most 16 bytes.
    I(Integer128),
    /// An integer of 17 bytes or more.
    Wide(WideInteger),
    /// The number of an atom; 0 is the empty list.
    A(u32),
    /// A register that is shared by all functions.
    X(u32),
    /// A slot of the function's frame.
    Y(u32),
    /// A label; 0 is none.
    F(u32),
    /// A character.
    H(u32),
    /// A register for floats.
    Fr(u64),
    /// The number of a literal.
    Lit(u64),
    /// A register with the number of a type that its value has.
    Typed(Reg, u64),
}

/// An operand of an instruction.
#[derive(Debug, Drop)]
pub enum Operand {
    /// An operand that holds no others.
    One(Plain),
    /// A list of operands that hold no others.
    List(PlainList),
    /// An allocation list: pairs of a kind and an amount.
    Alloc(PairList),
}

impl Default for Operand {
    ghost use Rattle.std.specs.Prelude.{◌≡◌};
    ghost use Rattle.compact_term.specs.declared.operand.Plain.TheVariants.{U};
    ghost use Rattle.compact_term.specs.declared.operand.Operand.TheVariants.{One};

    ghost is_default = { λ o. o ≡ One (U 0) };

    fn default() -> Operand {
        Operand::One(Plain::U(0))
    }
}
