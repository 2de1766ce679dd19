//! Why bytes are no operand.

ghost use Rattle.std.specs.Prelude.{◌≡◌};
ghost use Rattle.compact_term.specs.declared.refusal.OperandRefusal.TheVariants as refusals;

use bk_base::NoMemory;
use thiserror::Error;

/// What is wrong with bytes that begin no operand: the first such thing from the left.
#[derive(Clone, Copy, Debug, PartialEq, Eq, Error)]
pub enum OperandRefusal {
    /// Bytes are missing.
    #[error("the operand is cut")]
    Cut,
    /// A part that has to be a `u`, or the register of a typed register, has another tag.
    #[error("a part of the operand has another tag")]
    Inner,
    /// The number of a term with this tag is too large.
    #[error("the number is too wide for tag {tag}")]
    Wide { tag: u8 },
    /// The number of a term with this tag is below zero.
    #[error("the number is negative under tag {tag}")]
    Negative { tag: u8 },
    /// The number of tag `z` is none of 1 to 5.
    #[error("no operand is extended by {value}")]
    Extended { value: u64 },
    /// A member of a list is a list or an allocation list.
    #[error("a list stands in a list")]
    Nested,
    /// Memory ran out.
    #[error("out of memory")]
    NoMemory,
}

impl From<NoMemory> for OperandRefusal {
    ghost from_gives = { λ _ e. e ≡ refusals.NoMemory };

    fn from(_e: NoMemory) -> OperandRefusal {
        OperandRefusal::NoMemory
    }
}
