//! Why instructions are not functions.

ghost use Rattle.std.specs.Prelude.{◌≡◌};
ghost use Rattle.func_split.specs.declared.refusal.SplitRefusal.TheVariants as refusals;

use bk_base::NoMemory;
use std::alloc::AllocFailed;
use thiserror::Error;

/// What is wrong with code at one of its instructions.
#[derive(Clone, Copy, Debug, PartialEq, Eq, Error)]
pub enum FunctionWhy {
    /// The first instruction is neither the `label` of a function nor an `int_code_end` alone.
    #[error("no start")]
    Start,
    /// A `func_info` behind no label of its own.
    #[error("no label before func_info")]
    NoLabel,
    /// A `func_info` before no label.
    #[error("no label behind func_info")]
    NoEntry,
    /// A `label` or a `func_info` with other operands than it has to have.
    #[error("wrong operands")]
    Shape,
    /// A `label` whose number an earlier one has.
    #[error("label twice")]
    LabelTwice,
    /// A `label` whose number is 0, or the label count or more.
    #[error("label out of range")]
    LabelRange,
    /// The last instruction where it is no `int_code_end`, or another one that is.
    #[error("wrong end")]
    End,
    /// The first label of a function of more than 200,000 instructions.
    #[error("long function")]
    Long,
    /// There are more functions or fewer than the header says. It is told at 0.
    #[error("wrong count of functions")]
    Count,
}

/// Why instructions are not functions.
#[derive(Clone, Copy, Debug, PartialEq, Eq, Error)]
pub enum SplitRefusal {
    /// This is wrong at the instruction with this number, counted from 0.
    #[error("{why} at instruction {at}")]
    Functions { at: usize, why: FunctionWhy },
    /// Memory ran out.
    #[error("out of memory")]
    NoMemory,
}

impl From<NoMemory> for SplitRefusal {
    ghost from_gives = { λ _ e. e ≡ refusals.NoMemory };

    fn from(_e: NoMemory) -> SplitRefusal {
        SplitRefusal::NoMemory
    }
}

impl<T: Drop> From<AllocFailed<T>> for SplitRefusal {
    ghost from_gives = { λ _ e. e ≡ refusals.NoMemory };

    fn from(_e: AllocFailed<T>) -> SplitRefusal {
        SplitRefusal::NoMemory
    }
}
