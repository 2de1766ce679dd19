//! Why a payload is no code.

ghost use Rattle.std.specs.Prelude.{◌≡◌};
ghost use Rattle.code_chunk.specs.declared.refusal.CodeRefusal.TheVariants as refusals;

use bk_base::NoMemory;
use compact_term::OperandRefusal;
use thiserror::Error;

/// What is wrong with a payload that is no code: the first such thing from the left. Offsets count
/// from the front of the payload.
#[derive(Clone, Copy, Debug, PartialEq, Eq, Error)]
pub enum CodeRefusal {
    /// The sub-header is cut, shorter than 16 bytes, or of another format than 0.
    #[error("the header of the code is wrong")]
    Header,
    /// A byte stands at `at` in an opcode's place, and is none.
    #[error("opcode {op} at {at}")]
    Opcode { at: usize, op: u8 },
    /// No operand stands at `at`, where an instruction wants one.
    #[error("operand at {at}: {why}")]
    Operand { at: usize, why: OperandRefusal },
    /// Memory ran out.
    #[error("out of memory")]
    NoMemory,
}

impl From<NoMemory> for CodeRefusal {
    ghost from_gives = { λ _ e. e ≡ refusals.NoMemory };

    fn from(_e: NoMemory) -> CodeRefusal {
        CodeRefusal::NoMemory
    }
}
