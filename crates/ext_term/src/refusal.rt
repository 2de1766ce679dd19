//! Why bytes are no term.

ghost use Rattle.std.specs.Prelude.{◌≡◌};
ghost use Rattle.ext_term.specs.declared.refusal.TermRefusal.TheVariants as refusals;

use bk_base::NoMemory;
use std::alloc::{AllocError, AllocFailed};
use thiserror::Error;

/// What is wrong with bytes that are no term: the first such thing from the left. Offsets count bytes
/// from the first one, which is the version.
#[derive(Clone, Copy, Debug, PartialEq, Eq, Error)]
pub enum TermRefusal {
    /// Bytes are missing.
    #[error("cut")]
    Cut,
    /// The byte at this offset is no tag that may stand there, or no version.
    #[error("tag {tag} at {at}")]
    Tag { tag: u8, at: usize },
    /// The tag at this offset is deeper than 256 terms.
    #[error("depth at {at}")]
    Depth { at: usize },
    /// The name of the atom whose tag is at this offset is not UTF-8.
    #[error("atom text at {at}")]
    AtomText { at: usize },
    /// The bit string whose tag is at this offset has no byte, or its last byte not 1 to 8 bits.
    #[error("bit tail at {at}")]
    BitTail { at: usize },
    /// Bytes stand behind the term, the first of them at this offset.
    #[error("rest at {at}")]
    Rest { at: usize },
    /// No memory was found.
    #[error("out of memory")]
    NoMemory,
}

impl From<NoMemory> for TermRefusal {
    ghost from_gives = { λ _ e. e ≡ refusals.NoMemory };

    fn from(_e: NoMemory) -> TermRefusal {
        TermRefusal::NoMemory
    }
}

impl From<AllocError> for TermRefusal {
    ghost from_gives = { λ _ e. e ≡ refusals.NoMemory };

    fn from(_e: AllocError) -> TermRefusal {
        TermRefusal::NoMemory
    }
}

impl<T: Drop> From<AllocFailed<T>> for TermRefusal {
    ghost from_gives = { λ _ e. e ≡ refusals.NoMemory };

    fn from(_e: AllocFailed<T>) -> TermRefusal {
        TermRefusal::NoMemory
    }
}
