//! Why bytes are no form.

ghost use Rattle.std.specs.Prelude.{◌≡◌};
ghost use Rattle.iff_form.specs.declared.refusal.FormRefusal.TheVariants as refusals;

use crate::id::Id;
use std::alloc::AllocFailed;
use thiserror::Error;

/// Why bytes are no form, in the order in which the reasons are looked at. Offsets are in bytes from
/// the file's start.
#[derive(Clone, Copy, Debug, PartialEq, Eq, Error)]
pub enum FormRefusal {
    /// The file begins as a gzip file does.
    #[error("gzip file")]
    Gzip,
    /// There are fewer than 12 bytes, or `FOR1` or `BEAM` is missing.
    #[error("not a BEAM file")]
    NotBeam,
    /// The size word isn't the file's length less 8, which was found.
    #[error("size {stated}, found {found}")]
    Size { stated: u32, found: u64 },
    /// The chunk at this offset passes the end, with its header, its payload or its padding.
    #[error("chunk cut at {at}")]
    ChunkCut { at: usize },
    /// The chunk at this offset has an id that stood before.
    #[error("chunk id twice at {at}")]
    Twice { id: Id, at: usize },
    /// Memory ran out.
    #[error("out of memory")]
    NoMemory,
}

impl<T: Drop> From<AllocFailed<T>> for FormRefusal {
    ghost from_gives = { λ _ e. e ≡ refusals.NoMemory };

    fn from(_e: AllocFailed<T>) -> FormRefusal {
        FormRefusal::NoMemory
    }
}
