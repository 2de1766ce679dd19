//! Why a table is refused.

ghost use Rattle.std.specs.Prelude.{◌≡◌};
ghost use Rattle.side_tables.specs.declared.refusal.SideRefusal.TheVariants as refusals;

use bk_base::NoMemory;
use thiserror::Error;

/// Why a payload is no table of lines or of literals: the first thing from the left that is wrong with
/// it. A table of literals is refused by `Cut`, `Rest` and `NoMemory` alone.
#[derive(Clone, Copy, Debug, PartialEq, Eq, Error)]
pub enum SideRefusal {
    /// The version is not 0.
    #[error("version")]
    Version,
    /// Item `item` is neither a line nor a switch to a file. Items are counted from 0, lines and
    /// switches alike.
    #[error("item {item}")]
    ItemTag { item: usize },
    /// Item `item`, counted in the same way, switches to a file above the number of file names.
    #[error("file in item {item}")]
    FileIndex { item: usize },
    /// Bytes of a word, of an item, of a file name or of a literal are missing.
    #[error("cut")]
    Cut,
    /// Bytes stand behind the last file name, or behind the last literal.
    #[error("rest")]
    Rest,
    /// No memory was found.
    #[error("out of memory")]
    NoMemory,
}

impl From<NoMemory> for SideRefusal {
    ghost from_gives = { λ _ e. e ≡ refusals.NoMemory };

    fn from(_e: NoMemory) -> SideRefusal {
        SideRefusal::NoMemory
    }
}
