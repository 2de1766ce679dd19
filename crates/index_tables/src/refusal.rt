//! Why a table is refused.

ghost use Rattle.std.specs.Prelude.{◌≡◌};
ghost use Rattle.index_tables.specs.declared.refusal.TableRefusal.TheVariants as refusals;

use bk_base::NoMemory;
use thiserror::Error;

/// Why a payload is no table: what is wrong with its first bad record, or behind its last one.
#[derive(Clone, Copy, Debug, PartialEq, Eq, Error)]
pub enum TableRefusal {
    /// Bytes of the count or of a record are missing.
    #[error("cut")]
    Cut,
    /// The name of atom `n` is not UTF-8. Atoms are counted from 1.
    #[error("atom {n} is not UTF-8")]
    AtomUtf8 { n: u32 },
    /// An atom number of entry `entry` is not one of the atoms. Entries are counted from 0.
    #[error("atom number in entry {entry}")]
    AtomIndex { entry: u32 },
    /// Bytes stand behind the last record.
    #[error("rest")]
    Rest,
    /// No memory was found.
    #[error("out of memory")]
    NoMemory,
}

impl From<NoMemory> for TableRefusal {
    ghost from_gives = { λ _ e. e ≡ refusals.NoMemory };

    fn from(_e: NoMemory) -> TableRefusal {
        TableRefusal::NoMemory
    }
}
