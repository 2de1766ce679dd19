//! The whole chunks of a file that is being read.

ghost use Rattle.std.specs.Prelude.{◌≡◌, [], ◌∷◌, ◌++◌, IfOk};
ghost use Rattle.beam_module.specs.File.{HoldsItsKind, IsNew};
ghost use Rattle.listing_in.specs.Step.{is_seen};

use beam_module::{ChunkVal, FileVal};
use bk_base::NoMemory;
use iff_form::Id;
use std::alloc::Global;
use std::collections::BTreeSet;
use std::marker::Model;

/// The whole chunks of a file that is being read. Whether an id stands among them is asked of an
/// ordered set, so that many chunks take no more than their number times its logarithm.
#[derive(Drop)]
pub(crate) struct Closed {
    file: FileVal,
    seen: BTreeSet<[u8; 4]>,
}

impl Model for Closed {
    ghost use Rattle.std.specs.Prelude.{List};
    ghost use Rattle.beam_module.specs.File.{FileChunk};
    ghost use Rattle.listing_in.specs.Seen.{HasIds};

    ghost Value = { List FileChunk };

    ghost view = { λ c. c.file };

    ghost invariant = { λ c. HasIds c.seen.keys c.file };
}

impl Closed {
    /// No chunks, without memory taken.
    pub(crate) fn new(alloc: Global) -> Closed
        ensures { result ≡ [] }
    {
        Closed {
            file: FileVal::new(alloc),
            seen: BTreeSet::new(alloc),
        }
    }

    /// Whether a chunk has the id.
    pub(crate) fn has(&self, id: Id) -> bool
        ensures { result ≡ is_seen id self.now }
    {
        self.seen.contains(&id.0)
    }

    /// These chunks, and one behind them.
    pub(crate) fn with(self, id: Id, value: ChunkVal) -> Result<Closed, NoMemory>
        requires new { IsNew id self }
        requires kind { HoldsItsKind (id, value) }
        ensures { IfOk result (λ c. c ≡ self ++ (id, value) ∷ []) }
    {
        let Closed { mut file, mut seen } = self;
        file.push(id, value)?;
        seen.insert(id.0)?;
        Ok(Closed { file, seen })
    }

    /// The file of these chunks.
    pub(crate) fn into_file(self) -> FileVal
        ensures { result ≡ self }
    {
        self.file
    }
}
