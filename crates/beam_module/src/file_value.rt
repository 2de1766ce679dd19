//! The value of a file.

ghost use Rattle.std.specs.Prelude.{◌≡◌, ◌↔◌, [], ◌∷◌, ◌++◌, length, slice_get, IsTrue, OnOk, OnErr, option_copied};
ghost use Rattle.beam_module.specs.File.{AreChunks, IsNew, HoldsItsKind};

use crate::chunk_value::ChunkVal;
use bk_base::NoMemory;
use iff_form::Id;
use std::alloc::Global;
use std::marker::Model;

/// The chunks of a file, in order, each with its id. No two have the same id, and the chunk `Code`
/// alone holds code.
#[derive(Debug, Drop)]
pub struct FileVal {
    pub(crate) chunks: Vec<(Id, ChunkVal)>,
}

impl Model for FileVal {
    ghost use Rattle.std.specs.Prelude.{List};
    ghost use Rattle.beam_module.specs.File.{FileChunk, AreChunks};

    ghost Value = { List FileChunk };

    ghost view = { λ v. v.chunks.items };

    ghost invariant = { λ v. AreChunks v.chunks.items };
}

impl FileVal {
    /// A file of no chunks, without memory taken.
    pub fn new(alloc: Global) -> FileVal
        ensures { result ≡ [] }
    {
        FileVal {
            chunks: Vec::new(alloc),
        }
    }

    /// Puts a chunk at the end.
    pub fn push(&mut self, id: Id, c: ChunkVal) -> Result<(), NoMemory>
        requires new { IsNew id self.old }
        requires kind { HoldsItsKind (id, c) }
        ensures ok { OnOk result (self.new ≡ self.old ++ (id, c) ∷ []) }
        ensures err { OnErr result (self.new ≡ self.old) }
    {
        self.chunks.push((id, c))?;
        Ok(())
    }

    /// Chunk `i`, counted from 0, with its id.
    pub fn get(&self, i: usize) -> Option<&(Id, ChunkVal)>
        ensures { option_copied result ≡ slice_get self.now i }
    {
        self.chunks.get(i)
    }

    /// The chunks with their ids.
    pub fn as_slice(&self) -> &[(Id, ChunkVal)]
        ensures same { result.now ≡ self.now }
        ensures chunks { AreChunks self.now }
    {
        self.chunks.as_slice()
    }

    /// How many chunks there are.
    pub fn len(&self) -> usize
        ensures { result ≡ length self.now }
    {
        self.chunks.len()
    }

    /// Whether there is none.
    pub fn is_empty(&self) -> bool
        ensures { IsTrue result ↔ (self.now ≡ []) }
    {
        self.chunks.is_empty()
    }
}
