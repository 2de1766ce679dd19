//! Chunks that own their payloads.

ghost use Rattle.std.specs.Prelude.{◌≡◌, ◌↔◌, [], ◌∷◌, ◌++◌, length, slice_get, IsTrue, OnOk, OnErr, option_copied, option_map};
ghost use Rattle.iff_form.specs.Chunk.{owned_plain, owned_plains};
ghost use Rattle.iff_form.specs.Form.{AreDistinct, IsNew};

use crate::id::Id;
use bk_base::{ByteList, Bytes, NoMemory};
use std::alloc::Global;
use std::marker::Model;

/// A chunk that owns its payload.
#[derive(Debug, Drop)]
pub struct OwnedChunk {
    /// What the chunk holds, such as `Code`.
    pub id: Id,
    /// The payload without padding.
    pub payload: ByteList,
}

/// The chunks of a form that is to be written, in order. No two have the same id.
#[derive(Debug, Drop)]
pub struct ChunkList {
    chunks: Vec<OwnedChunk>,
}

impl Model for ChunkList {
    ghost use Rattle.std.specs.Prelude.{List};
    ghost use Rattle.iff_form.specs.Chunk.{PlainChunk, owned_plains};
    ghost use Rattle.iff_form.specs.Form.{AreDistinct};

    ghost Value = { List PlainChunk };

    ghost view = { λ l. owned_plains l.chunks.items };

    ghost invariant = { λ l. AreDistinct (owned_plains l.chunks.items) };
}

impl ChunkList {
    /// No chunks, without memory taken.
    pub fn new(alloc: Global) -> ChunkList
        ensures { result ≡ [] }
    {
        ChunkList {
            chunks: Vec::new(alloc),
        }
    }

    /// Puts a chunk at the end, with no copy of its payload. It is refused for want of memory alone,
    /// and then nothing has changed.
    pub fn push(&mut self, id: Id, payload: Bytes) -> Result<(), NoMemory>
        requires { IsNew id self.old }
        ensures ok { OnOk result (self.new ≡ self.old ++ record { id = id; payload = payload.items } ∷ []) }
        ensures err { OnErr result (self.new ≡ self.old) }
    {
        let payload = ByteList::from(payload);
        self.chunks.push(OwnedChunk { id, payload })?;
        Ok(())
    }

    /// Chunk `i`, counted from 0. None exactly where there are not so many.
    pub fn get(&self, i: usize) -> Option<&OwnedChunk>
        ensures { option_map owned_plain (option_copied result) ≡ slice_get self.now i }
    {
        self.chunks.get(i)
    }

    /// The chunks.
    pub fn as_slice(&self) -> &[OwnedChunk]
        ensures same { owned_plains result.now ≡ self.now }
        ensures distinct { AreDistinct self.now }
    {
        self.chunks.as_slice()
    }

    /// How many chunks there are.
    pub fn len(&self) -> usize
        ensures { result ≡ length self.now }
    {
        self.chunks.len()
    }

    /// Whether there is none.
    pub fn is_empty(&self) -> bool
        ensures { IsTrue result ↔ (self.now ≡ []) }
    {
        self.chunks.is_empty()
    }
}
