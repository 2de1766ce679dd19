//! A growing buffer of bytes.

ghost use Rattle.std.specs.Prelude.{◌≡◌, ◌+◌, ◌<◌, ◌≤◌, [], ◌∷◌, ◌++◌, length, ◌↔◌, IsTrue, OnOk, OnErr};

use crate::memory::NoMemory;
use std::alloc::Global;
use std::marker::Model;

/// A buffer that output is written to.
///
/// Contracts see the bytes that stand in it, `items`, and its `room`: how many more bytes it takes
/// without asking for memory, so that they cannot be refused.
#[derive(Debug, Drop)]
pub struct Bytes {
    buffer: Vec<u8>,
}

impl Model for Bytes {
    ghost use Rattle.std.specs.Prelude.{◌-◌, vec_len, vec_capacity};
    ghost use Rattle.bk_base.specs.Contents.{Contents};

    ghost Value = { Contents };

    ghost view = { λ b. record { items = b.buffer.items; room = vec_capacity b.buffer - vec_len b.buffer } };
}

impl Bytes {
    /// An empty buffer, which has taken no memory yet.
    pub fn new(alloc: Global) -> Bytes
        ensures { result.items ≡ [] }
    {
        Bytes {
            buffer: Vec::new(alloc),
        }
    }

    /// Puts a byte at the end.
    pub fn push(&mut self, b: u8) -> Result<(), NoMemory>
        ensures ok { OnOk result (self.new.items ≡ self.old.items ++ b ∷ []) }
        ensures err { OnErr result (self.new.items ≡ self.old.items) }
        ensures err_room { OnErr result (self.old.room ≤ self.new.room) }
        ensures reserved { OnErr result (self.old.room < 1) }
        ensures room { self.old.room ≤ self.new.room + 1 }
    {
        self.buffer.push(b)?;
        Ok(())
    }

    /// Puts bytes at the end, all of them or none.
    pub fn extend(&mut self, s: &[u8]) -> Result<(), NoMemory>
        ensures ok { OnOk result (self.new.items ≡ self.old.items ++ s.now) }
        ensures err { OnErr result (self.new.items ≡ self.old.items) }
        ensures err_room { OnErr result (self.old.room ≤ self.new.room) }
        ensures reserved { OnErr result (self.old.room < length s.now) }
        ensures room { self.old.room ≤ self.new.room + length s.now }
    {
        self.buffer.extend_from_slice(s)?;
        Ok(())
    }

    /// Makes room for `n` bytes: after an Ok the next `n` bytes cannot be refused.
    pub fn reserve(&mut self, n: usize) -> Result<(), NoMemory>
        ensures items { self.new.items ≡ self.old.items }
        ensures ok { OnOk result (n ≤ self.new.room) }
        ensures err_room { OnErr result (self.old.room ≤ self.new.room) }
        ensures reserved { OnErr result (self.old.room < n) }
        ensures room { self.old.room ≤ self.new.room }
    {
        self.buffer.reserve(n)?;
        Ok(())
    }

    /// The bytes that stand in it.
    pub fn as_slice(&self) -> &[u8]
        ensures { result.now ≡ self.now.items }
    {
        self.buffer.as_slice()
    }

    /// How many bytes stand in it.
    pub fn len(&self) -> usize
        ensures { result ≡ length self.now.items }
    {
        self.buffer.len()
    }

    /// Whether no byte stands in it.
    pub fn is_empty(&self) -> bool
        ensures { IsTrue result ↔ (self.now.items ≡ []) }
    {
        self.buffer.is_empty()
    }
}
