//! Bytes that stand inside a value.

ghost use Rattle.std.specs.Prelude.{◌≡◌, ◌↔◌, [], length, IsTrue, IfOk};

use crate::bytes::Bytes;
use crate::memory::NoMemory;
use std::alloc::Global;
use std::marker::Model;

/// Bytes that are part of a value, such as a file of a host in memory.
///
/// Contracts see the list of the bytes alone, so values that hold the same bytes are equal, however
/// much room their buffers have. It is made of a [`Bytes`] and gives it back without taking memory.
#[derive(Debug, Drop)]
pub struct ByteList {
    bytes: Bytes,
}

impl Model for ByteList {
    ghost use Rattle.std.specs.Prelude.{ℕ, List};

    ghost Value = { List ℕ };

    ghost view = { λ l. l.bytes.items };
}

impl ByteList {
    /// No bytes, without memory taken.
    pub fn new(alloc: Global) -> ByteList
        ensures { result ≡ [] }
    {
        ByteList {
            bytes: Bytes::new(alloc),
        }
    }

    /// A copy of the bytes.
    pub fn from_slice(alloc: Global, s: &[u8]) -> Result<ByteList, NoMemory>
        ensures { IfOk result (λ l. l ≡ s.now) }
    {
        let mut bytes = Bytes::new(alloc);
        bytes.extend(s)?;
        Ok(ByteList { bytes })
    }

    /// The bytes.
    pub fn as_slice(&self) -> &[u8]
        ensures { result.now ≡ self.now }
    {
        self.bytes.as_slice()
    }

    /// How many bytes there are.
    pub fn len(&self) -> usize
        ensures { result ≡ length self.now }
    {
        self.bytes.len()
    }

    /// Whether there is none.
    pub fn is_empty(&self) -> bool
        ensures { IsTrue result ↔ (self.now ≡ []) }
    {
        self.bytes.is_empty()
    }
}

impl From<Bytes> for ByteList {
    ghost from_gives = { λ b l. l ≡ b.items };

    fn from(bytes: Bytes) -> ByteList {
        ByteList { bytes }
    }
}

impl From<ByteList> for Bytes {
    ghost from_gives = { λ l b. b.items ≡ l };

    fn from(list: ByteList) -> Bytes {
        list.bytes
    }
}
