//! A sink whose output stays in memory.

ghost use Rattle.std.specs.Prelude.{ℕ, ◌≡◌, ◌+◌, ◌<◌, min, List, [], Option, Some, length, IsOk, IfOk, OnErr};
ghost use Rattle.bk_port.specs.Causes.{HasCause};
ghost use Rattle.bk_port.specs.Reading.{counted};
ghost use Rattle.bk_port.specs.Writing.{Writes};

use crate::host::Failed;
use crate::sink::Sink;
use bk_base::{Bytes, NoMemory};
use std::alloc::Global;
use std::marker::Model;

/// A sink that keeps what is written, up to the room that was taken when it was made.
///
/// Contracts see the bytes that were written, the room that is left, and how often a write was
/// refused because no room was left.
#[derive(Debug, Drop)]
pub struct MemSink {
    buffer: Bytes,
    left: usize,
    refused: u64,
}

impl Model for MemSink {
    ghost use Rattle.std.specs.Prelude.{◌≤◌};
    ghost use Rattle.bk_port.specs.Store.{Store};

    ghost Value = { Store };

    ghost view = { λ s. record { bytes = s.buffer.items; room = s.left; faults = s.refused } };

    ghost invariant = { λ s. s.left ≤ s.buffer.room };
}

impl MemSink {
    /// A sink with room for this many bytes, of which none is written.
    pub fn new(alloc: Global, room: usize) -> Result<MemSink, NoMemory>
        ensures { IfOk result (λ sink. sink ≡ record { bytes = []; room = room; faults = 0 }) }
    {
        let mut buffer = Bytes::new(alloc);
        buffer.reserve(room)?;
        Ok(MemSink {
            buffer,
            left: room,
            refused: 0,
        })
    }

    /// The bytes that were written.
    pub fn written(&self) -> &[u8]
        ensures bytes { result.now ≡ self.now.bytes }
        ensures told { ⟦<MemSink as Sink>⟧.written self.now ≡ Some result.now }
    {
        self.buffer.as_slice()
    }
}

impl Sink for MemSink {
    ghost written = { λ s. Some s.bytes };

    ghost faults = { λ s. s.faults };

    /// Writes as many bytes of `buf` as there is room for. It fails exactly where `buf` is not empty
    /// and no room is left, and counts that.
    fn write(&mut self, buf: &[u8]) -> Result<usize, Failed>
        ensures written { IfOk result (Writes (Some self.old.bytes) (Some self.new.bytes) buf.now) }
        ensures err { OnErr result (self.new.bytes ≡ self.old.bytes) }
        ensures empty { length buf.now ≡ 0 → IsOk result }
        ensures cause { HasCause self.old.faults self.new.faults result }
        ensures full { OnErr result (self.old.room ≡ 0) }
        ensures taken { IfOk result (λ n. n ≡ min (length buf.now) self.old.room) }
        ensures room { IfOk result (λ n. self.new.room + n ≡ self.old.room) }
        ensures err_room { OnErr result (self.new.room ≡ self.old.room) }
        ensures faults { IfOk result (λ _. self.new.faults ≡ self.old.faults) }
        ensures err_faults { OnErr result (self.new.faults ≡ counted self.old.faults 1) }
    {
        if buf.is_empty() {
            return Ok(0);
        }
        if self.left == 0 {
            self.refused = self.refused.saturating_add(1);
            return Err(Failed);
        }
        let count = buf.len().min(self.left);
        match self.buffer.extend(&buf[..count]) {
            Ok(()) => {
                self.left -= count;
                Ok(count)
            }
            Err(_) => unreachable!(),
        }
    }
}
