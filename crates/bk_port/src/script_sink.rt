//! A sink in memory that fails at a given write.

ghost use Rattle.std.specs.Prelude.{ℕ, ◌≡◌, ◌+◌, ◌<◌, ◌≤◌, ◌↔◌, min, List, [], Option, Some, length, IsOk, IsErr, IfOk, OnErr};
ghost use Rattle.bk_port.specs.Causes.{HasCause};
ghost use Rattle.bk_port.specs.Reading.{counted};
ghost use Rattle.bk_port.specs.Script.{FailsAt};
ghost use Rattle.bk_port.specs.Writing.{Writes};

use crate::host::Failed;
use crate::mem_sink::MemSink;
use crate::sink::Sink;
use bk_base::NoMemory;
use std::alloc::Global;
use std::marker::Model;

/// A sink that keeps what is written, up to the room that was taken when it was made, takes at most
/// so many bytes a write, and fails at the write of a given number, counted from 1.
///
/// Contracts see the bytes that were written, the room that is left, the most bytes that one write
/// takes, the number of the write that fails, how many writes there were, and how many failed.
#[derive(Debug, Drop)]
pub struct ScriptSink {
    sink: MemSink,
    piece: usize,
    fail_at: u64,
    writes: u64,
    failed: u64,
}

impl Model for ScriptSink {
    ghost use Rattle.std.specs.Prelude.{◌≤◌};
    ghost use Rattle.bk_port.specs.Script.{ScriptStore};

    ghost Value = { ScriptStore };

    ghost view = { λ s. record { bytes = s.sink.bytes; room = s.sink.room; piece = s.piece; fail_at = s.fail_at; writes = s.writes; faults = s.failed } };

    ghost invariant = { λ s. 1 ≤ s.piece };
}

impl ScriptSink {
    /// A sink with room for this many bytes, of which none is written, that takes at most `piece`
    /// bytes a write and fails at write `fail_at`. At 0 no write fails by its number.
    pub fn new(
        alloc: Global,
        room: usize,
        piece: usize,
        fail_at: u64,
    ) -> Result<ScriptSink, NoMemory>
        requires { 1 ≤ piece }
        ensures { IfOk result (λ sink. sink ≡ record { bytes = []; room = room; piece = piece; fail_at = fail_at; writes = 0; faults = 0 }) }
    {
        Ok(ScriptSink {
            sink: MemSink::new(alloc, room)?,
            piece,
            fail_at,
            writes: 0,
            failed: 0,
        })
    }

    /// The bytes that were written.
    pub fn written(&self) -> &[u8]
        ensures bytes { result.now ≡ self.now.bytes }
        ensures told { ⟦<ScriptSink as Sink>⟧.written self.now ≡ Some result.now }
    {
        self.sink.written()
    }
}

impl Sink for ScriptSink {
    ghost written = { λ s. Some s.bytes };

    ghost faults = { λ s. s.faults };

    /// Writes as many bytes of `buf` as there is room for, and at most one piece. It fails exactly
    /// where `buf` is not empty, and no room is left or this write is the one that fails. It counts
    /// each write, and each that fails.
    fn write(&mut self, buf: &[u8]) -> Result<usize, Failed>
        ensures written { IfOk result (Writes (Some self.old.bytes) (Some self.new.bytes) buf.now) }
        ensures err { OnErr result (self.new.bytes ≡ self.old.bytes) }
        ensures empty { length buf.now ≡ 0 → IsOk result }
        ensures cause { HasCause self.old.faults self.new.faults result }
        ensures writes { self.new.writes ≡ counted self.old.writes 1 }
        ensures fails { IsErr result ↔ FailsAt self.old self.new.writes buf.now }
        ensures taken { IfOk result (λ n. n ≡ min (min (length buf.now) self.old.piece) self.old.room) }
        ensures room { IfOk result (λ n. self.new.room + n ≡ self.old.room) }
        ensures err_room { OnErr result (self.new.room ≡ self.old.room) }
        ensures faults { IfOk result (λ _. self.new.faults ≡ self.old.faults) }
        ensures err_faults { OnErr result (self.new.faults ≡ counted self.old.faults 1) }
        ensures piece { self.new.piece ≡ self.old.piece }
        ensures fail_at { self.new.fail_at ≡ self.old.fail_at }
    {
        self.writes = self.writes.saturating_add(1);
        if buf.is_empty() {
            return Ok(0);
        }
        if self.writes != self.fail_at
            && let Ok(count) = self.sink.write(&buf[..buf.len().min(self.piece)])
        {
            return Ok(count);
        }
        self.failed = self.failed.saturating_add(1);
        Err(Failed)
    }
}
