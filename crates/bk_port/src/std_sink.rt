//! A sink over a writer of the system.

ghost use Rattle.std.specs.Prelude.{ℕ, None, ◌≡◌, take, length, IsOk, IfOk, OnErr};
ghost use Rattle.std.specs.Io.KnownBytes.{Appends};
ghost use Rattle.bk_port.specs.Causes.{HasCause};
ghost use Rattle.bk_port.specs.Reading.{counted};
ghost use Rattle.bk_port.specs.Writing.{Writes};

use crate::host::Failed;
use crate::sink::Sink;
use std::io::Write;
use std::marker::Model;

/// A sink over a writer, as standard output or standard error. It tells nothing of what was written.
///
/// It flushes after each write of a piece that is not empty. It counts each error of such a write or
/// flush, and each write that takes none of such a piece.
///
/// Contracts see the writer, and how often a write failed.
#[derive(Debug, Drop)]
pub struct StdSink<W: Write + Drop> {
    writer: W,
    faults: u64,
}

impl<W: Write + Drop> Model for StdSink<W> {
    ghost use Rattle.bk_port.specs.System.{StdStore};

    ghost Value = { StdStore W };

    ghost view = { λ s. record { writer = s.writer; faults = s.faults } };
}

impl<W: Write + Drop> StdSink<W> {
    /// A sink over this writer, which has had no fault.
    pub fn new(writer: W) -> StdSink<W>
        ensures { result ≡ record { writer = writer; faults = 0 } }
    {
        StdSink { writer, faults: 0 }
    }
}

impl<W: Write + Drop> Sink for StdSink<W> {
    ghost written = { λ _. None };

    ghost faults = { λ s. s.faults };

    /// Passes a front part of `buf` on to the writer, and flushes it. It counts each call that
    /// fails, and then a front part may have been passed on as well.
    fn write(&mut self, buf: &[u8]) -> Result<usize, Failed>
        ensures written { IfOk result (Writes None None buf.now) }
        ensures empty { length buf.now ≡ 0 → IsOk result }
        ensures cause { HasCause self.old.faults self.new.faults result }
        ensures passed { IfOk result (λ n.
            Appends (W.contents self.old.writer) (W.contents self.new.writer) (take n buf.now)) }
        ensures err_passed { OnErr result ((n : ℕ) ×
            Appends (W.contents self.old.writer) (W.contents self.new.writer) (take n buf.now)) }
        ensures faults { IfOk result (λ _. self.new.faults ≡ self.old.faults) }
        ensures err_faults { OnErr result (self.new.faults ≡ counted self.old.faults 1) }
    {
        if buf.is_empty() {
            return Ok(0);
        }
        if let Ok(count) = self.writer.write(buf)
            && count > 0
            && self.writer.flush().is_ok()
        {
            return Ok(count);
        }
        self.faults = self.faults.saturating_add(1);
        Err(Failed)
    }
}
