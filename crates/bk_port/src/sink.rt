//! Where output is written to.

ghost use Rattle.std.specs.Prelude.{ℕ, ◌≡◌, List, Option, length, IsOk, IfOk, OnErr};
ghost use Rattle.bk_port.specs.Causes.{HasCause};
ghost use Rattle.bk_port.specs.Writing.{Writes};

use crate::host::Failed;
use thiserror::Error;

/// A sink failed before all bytes were written.
#[derive(Clone, Copy, Debug, PartialEq, Eq, Error)]
#[error("the output could not be written")]
pub struct WriteFault;

/// A place that bytes are written to.
///
/// Contracts see what was `written`, where the type tells it, and the `faults`, a count that never
/// falls.
pub trait Sink {
    ghost written: { Self → Option (List ℕ) };

    ghost faults: { Self → ℕ };

    /// Writes a front part of `buf`, at least one byte of one that is not empty, and says how many.
    ///
    /// An empty buffer is never refused. It fails only where the faults rose in this call, and then
    /// what was written is as before, where the type tells it.
    fn write(&mut self, buf: &[u8]) -> Result<usize, Failed>
        ensures written { IfOk result (Writes (written self.old) (written self.new) buf.now) }
        ensures err { OnErr result (written self.new ≡ written self.old) }
        ensures empty { length buf.now ≡ 0 → IsOk result }
        ensures cause { HasCause (faults self.old) (faults self.new) result };
}
