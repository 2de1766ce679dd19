//! Reading a whole file.

ghost use Rattle.std.specs.Prelude.{ℕ, ◌≡◌, ◌+◌, ◌<◌, ◌≤◌, ◌⊎◌, List, length, IfOk, IfSome, IsErrOf};
ghost use Rattle.bk_port.specs.Causes.{Rose};
ghost use Rattle.bk_port.specs.Reading.{IsLeftAfter, HasReadAtMost};

use crate::host::Host;
use bk_base::{Bytes, Text};
use std::alloc::Global;
use thiserror::Error;

/// The most bytes of one file that are taken: 16 MiB.
pub const MOST_BYTES: usize = 16_777_216;

// The bytes that are asked for at once.
const PIECE: usize = 65_536;

/// Why a file could not be loaded.
#[derive(Clone, Copy, Debug, PartialEq, Eq, Error)]
pub enum LoadFault {
    #[error("the file could not be read")]
    ReadFault,
    #[error("the file has more than {} bytes", MOST_BYTES)]
    TooLarge,
    #[error("out of memory")]
    NoMemory,
}

/// All bytes that the name holds, of which there may be at most [`MOST_BYTES`].
///
/// It fails with `ReadFault` only where the host's faults of this name rose, and with `TooLarge`
/// exactly where one byte more than [`MOST_BYTES`] was read; it never reads further.
pub fn load<H: Host>(alloc: Global, host: &mut H, name: &Text) -> Result<Bytes, LoadFault>
    ensures whole { IfOk result (λ bytes. IfSome (H.holds host.old name.now) (λ all. bytes.items ≡ all)) }
    ensures size { IfOk result (λ bytes. (length bytes.items ≤ MOST_BYTES) × (H.count host.new ≡ length bytes.items)) }
    ensures read_fault { IsErrOf result LoadFault.ReadFault →
        Rose (H.faults host.old name.now) (H.faults host.new name.now) }
    ensures too_large { IsErrOf result LoadFault.TooLarge → H.count host.new ≡ MOST_BYTES + 1 }
    ensures not_too_large { IsErrOf result LoadFault.TooLarge ⊎
        HasReadAtMost MOST_BYTES (H.count host.old) (H.count host.new) }
    ensures too_large_known { IsErrOf result LoadFault.TooLarge →
        IfSome (H.holds host.old name.now) (λ all. MOST_BYTES < length all) }
    ensures no_memory { IsErrOf result LoadFault.NoMemory → H.count host.new ≤ MOST_BYTES }
    ensures left { IsLeftAfter (MOST_BYTES + 1) (H.holds host.old name.now) (H.left host.old) (H.left host.new) }
    ensures holds { (n : List ℕ) → H.holds host.new n ≡ H.holds host.old n }
    ensures later { (n : List ℕ) → H.faults host.old n ≤ H.faults host.new n }
{
    let mut bytes = Bytes::new(alloc);
    if host.start(name).is_err() {
        return Err(LoadFault::ReadFault);
    }
    let mut piece = [0u8; PIECE];
    'pieces: loop {
        let room = PIECE.min(MOST_BYTES + 1 - bytes.len());
        match host.read(name, &mut piece[..room]) {
            Err(_) => return Err(LoadFault::ReadFault),
            Ok(0) => return Ok(bytes),
            Ok(count) => {
                if count > MOST_BYTES - bytes.len() {
                    return Err(LoadFault::TooLarge);
                }
                if bytes.extend(&piece[..count]).is_err() {
                    return Err(LoadFault::NoMemory);
                }
            }
        }
    }
}
