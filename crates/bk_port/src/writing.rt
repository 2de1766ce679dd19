//! Writing all bytes.

ghost use Rattle.std.specs.Prelude.{◌≡◌, length, IsOk, OnOk, OnErr};
ghost use Rattle.bk_port.specs.Causes.{HasCause};
ghost use Rattle.bk_port.specs.Known.{after_known};
ghost use Rattle.bk_port.specs.Writing.{WritesPart, joined};

use crate::sink::{Sink, WriteFault};

/// Writes all bytes.
///
/// It fails only where the sink's faults rose, with a front part written, and never where there are
/// no bytes.
pub fn emit<S: Sink>(sink: &mut S, bytes: &[u8]) -> Result<(), WriteFault>
    ensures ok { OnOk result (S.written sink.new ≡ after_known (S.written sink.old) bytes.now) }
    ensures err { OnErr result (WritesPart (S.written sink.old) (S.written sink.new) bytes.now) }
    ensures empty { length bytes.now ≡ 0 → IsOk result }
    ensures cause { HasCause (S.faults sink.old) (S.faults sink.new) result }
{
    let mut rest = bytes;
    while !rest.is_empty() {
        match sink.write(rest) {
            Ok(taken) => rest = &rest[taken..],
            Err(_) => return Err(WriteFault),
        }
    }
    Ok(())
}

/// Writes all pieces, one after the other, without taking memory.
///
/// It fails only where the sink's faults rose, with a front part of the joined pieces written.
pub fn emit_all<S: Sink>(sink: &mut S, pieces: &[&[u8]]) -> Result<(), WriteFault>
    ensures ok { OnOk result (S.written sink.new ≡ after_known (S.written sink.old) (joined pieces.now)) }
    ensures err { OnErr result (WritesPart (S.written sink.old) (S.written sink.new) (joined pieces.now)) }
    ensures cause { HasCause (S.faults sink.old) (S.faults sink.new) result }
{
    for piece in pieces {
        match emit(sink, piece) {
            Ok(()) => {}
            Err(fault) => return Err(fault),
        }
    }
    Ok(())
}
