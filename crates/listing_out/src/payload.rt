//! The lines of a payload.

ghost use Rattle.std.specs.Prelude.{◌≡◌, ◌∷◌, ◌++◌, ◌≤◌, codes, length, OnOk};
ghost use Rattle.hex.specs.Hex.{encode_lower};
ghost use Rattle.iff_form.specs.Text.{id_text};
ghost use Rattle.listing_out.specs.Lines.{payload_lines, text_of};

use bk_base::{Bytes, NoMemory};
use bk_text::{ROW, put_row};
use iff_form::{Id, IdText};

/// Appends the lines of a chunk that is listed by its payload to `out`: the line `chunk ID`, and the
/// lines of the payload.
pub(crate) fn put_raw(out: &mut Bytes, id: Id, payload: &[u8]) -> Result<(), NoMemory>
    ensures { OnOk result (out.new.items ≡ out.old.items ++ text_of ((codes "chunk " ++ id_text id) ∷ payload_lines payload.now)) }
{
    out.extend(b"chunk ")?;
    out.extend(IdText::new(id).as_bytes())?;
    out.push(b'\n')?;
    put_payload(out, payload)
}

/// Appends the lines of a payload to `out`: two spaces and the digits of 32 bytes each, the last with
/// the rest. An empty payload has no line.
pub(crate) fn put_payload(out: &mut Bytes, payload: &[u8]) -> Result<(), NoMemory>
    ensures { OnOk result (out.new.items ≡ out.old.items ++ text_of (payload_lines payload.now)) }
{
    for row in payload.chunks(ROW) {
        put_payload_line(out, row)?;
    }
    Ok(())
}

fn put_payload_line(out: &mut Bytes, row: &[u8]) -> Result<(), NoMemory>
    requires { length row.now ≤ 32 }
    ensures { OnOk result (out.new.items ≡ out.old.items ++ ((codes "  " ++ encode_lower row.now) ++ codes "\n")) }
{
    out.extend(b"  ")?;
    put_row(out, row)?;
    out.push(b'\n')
}
