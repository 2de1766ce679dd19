//! Bytes in hexadecimal.

ghost use Rattle.std.specs.Prelude.{◌≡◌, ◌*◌, ◌≤◌, length};
ghost use Rattle.std.specs.Char.{is_ascii_uppercase};
ghost use Rattle.std.specs.List.{list_any};
ghost use Rattle.std.specs.Result.{result_ok};
ghost use Rattle.hex.specs.Hex.{decode_of};
ghost use Rattle.bk_parse.specs.Answer.{Appends};
ghost use Rattle.bk_parse.specs.HexBytes.{bytes_of};

use crate::refusal::TextRefusal;
use bk_base::Bytes;

// How many bytes are decoded at a time.
const ROW: usize = 32;

/// Puts the bytes at the end that hexadecimal digits write, two in lower case for each. It is refused
/// as `Wrong` exactly where they write none, by an odd digit or another byte, or for want of memory;
/// `out` may then have grown by some of them.
pub fn read_hex(out: &mut Bytes, digits: &[u8]) -> Result<(), TextRefusal>
    ensures { Appends result (bytes_of digits.now) out.old.items out.new.items }
{
    if has_upper(digits) {
        return Err(TextRefusal::Wrong);
    }
    for row in digits.chunks(2 * ROW) {
        read_row(out, row)?;
    }
    Ok(())
}

fn has_upper(digits: &[u8]) -> bool
    ensures { result ≡ list_any is_ascii_uppercase digits.now }
{
    digits.iter().any(|digit| digit.is_ascii_uppercase())
}

// Puts the bytes of a row at the end, whose digits may be in upper case too.
fn read_row(out: &mut Bytes, row: &[u8]) -> Result<(), TextRefusal>
    requires { length row.now ≤ 2 * ROW }
    ensures { Appends result (result_ok (decode_of row.now)) out.old.items out.new.items }
{
    let mut buffer = [0; ROW];
    let bytes = &mut buffer[..row.len() / 2];
    if hex::decode_to_slice(row, bytes).is_err() {
        return Err(TextRefusal::Wrong);
    }
    out.extend(bytes)?;
    Ok(())
}
