//! Bytes in hexadecimal.

ghost use Rattle.std.specs.Prelude.{◌≡◌, ◌++◌, ◌≤◌, length, reverse, OnOk};
ghost use Rattle.hex.specs.Hex.{encode_lower};

use bk_base::{Bytes, NoMemory};

/// How many bytes stand in a row of digits.
pub const ROW: usize = 32;

/// Puts the digits of the bytes of a row at the end, two in lower case for each.
pub fn put_row(out: &mut Bytes, row: &[u8]) -> Result<(), NoMemory>
    requires { length row.now ≤ ROW }
    ensures { OnOk result (out.new.items ≡ out.old.items ++ encode_lower row.now) }
{
    let mut buffer = [0; 2 * ROW];
    let digits = &mut buffer[..2 * row.len()];
    hex::encode_to_slice(row, digits).unwrap();
    out.extend(digits)
}

/// Puts the digits of bytes at the end, two in lower case for each.
pub fn put_hex(out: &mut Bytes, bytes: &[u8]) -> Result<(), NoMemory>
    ensures { OnOk result (out.new.items ≡ out.old.items ++ encode_lower bytes.now) }
{
    for row in bytes.chunks(ROW) {
        put_row(out, row)?;
    }
    Ok(())
}

/// Puts the digits of bytes at the end, from the last byte to the first.
pub fn put_hex_backwards(out: &mut Bytes, bytes: &[u8]) -> Result<(), NoMemory>
    ensures { OnOk result (out.new.items ≡ out.old.items ++ encode_lower (reverse bytes.now)) }
{
    for b in bytes.iter().rev() {
        put_row(out, &[*b])?;
    }
    Ok(())
}
