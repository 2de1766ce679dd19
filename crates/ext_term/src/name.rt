//! The text of a name.

ghost use Rattle.std.specs.Prelude.{◌≡◌, ◌++◌, OnOk, OnErr};
ghost use Rattle.std.specs.List.{list_all};
ghost use Rattle.ext_term.specs.Name.{escaped, is_bare, is_name_byte, name_text};
ghost use Rattle.bk_text.specs.Fronts.{AddsFront};

use bk_base::{Bytes, NoMemory};

/// Appends the text of a name to `out`.
///
/// A name that begins with a lower-case letter and goes on in letters, digits, `_` and `@`, all of
/// them ASCII, is written as it is. Every other name, the empty one among them, stands in single
/// quotes, with `\'` for a quote, `\\` for a backslash and `\xHH` for a byte below 32 and for 127.
///
/// Where memory is wanting, a front of the text may have been appended.
pub fn name_text(name: &[u8], out: &mut Bytes) -> Result<(), NoMemory>
    ensures ok { OnOk result (out.new.items ≡ out.old.items ++ name_text name.now) }
    ensures err { OnErr result (AddsFront (name_text name.now) out.old.items out.new.items) }
{
    if is_bare(name) {
        return out.extend(name);
    }
    out.push(b'\'')?;
    for b in name {
        push_escaped(out, *b)?;
    }
    out.push(b'\'')
}

#[tactic(auto, using(crate::proofs::Quoted::bare_split))]
fn is_bare(name: &[u8]) -> bool
    ensures { result ≡ is_bare name.now }
{
    match name {
        [] => false,
        [first, others @ ..] => first.is_ascii_lowercase() && are_name_bytes(others),
    }
}

fn are_name_bytes(bytes: &[u8]) -> bool
    ensures { result ≡ list_all is_name_byte bytes.now }
{
    bytes
        .iter()
        .all(|b| b.is_ascii_alphanumeric() || *b == b'_' || *b == b'@')
}

fn push_escaped(out: &mut Bytes, b: u8) -> Result<(), NoMemory>
    ensures ok { OnOk result (out.new.items ≡ out.old.items ++ escaped b) }
    ensures err { OnErr result (out.new.items ≡ out.old.items) }
{
    match b {
        b'\'' => out.extend(b"\\'"),
        b'\\' => out.extend(b"\\\\"),
        _ if b.is_ascii_control() => {
            let mut digits = [0; 2];
            hex::encode_to_slice([b], &mut digits).unwrap();
            out.extend(&[b'\\', b'x', digits[0], digits[1]])
        }
        _ => out.push(b),
    }
}
