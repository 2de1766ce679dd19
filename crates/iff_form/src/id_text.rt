//! The text of an id.

ghost use Rattle.std.specs.Prelude.{◌≡◌};

use crate::id::Id;
use std::marker::Model;

/// The text of an id: its four bytes where all are ASCII letters or digits, and else `#` and eight
/// lower-case hexadecimal digits. It takes no memory.
#[derive(Debug, Drop)]
pub struct IdText {
    bytes: [u8; 9],
    len: usize,
}

impl Model for IdText {
    ghost use Rattle.std.specs.Prelude.{ℕ, ◌≤◌, List, take};

    ghost Value = { List ℕ };

    ghost view = { λ t. take t.len t.bytes };

    ghost invariant = { λ t. t.len ≤ 9 };
}

impl IdText {
    ghost use Rattle.iff_form.specs.Text.{id_text};

    /// The text of this id.
    pub fn new(id: Id) -> IdText
        ensures { result ≡ id_text id }
    {
        let mut bytes = [b'#'; 9];
        if id.is_plain() {
            bytes[..4].copy_from_slice(&id.0);
            return IdText { bytes, len: 4 };
        }
        hex::encode_to_slice(id.0, &mut bytes[1..]).unwrap();
        IdText { bytes, len: 9 }
    }

    /// The text's bytes.
    pub fn as_bytes(&self) -> &[u8]
        ensures { result.now ≡ self.now }
    {
        &self.bytes[..self.len]
    }
}
