//! Text, as its bytes.

ghost use Rattle.std.specs.Prelude.{◌≡◌, IfOk, OnOk, IsErrOf, string_bytes};
ghost use Rattle.std.specs.Str.{IsUtf8};
ghost use Rattle.bk_base.specs.declared.text.TextFault.TheVariants as faults;

use std::alloc::{AllocError, Global};
use std::marker::Model;
use thiserror::Error;

/// Text in UTF-8, which contracts see as its bytes.
#[derive(Debug, Drop)]
pub struct Text {
    text: String,
}

impl Model for Text {
    ghost use Rattle.std.specs.Prelude.{ℕ, List, string_bytes};

    ghost Value = { List ℕ };

    ghost view = { λ t. string_bytes t.text };
}

/// Why bytes could not be made into a text.
#[derive(Clone, Copy, Debug, PartialEq, Eq, Error)]
pub enum TextFault {
    #[error("the bytes are not UTF-8")]
    NotUtf8,
    #[error("out of memory")]
    NoMemory,
}

impl From<AllocError> for TextFault {
    ghost from_gives = { λ _ e. e ≡ faults.NoMemory };

    fn from(_e: AllocError) -> TextFault {
        TextFault::NoMemory
    }
}

impl Text {
    /// A copy of the bytes, where they are UTF-8.
    pub fn from_bytes(alloc: Global, s: &[u8]) -> Result<Text, TextFault>
        ensures same { IfOk result (λ t. t ≡ s.now) }
        ensures utf8 { OnOk result (IsUtf8 s.now) }
        ensures not_utf8 { IsErrOf result TextFault.NotUtf8 → ¬ IsUtf8 s.now }
    {
        match std::str::from_utf8(s) {
            Ok(text) => Ok(Text {
                text: String::from_str(alloc, text)?,
            }),
            Err(_) => Err(TextFault::NotUtf8),
        }
    }

    /// The text's bytes.
    pub fn as_bytes(&self) -> &[u8]
        ensures same { result.now ≡ self.now }
        ensures utf8 { IsUtf8 self.now }
    {
        self.text.as_str().as_bytes()
    }

    /// The text, for what takes a `&str`.
    pub fn as_str(&self) -> &str
        ensures { result.now ≡ self.now }
    {
        self.text.as_str()
    }
}

impl From<String> for Text {
    ghost from_gives = { λ s t. t ≡ string_bytes s };

    fn from(text: String) -> Text {
        Text { text }
    }
}
