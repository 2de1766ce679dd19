//! The id of a chunk.

ghost use Rattle.std.specs.Prelude.{◌≡◌, ◌↔◌, IsTrue};

/// The four bytes that name a chunk, such as `Code`.
#[derive(Clone, Copy, Debug, PartialEq, Eq, PartialOrd, Ord, Hash)]
pub struct Id(pub [u8; 4]);

impl Id {
    ghost use Rattle.iff_form.specs.Text.{is_plain_id};

    /// Whether all four bytes are ASCII letters or digits, so that the id is printed as they are.
    pub fn is_plain(&self) -> bool
        ensures { result ≡ is_plain_id self.now }
    {
        self.0.iter().all(u8::is_ascii_alphanumeric)
    }
}
