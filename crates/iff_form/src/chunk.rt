//! A chunk of a form.

ghost use Rattle.std.specs.Prelude.{◌≡◌, length};
ghost use Rattle.iff_form.specs.Chunk.{padding_of, size_with};

use crate::id::Id;

/// A chunk: an id and the payload that it names.
#[derive(Clone, Copy, Debug)]
pub struct Chunk<'a> {
    /// What the chunk holds, such as `Code`.
    pub id: Id,
    /// The payload without its padding.
    pub payload: &'a [u8],
    /// Where the id stands, in bytes from the start of the file.
    pub at: usize,
}

/// How many bytes fill up a payload to a multiple of four.
pub(crate) fn padding(size: usize) -> usize
    ensures { result ≡ padding_of size }
{
    (4 - size % 4) % 4
}

/// How many bytes a chunk with this payload takes in a form: the id, the size word, the payload and
/// its padding.
pub fn chunk_len(payload: &[u8]) -> usize
    ensures { result ≡ size_with (length payload.now) }
{
    8 + payload.len() + padding(payload.len())
}
