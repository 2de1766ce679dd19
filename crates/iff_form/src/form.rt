//! A form that was read.

ghost use Rattle.std.specs.Prelude.{◌≡◌, ◌<◌, ◌^◌, length, map, option_copied, IfSome};
ghost use Rattle.iff_form.specs.Chunk.{plains};
ghost use Rattle.iff_form.specs.Form.{AreDistinct, form_size, offsets_from, payload_of};

use crate::chunk::Chunk;
use crate::id::Id;
use std::marker::Model;

/// The chunks of a form, in the order of the file, whose bytes they borrow.
///
/// Contracts see the list of the chunks without where they lie.
#[derive(Debug, Drop)]
pub struct Form<'a> {
    pub(crate) chunks: Vec<Chunk<'a>>,
    pub(crate) size: u32,
}

impl<'a> Model for Form<'a> {
    ghost use Rattle.std.specs.Prelude.{List};
    ghost use Rattle.iff_form.specs.Chunk.{PlainChunk, plains};
    ghost use Rattle.iff_form.specs.Kept.{IsKept};

    ghost Value = { List PlainChunk };

    ghost view = { λ f. plains f.chunks.items };

    ghost invariant = { λ f. IsKept f.chunks.items f.size };
}

impl<'a> Form<'a> {
    /// The chunks, in the order of the file.
    pub fn chunks(&self) -> &[Chunk<'a>]
        ensures same { plains result.now ≡ self.now }
        ensures offsets { map (λ c. c.at) result.now ≡ offsets_from 12 self.now }
        ensures distinct { AreDistinct self.now }
        ensures fits { form_size self.now < 2 ^ 32 }
    {
        self.chunks.as_slice()
    }

    /// The form's size word: the file's length less 8.
    pub fn size(&self) -> u32
        ensures { result ≡ form_size self.now }
    {
        self.size
    }

    /// The payload of the chunk with the id, of fewer than 2^32 bytes. None exactly where no chunk
    /// has it.
    pub fn find(&self, id: Id) -> Option<&'a [u8]>
        ensures found { option_copied result ≡ payload_of id self.now }
        ensures short { IfSome result (λ payload. length payload.now < 2 ^ 32) }
    {
        for chunk in &self.chunks {
            if chunk.id == id {
                return Some(chunk.payload);
            }
        }
        None
    }
}
