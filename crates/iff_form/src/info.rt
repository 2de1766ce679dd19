//! The text that tells a form's size and its chunks.

ghost use Rattle.std.specs.Prelude.{◌≡◌, ◌++◌, IfOk, OnOk};
ghost use Rattle.iff_form.specs.Chunk.{plain};
ghost use Rattle.iff_form.specs.Text.{chunk_line, info_of};

use crate::chunk::Chunk;
use crate::form::Form;
use crate::id_text::IdText;
use bk_base::{Bytes, NoMemory};
use bk_text::put_marked;
use std::alloc::Global;

// Puts the line of one chunk at the end: its id, and the payload's length in bytes.
fn put_chunk_line(out: &mut Bytes, chunk: &Chunk<'_>) -> Result<(), NoMemory>
    ensures { OnOk result (out.new.items ≡ out.old.items ++ chunk_line (plain chunk.now)) }
{
    out.extend(IdText::new(chunk.id).as_bytes())?;
    put_marked(out, b" ", chunk.payload.len())?;
    out.push(b'\n')
}

/// The line `form S` with the form's size word, and then a line for each chunk in the order of the
/// file: its id and the length of its payload in bytes, in decimal.
pub fn info_text(alloc: Global, form: &Form<'_>) -> Result<Bytes, NoMemory>
    ensures { IfOk result (λ text. text.items ≡ info_of form.now) }
{
    let mut out = Bytes::new(alloc);
    put_marked(&mut out, b"form ", form.size())?;
    out.push(b'\n')?;
    for chunk in form.chunks() {
        put_chunk_line(&mut out, chunk)?;
    }
    Ok(out)
}
