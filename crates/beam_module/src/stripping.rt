//! Stripping a file.

ghost use Rattle.std.specs.Prelude.{◌≡◌, IfOk};
ghost use Rattle.iff_form.specs.Chunk.{plain};
ghost use Rattle.iff_form.specs.Form.{form_size};
ghost use Rattle.beam_module.specs.Strip.{is_kept, stripped, stripped_file};

use bk_base::{Bytes, NoMemory};
use iff_form::{Chunk, Form, Id, chunk_len, put_chunk, put_head};
use std::alloc::Global;

// The ids of the chunks that a running node wants.
const KEPT: [Id; 11] = [
    Id(*b"Atom"),
    Id(*b"AtU8"),
    Id(*b"Code"),
    Id(*b"StrT"),
    Id(*b"ImpT"),
    Id(*b"ExpT"),
    Id(*b"FunT"),
    Id(*b"LitT"),
    Id(*b"Meta"),
    Id(*b"Line"),
    Id(*b"Type"),
];

fn is_kept(chunk: &Chunk<'_>) -> bool
    ensures { result ≡ is_kept (plain chunk.now) }
{
    KEPT.contains(&chunk.id)
}

// The size word of the stripped file.
fn stripped_size(form: &Form<'_>) -> u32
    ensures { result ≡ form_size (stripped form.now) }
{
    let mut size = 4;
    for chunk in form.chunks() {
        if is_kept(chunk) {
            size += chunk_len(chunk.payload) as u32;
        }
    }
    size
}

/// The stripped file of a form: the chunks that a running node wants, in their order, with their
/// payloads as they are and zeros as padding.
pub fn strip(alloc: Global, form: &Form<'_>) -> Result<Bytes, NoMemory>
    ensures { IfOk result (λ file. file.items ≡ stripped_file form.now) }
{
    let size = stripped_size(form);
    let mut out = Bytes::new(alloc);
    out.reserve(8 + size as usize)?;
    put_head(&mut out, size)?;
    for chunk in form.chunks() {
        if is_kept(chunk) {
            put_chunk(&mut out, chunk.id, chunk.payload)?;
        }
    }
    Ok(out)
}
