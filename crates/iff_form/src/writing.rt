//! Writing a form.

ghost use Rattle.std.specs.Prelude.{◌≡◌, ◌<◌, ◌^◌, ◌++◌, length, IfOk, OnOk};
ghost use Rattle.byteorder.specs.Endian.{big_bytes};
ghost use Rattle.iff_form.specs.Canonical.{canonical_chunk, canonical_form, zeros_behind};
ghost use Rattle.iff_form.specs.Form.{form_size, head_of};

use crate::chunk::{chunk_len, padding};
use crate::chunk_list::ChunkList;
use crate::id::Id;
use bk_base::{Bytes, NoMemory};
use std::alloc::Global;

// The longest padding.
const ZEROS: [u8; 3] = [0; 3];

// The zeros that fill up a payload of this length to a multiple of four bytes.
fn zeros_behind(size: usize) -> &'static [u8]
    ensures { result.now ≡ zeros_behind size }
{
    &ZEROS[..padding(size)]
}

fn put_word(out: &mut Bytes, n: u32) -> Result<(), NoMemory>
    ensures { OnOk result (out.new.items ≡ out.old.items ++ big_bytes 4 n) }
{
    out.extend(&n.to_be_bytes())
}

/// Puts what stands before the chunks of a form at the end: `FOR1`, the size word, which is the
/// form's length less 8, and `BEAM`. Where memory is wanting a front of that may stand there.
pub fn put_head(out: &mut Bytes, size: u32) -> Result<(), NoMemory>
    ensures { OnOk result (out.new.items ≡ out.old.items ++ head_of size) }
{
    out.extend(b"FOR1")?;
    put_word(out, size)?;
    out.extend(b"BEAM")
}

/// Puts a chunk at the end: its id, the payload's length as a word, the payload, and zeros up to a
/// multiple of four bytes. Where memory is wanting a front of that may stand there.
pub fn put_chunk(out: &mut Bytes, id: Id, payload: &[u8]) -> Result<(), NoMemory>
    requires { length payload.now < 2 ^ 32 }
    ensures { OnOk result (out.new.items ≡ out.old.items ++ canonical_chunk (record { id = id; payload = payload.now })) }
{
    out.extend(&id.0)?;
    put_word(out, payload.len() as u32)?;
    out.extend(payload)?;
    out.extend(zeros_behind(payload.len()))
}

// The size word of the form of these chunks.
fn size_of(chunks: &ChunkList) -> u32
    requires { form_size chunks.now < 2 ^ 32 }
    ensures { result ≡ form_size chunks.now }
{
    let mut size = 4;
    for chunk in chunks.as_slice() {
        size += chunk_len(chunk.payload.as_slice()) as u32;
    }
    size
}

/// The form of the chunks in their order, with zeros as padding. Its size word is below 2^32.
pub fn write_form(alloc: Global, chunks: &ChunkList) -> Result<Bytes, NoMemory>
    requires { form_size chunks.now < 2 ^ 32 }
    ensures { IfOk result (λ file. file.items ≡ canonical_form chunks.now) }
{
    let size = size_of(chunks);
    let mut out = Bytes::new(alloc);
    out.reserve(8 + size as usize)?;
    put_head(&mut out, size)?;
    for chunk in chunks.as_slice() {
        put_chunk(&mut out, chunk.id, chunk.payload.as_slice())?;
    }
    Ok(out)
}
