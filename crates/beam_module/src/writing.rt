//! Writing the canonical file of a value.

ghost use Rattle.std.specs.Prelude.{◌≡◌, length, All, IfOk, option_copied};
ghost use Rattle.iff_form.specs.Form.{form_size};
ghost use Rattle.beam_module.specs.File.{AreChunks};
ghost use Rattle.beam_module.specs.Canonical.{IsWritable, IsWrittenAs, code_in, canonical_payload, canonical_chunks, canonical_file};

use crate::chunk_value::ChunkVal;
use crate::file_value::FileVal;
use bk_base::{Bytes, NoMemory};
use code_chunk::{CodeVal, write_code};
use iff_form::{chunk_len, put_chunk, put_head};
use std::alloc::Global;

/// The canonical file of a value: its chunks in order with zeros as padding, and each operand of the
/// code in its canonical spelling.
///
/// The operands are proper, as [`write_code`] wants them, and the size word of the file is below 2^32.
/// It fails only for want of memory.
pub fn canon(alloc: Global, v: &FileVal) -> Result<Bytes, NoMemory>
    requires { IsWritable v.now }
    ensures { IfOk result (λ file. file.items ≡ canonical_file v.now) }
{
    let code = written_code(alloc, v)?;
    let size = file_size(v, code.as_slice());
    let mut file = Bytes::new(alloc);
    file.reserve(8 + size as usize)?;
    put_head(&mut file, size)?;
    for (id, value) in v.as_slice() {
        put_chunk(&mut file, *id, payload(value, code.as_slice()))?;
    }
    Ok(file)
}

// The code, of which there is one at most.
fn code_of(v: &FileVal) -> Option<&CodeVal>
    ensures found { option_copied result ≡ code_in v.now }
    ensures chunks { AreChunks v.now }
{
    for (_, value) in v.as_slice() {
        if let ChunkVal::Code(code) = value {
            return Some(code);
        }
    }
    None
}

// The canonical payload of the code, and nothing where there is none.
fn written_code(alloc: Global, v: &FileVal) -> Result<Bytes, NoMemory>
    requires { IsWritable v.now }
    ensures { IfOk result (λ code. All (λ c. IsWrittenAs code.items c.1) v.now) }
{
    match code_of(v) {
        Some(code) => write_code(alloc, code),
        None => Ok(Bytes::new(alloc)),
    }
}

// The canonical payload of a chunk, where this is what is written of the code.
fn payload<'a>(value: &'a ChunkVal, code: &'a [u8]) -> &'a [u8]
    requires { IsWrittenAs code.now value.now }
    ensures { result.now ≡ canonical_payload value.now }
{
    match value {
        ChunkVal::Code(_) => code,
        ChunkVal::Raw(bytes) => bytes.as_slice(),
    }
}

// The size word of the canonical file, where this is what is written of the code.
fn file_size(v: &FileVal, code: &[u8]) -> u32
    requires writable { IsWritable v.now }
    requires code { All (λ c. IsWrittenAs code.now c.1) v.now }
    ensures { result ≡ form_size (canonical_chunks v.now) }
{
    let mut size = 4;
    for (_, value) in v.as_slice() {
        size += chunk_len(payload(value, code)) as u32;
    }
    size
}
