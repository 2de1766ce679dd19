//! Reading a file.

ghost use Rattle.std.specs.Prelude.{◌≡◌, ◌⊎◌, List, IfOk, Ok, Err};
ghost use Rattle.bk_codec.specs.Reading.{GivesAll, refused_as};
ghost use Rattle.code_chunk.specs.Reading.{code_at};
ghost use Rattle.code_chunk.specs.Spelling.{SpellsCode};
ghost use Rattle.iff_form.specs.Chunk.{plain, plains};
ghost use Rattle.iff_form.specs.Form.{IsForm};
ghost use Rattle.beam_module.specs.File.{AreChunks, FileChunk, IsFile};
ghost use Rattle.beam_module.specs.Canonical.{FileMeetsType, IsWritable};
ghost use Rattle.beam_module.specs.Reading.{file_of, form_or, value_of, values_of};

use crate::chunk_value::ChunkVal;
use crate::file_value::FileVal;
use crate::refusal::ModuleRefusal;
use bk_base::ByteList;
use code_chunk::{CodeRefusal, CodeVal, read_code};
use iff_form::{Chunk, Form, FormRefusal, Id, read_form};
use std::alloc::Global;

/// The id of the chunk that holds the code.
pub(crate) const CODE: Id = Id(*b"Code");

/// The form that the whole of the bytes is, with the refusals of a file.
pub fn form_from<'a>(alloc: Global, bytes: &'a [u8]) -> Result<Form<'a>, ModuleRefusal>
    ensures found { IfOk result (λ chunks. IsForm chunks bytes.now) }
    ensures exact { GivesAll ModuleRefusal.NoMemory (λ chunks. chunks) result (form_or bytes.now) }
{
    match read_form(alloc, bytes) {
        Ok(form) => Ok(form),
        Err(FormRefusal::NoMemory) => Err(ModuleRefusal::NoMemory),
        Err(refusal) => Err(ModuleRefusal::Form(refusal)),
    }
}

/// The code of a payload, which is that of the chunk `Code`.
pub(crate) fn code_of(alloc: Global, payload: &[u8]) -> Result<CodeVal, ModuleRefusal>
    ensures found { IfOk result (λ code. SpellsCode code payload.now) }
    ensures exact { GivesAll ModuleRefusal.NoMemory (λ code. code) result (refused_as ModuleRefusal.Code (code_at payload.now)) }
{
    match read_code(alloc, payload) {
        Ok(code) => Ok(code),
        Err(CodeRefusal::NoMemory) => Err(ModuleRefusal::NoMemory),
        Err(refusal) => Err(ModuleRefusal::Code(refusal)),
    }
}

fn value_from(alloc: Global, chunk: &Chunk<'_>) -> Result<ChunkVal, ModuleRefusal>
    ensures { GivesAll ModuleRefusal.NoMemory (λ v. (chunk.now.id, v)) result (value_of (plain chunk.now)) }
{
    if chunk.id == CODE {
        return Ok(ChunkVal::Code(code_of(alloc, chunk.payload)?));
    }
    Ok(ChunkVal::Raw(ByteList::from_slice(alloc, chunk.payload)?))
}

fn values_from(alloc: Global, chunks: &[Chunk<'_>]) -> Result<Vec<(Id, ChunkVal)>, ModuleRefusal>
    ensures { GivesAll ModuleRefusal.NoMemory (λ v. v.items) result (values_of (plains chunks.now)) }
{
    let mut values = Vec::new(alloc);
    for chunk in chunks {
        let value = value_from(alloc, chunk)?;
        values.push((chunk.id, value))?;
    }
    Ok(values)
}

fn whole_file(alloc: Global, bytes: &[u8]) -> Result<FileVal, ModuleRefusal>
    ensures { GivesAll ModuleRefusal.NoMemory (λ v. v) result (file_of bytes.now) }
{
    let form = form_from(alloc, bytes)?;
    let chunks = values_from(alloc, form.chunks())?;
    Ok(FileVal { chunks })
}

/// Reads the value of the file that the whole of the bytes is: its form, and the code of the chunk
/// `Code` where there is one. A refusal of the form comes before one of the code.
pub fn read_file(alloc: Global, bytes: &[u8]) -> Result<FileVal, ModuleRefusal>
    // The bytes are a file of what is read.
    ensures found { IfOk result (λ v. IsFile v bytes.now) }
    // What is read are chunks that meet their types.
    ensures chunks { IfOk result (λ v. AreChunks v × FileMeetsType v) }
    // What is read can be written.
    ensures writable { IfOk result IsWritable }
    // Each file is read, unless memory runs out.
    ensures only { (v : List FileChunk) → IsFile v bytes.now → (result ≡ Ok v) ⊎ (result ≡ Err ModuleRefusal.NoMemory) }
    // What the reading from left to right gives.
    ensures exact { GivesAll ModuleRefusal.NoMemory (λ v. v) result (file_of bytes.now) }
{
    whole_file(alloc, bytes)
}
