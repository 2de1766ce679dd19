//! What commands need of a file.

ghost use Rattle.std.specs.Prelude.{◌≡◌, ◌≤◌, length, IfOk, IfErr};
ghost use Rattle.bk_codec.specs.Reading.{GivesAll};
ghost use Rattle.bk_port.specs.declared.reading.TheConstants.{MOST_BYTES};
ghost use Rattle.beam_module.specs.Canonical.{IsWritable};
ghost use Rattle.beam_cli.specs.Comparing.{name_at};
ghost use Rattle.beam_cli.specs.Needs.{chunks_of, listed_value, module_of_file, payload_at, value_of_file};
ghost use Rattle.beam_cli.specs.Reasons.{IsRefusal};
ghost use Rattle.beam_cli.specs.Showing.{atoms_at};

use crate::refusal::Refusal;
use beam_module::{FileVal, Module, module_name, open_module, read_file};
use bk_base::Text;
use iff_form::{Form, Id, read_form};
use index_tables::{Atoms, read_atoms};
use listing_in::read_listing;
use std::alloc::Global;

/// The form that the bytes are.
pub fn form_of<'a>(alloc: Global, bytes: &'a [u8]) -> Result<Form<'a>, Refusal>
    ensures chunks { GivesAll Refusal.NoMemory (λ chunks. chunks) result (chunks_of bytes.now) }
    ensures kind { IfErr result IsRefusal }
{
    match read_form(alloc, bytes) {
        Ok(form) => Ok(form),
        Err(refusal) => Err(Refusal::of_form(refusal)),
    }
}

/// The payload of the chunk with this id.
pub fn payload_of<'a>(form: &Form<'a>, id: Id) -> Result<&'a [u8], Refusal>
    ensures payload { GivesAll Refusal.NoMemory (λ payload. payload.now) result (payload_at id form.now) }
    ensures kind { IfErr result IsRefusal }
{
    form.find(id).ok_or(Refusal::Missing(id))
}

/// The atoms of the module.
pub fn atoms_of(alloc: Global, form: &Form<'_>) -> Result<Atoms, Refusal>
    ensures names { GivesAll Refusal.NoMemory (λ names. names) result (atoms_at form.now) }
    ensures kind { IfErr result IsRefusal }
{
    let id = Id(*b"AtU8");
    let payload = payload_of(form, id)?;
    match read_atoms(alloc, payload) {
        Ok(atoms) => Ok(atoms),
        Err(refusal) => Err(Refusal::of_table(id, refusal)),
    }
}

/// The value of the file that the bytes are, which has a canonical file.
pub fn value_of_file(alloc: Global, bytes: &[u8]) -> Result<FileVal, Refusal>
    ensures value { GivesAll Refusal.NoMemory (λ v. v) result (value_of_file bytes.now) }
    ensures writable { IfOk result IsWritable }
    ensures kind { IfErr result IsRefusal }
{
    match read_file(alloc, bytes) {
        Ok(value) => Ok(value),
        Err(refusal) => Err(Refusal::of_module(refusal)),
    }
}

/// The module that the bytes are.
pub fn module_of_file<'a>(alloc: Global, bytes: &'a [u8]) -> Result<Module<'a>, Refusal>
    ensures module { GivesAll Refusal.NoMemory (λ m. m) result (module_of_file bytes.now) }
    ensures kind { IfErr result IsRefusal }
{
    match open_module(alloc, bytes) {
        Ok(module) => Ok(module),
        Err(refusal) => Err(Refusal::of_module(refusal)),
    }
}

/// The value of the file that a text lists, which has a canonical file.
pub fn listed_value(alloc: Global, text: &[u8]) -> Result<FileVal, Refusal>
    requires { length text.now ≤ MOST_BYTES }
    ensures value { GivesAll Refusal.NoMemory (λ v. v) result (listed_value text.now) }
    ensures writable { IfOk result IsWritable }
    ensures kind { IfErr result IsRefusal }
{
    match read_listing(alloc, text) {
        Ok(value) => Ok(value),
        Err(refusal) => Err(Refusal::of_listing(refusal)),
    }
}

/// The name of the module.
pub fn name_of(alloc: Global, form: &Form<'_>) -> Result<Text, Refusal>
    ensures name { GivesAll Refusal.NoMemory (λ name. name) result (name_at form.now) }
    ensures kind { IfErr result IsRefusal }
{
    match module_name(alloc, form) {
        Ok(name) => Ok(name),
        Err(refusal) => Err(Refusal::of_module(refusal)),
    }
}
