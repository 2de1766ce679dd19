//! The file of a generated module.

ghost use Rattle.std.specs.Prelude.{◌≡◌, ◌≤◌, [], ◌∷◌, IfOk};
ghost use Rattle.index_tables.specs.Canonical.{canonical_atoms, canonical_exports};
ghost use Rattle.ext_term.specs.Writing.{file_spelling};
ghost use Rattle.beam_module.specs.Canonical.{IsWritable};
ghost use Rattle.module_gen.specs.Generated.{atoms_of, exports_of, function_name, generated, most_functions, versions};

use crate::code::code_of;
use crate::laws::generated_files_open;
use beam_module::{ChunkVal, FileVal};
use bk_base::{ByteList, NoMemory, Text};
use ext_term::{Term, TermList, write_term};
use iff_form::Id;
use index_tables::{Atoms, Export, Exports, Imports, write_atoms, write_exports, write_imports};
use sqlite_items::Boxed;
use std::alloc::Global;

/// The most functions of a generated module.
pub const MOST_FUNCTIONS: u32 = 2000;

/// The file of a module `gen` of so many functions, from 1 to 2000: `f1/1`, `f2/1` and so on, which it
/// exports. Each walks a list and calls the next one for each item, so that all instructions can be
/// reached. It fails only for want of memory.
pub fn generated(alloc: Global, functions: u32) -> Result<FileVal, NoMemory>
    requires least { 1 ≤ functions }
    requires most { functions ≤ most_functions }
    ensures value { IfOk result (λ v. v ≡ generated functions) }
    ensures writable { IfOk result IsWritable }
{
    generated_files_open();
    let mut file = FileVal::new(alloc);
    file.push(
        Id(*b"AtU8"),
        ChunkVal::Raw(atoms_payload(alloc, functions)?),
    )?;
    file.push(Id(*b"Code"), ChunkVal::Code(code_of(alloc, functions)?))?;
    file.push(Id(*b"StrT"), ChunkVal::Raw(ByteList::new(alloc)))?;
    let imports = write_imports(alloc, &Imports::new(alloc))?;
    file.push(Id(*b"ImpT"), ChunkVal::Raw(ByteList::from(imports)))?;
    file.push(
        Id(*b"ExpT"),
        ChunkVal::Raw(exports_payload(alloc, functions)?),
    )?;
    file.push(
        Id(*b"Attr"),
        ChunkVal::Raw(attributes_payload(alloc, functions)?),
    )?;
    Ok(file)
}

fn atoms_payload(alloc: Global, functions: u32) -> Result<ByteList, NoMemory>
    requires { functions ≤ most_functions }
    ensures { IfOk result (λ payload. payload ≡ canonical_atoms (atoms_of functions)) }
{
    let atoms = atoms_of(alloc, functions)?;
    Ok(ByteList::from(write_atoms(alloc, &atoms)?))
}

fn atoms_of(alloc: Global, functions: u32) -> Result<Atoms, NoMemory>
    requires { functions ≤ most_functions }
    ensures { IfOk result (λ atoms. atoms ≡ atoms_of functions) }
{
    let mut atoms = Atoms::new(alloc);
    atoms.push(Text::from(format!(in alloc; "gen")?))?;
    for i in 0..functions {
        atoms.push(function_name(alloc, i + 1)?)?;
    }
    Ok(atoms)
}

fn function_name(alloc: Global, k: u32) -> Result<Text, NoMemory>
    ensures { IfOk result (λ name. name ≡ function_name k) }
{
    Ok(Text::from(format!(in alloc; "f{k}")?))
}

fn exports_payload(alloc: Global, functions: u32) -> Result<ByteList, NoMemory>
    requires { functions ≤ most_functions }
    ensures { IfOk result (λ payload. payload ≡ canonical_exports (exports_of functions)) }
{
    let mut exports = Exports::new(alloc);
    for i in 0..functions {
        exports.push(Export {
            name: i + 2,
            arity: 1,
            label: 4 * i + 2,
        })?;
    }
    Ok(ByteList::from(write_exports(alloc, &exports)?))
}

fn attributes_payload(alloc: Global, functions: u32) -> Result<ByteList, NoMemory>
    ensures { IfOk result (λ payload. payload ≡ file_spelling (versions functions)) }
{
    let versions = versions(alloc, functions)?;
    Ok(ByteList::from(write_term(alloc, &versions)?))
}

// The attributes: one version, which is the number of functions.
fn versions(alloc: Global, functions: u32) -> Result<Term, NoMemory>
    ensures { IfOk result (λ t. t ≡ versions functions) }
{
    let number = Term::Int {
        neg: false,
        mag: u128::from(functions),
    };
    let mut attribute = TermList::new(alloc);
    attribute.push(Term::Atom(Text::from(format!(in alloc; "vsn")?)))?;
    attribute.push(list_of(alloc, number)?)?;
    list_of(alloc, Term::Tuple(attribute))
}

// The list of one term.
fn list_of(alloc: Global, t: Term) -> Result<Term, NoMemory>
    ensures { IfOk result (λ list. list ≡ Term.List (t ∷ []) Term.Nil) }
{
    let mut items = TermList::new(alloc);
    items.push(t)?;
    Ok(Term::List(items, Boxed::new(alloc, Term::Nil)?))
}
