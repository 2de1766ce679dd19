//! Opening a module.

ghost use Rattle.std.specs.Prelude.{◌≡◌, ◌⊎◌, IfOk, Ok, Err};
ghost use Rattle.bk_codec.specs.Reading.{GivesAll};
ghost use Rattle.iff_form.specs.Form.{payload_of};
ghost use Rattle.beam_module.specs.Module.{IsModule, ModuleValue, literals_id};
ghost use Rattle.beam_module.specs.Opening.{literals_in, module_in, module_of, or_unnamed, table_of, tables_in};

use crate::laws::opening_is_exact;
use crate::module::Module;
use crate::naming::{ATOMS, atoms_of, present};
use crate::reading::{CODE, code_of, form_from};
use crate::refusal::{ModuleRefusal, TableWhy};
use bk_base::ItemList;
use code_chunk::code_has_fewer_instructions_than_bytes;
use func_split::split;
use iff_form::{Form, Id};
use index_tables::{Atoms, Entry, Export, Funs, Imports, TableRefusal, read_entries};
use side_tables::count_literals;
use std::alloc::Global;

// The ids of the chunks that hold tables, each of which may be missing.
const IMPORTS: Id = Id(*b"ImpT");

const EXPORTS: Id = Id(*b"ExpT");

const LOCALS: Id = Id(*b"LocT");

const FUNS: Id = Id(*b"FunT");

const LITERALS: Id = Id(*b"LitT");

// The tables that code is judged by.
#[derive(Drop)]
struct Tables {
    imports: Imports,
    funs: Funs,
    literals: Option<u32>,
}

// Atoms, the first of which is the module's name.
fn named(atoms: Atoms) -> Result<Atoms, ModuleRefusal>
    ensures { result ≡ or_unnamed atoms }
{
    if atoms.is_empty() {
        return Err(ModuleRefusal::Missing { id: ATOMS });
    }
    Ok(atoms)
}

// The entries of the table with this id. A chunk that is missing counts as an empty table.
fn table_of<T: Entry>(
    alloc: Global,
    form: &Form<'_>,
    id: Id,
    atoms: &Atoms,
) -> Result<ItemList<T>, ModuleRefusal>
    ensures { GivesAll ModuleRefusal.NoMemory (λ entries. entries) result (table_of T.shape id atoms.now (payload_of id form.now)) }
{
    let Some(payload) = form.find(id) else {
        return Ok(ItemList::new(alloc));
    };
    match read_entries(alloc, payload, atoms) {
        Ok(entries) => Ok(entries),
        Err(TableRefusal::NoMemory) => Err(ModuleRefusal::NoMemory),
        Err(refusal) => Err(ModuleRefusal::Table {
            id,
            why: TableWhy::Index(refusal),
        }),
    }
}

// How many literals there are, which packed ones do not tell.
fn literals_in(form: &Form<'_>) -> Result<Option<u32>, ModuleRefusal>
    ensures { result ≡ literals_in (payload_of literals_id form.now) }
{
    let Some(payload) = form.find(LITERALS) else {
        return Ok(Some(0));
    };
    match count_literals(payload) {
        Ok(count) => Ok(count),
        Err(refusal) => Err(ModuleRefusal::Table {
            id: LITERALS,
            why: TableWhy::Side(refusal),
        }),
    }
}

// The tables of a form with these atoms. The exports and the local functions are read, and not kept.
#[tactic(auto, unfolding(crate::specs::Opening::tables_in))]
fn tables_of(alloc: Global, form: &Form<'_>, atoms: &Atoms) -> Result<Tables, ModuleRefusal>
    ensures { GivesAll ModuleRefusal.NoMemory (λ t. record { imports = t.imports; funs = t.funs; literals = t.literals }) result (tables_in form.now atoms.now) }
{
    let imports = table_of(alloc, form, IMPORTS, atoms)?;
    table_of::<Export>(alloc, form, EXPORTS, atoms)?;
    table_of::<Export>(alloc, form, LOCALS, atoms)?;
    let funs = table_of(alloc, form, FUNS, atoms)?;
    let literals = literals_in(form)?;
    Ok(Tables {
        imports,
        funs,
        literals,
    })
}

// The module of a form.
#[tactic(auto, unfolding(crate::specs::Opening::module_in))]
fn module_from<'a>(alloc: Global, form: Form<'a>) -> Result<Module<'a>, ModuleRefusal>
    ensures { GivesAll ModuleRefusal.NoMemory (λ m. m) result (module_in form.entry) }
{
    code_has_fewer_instructions_than_bytes();
    let names = present(&form, ATOMS)?;
    let payload = present(&form, CODE)?;
    let atoms = named(atoms_of(alloc, names)?)?;
    let code = code_of(alloc, payload)?;
    let tables = tables_of(alloc, &form, &atoms)?;
    let code = split(alloc, code)?;
    Ok(Module {
        form,
        atoms,
        code,
        imports: tables.imports,
        funs: tables.funs,
        literals: tables.literals,
    })
}

fn whole_module<'a>(alloc: Global, bytes: &'a [u8]) -> Result<Module<'a>, ModuleRefusal>
    ensures { GivesAll ModuleRefusal.NoMemory (λ m. m) result (module_of bytes.now) }
{
    let form = form_from(alloc, bytes)?;
    module_from(alloc, form)
}

/// Opens the module that the whole of the bytes is: a form with atoms, the first of which is its name,
/// with code that is functions, and with tables, each of which is empty where its chunk is missing.
///
/// It is refused for the first of these that is wrong: the form; a missing `AtU8`, and then a missing
/// `Code`; the atoms; the first atom, where there is none; the code; `ImpT`, `ExpT`, `LocT`, `FunT` and
/// `LitT` in this order; the functions. Literals that are packed are not counted.
pub fn open_module<'a>(alloc: Global, bytes: &'a [u8]) -> Result<Module<'a>, ModuleRefusal>
    // The bytes are the module that is opened.
    ensures found { IfOk result (λ m. IsModule m bytes.now) }
    // Each module is opened, unless memory runs out.
    ensures only { (m : ModuleValue) → IsModule m bytes.now → (result ≡ Ok m) ⊎ (result ≡ Err ModuleRefusal.NoMemory) }
    // What the opening from left to right gives.
    ensures exact { GivesAll ModuleRefusal.NoMemory (λ m. m) result (module_of bytes.now) }
{
    opening_is_exact();
    whole_module(alloc, bytes)
}
