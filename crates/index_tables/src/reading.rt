//! Reading the tables.

ghost use Rattle.std.specs.Prelude.{◌≡◌, ◌⊎◌, ℕ, List, IfOk, IfErr};
ghost use Rattle.bk_codec.specs.Reading.{Gives, GivesAll, numbered_at};
ghost use Rattle.index_tables.specs.Reading.{atom_at, all_atoms, entry_at, all_entries};
ghost use Rattle.index_tables.specs.Atoms.{SpellsAtoms, FitsAtoms};
ghost use Rattle.index_tables.specs.Entries.{SpellsTable, SpellsImports, SpellsExports, SpellsFuns, NamesAtoms, FitsWords, import_words, import_atoms, export_words, export_atoms, fun_words, fun_atoms};
ghost use Rattle.index_tables.specs.Refusal.{RefusesAtoms, RefusesTable, RefusesImports, RefusesExports, RefusesFuns};
ghost use Rattle.index_tables.specs.Shape.{import_shape, export_shape, fun_shape};
ghost use Rattle.index_tables.specs.declared.refusal.TableRefusal.TheVariants as refusals;

use crate::entry::{Entry, Export, Fun, Import};
use crate::refusal::TableRefusal;
use crate::table::{Atoms, Exports, Funs, Imports};
use bk_base::{Cursor, ItemList, Text};
use bk_codec::{end, text, word};
use std::alloc::Global;

/// Reads the payload of a table of atoms, whole.
///
/// It is refused at the first bad record: `Cut` where bytes of the count or of an atom are missing,
/// `AtomUtf8` where a name that is there is not UTF-8. `Rest` comes only behind the last atom.
pub fn read_atoms(alloc: Global, s: &[u8]) -> Result<Atoms, TableRefusal>
    // What is read is spelled there.
    ensures found { IfOk result (λ names. SpellsAtoms names s.now) }
    ensures fits { IfOk result FitsAtoms }

    // What is spelled there is read, unless memory is wanting.
    ensures only { (names : List (List ℕ)) → SpellsAtoms names s.now →
        (result ≡ Ok names) ⊎ (result ≡ Err refusals.NoMemory) }

    // It is refused for what stands there.
    ensures refused { IfErr result (λ e. (e ≡ refusals.NoMemory) ⊎ RefusesAtoms s.now e) }

    // The same as a function of the payload.
    ensures exact { GivesAll refusals.NoMemory (λ names. names) result (all_atoms s.now) }
{
    all_atoms(alloc, s)
}

/// Reads the payload of a table of imports over these atoms, whole.
///
/// It is refused at the first bad entry: `Cut` where words of the count or of an entry are missing,
/// `AtomIndex` where all words of an entry are there and an atom number of it is none of the atoms.
/// `Rest` comes only behind the last entry.
pub fn read_imports(alloc: Global, s: &[u8], atoms: &Atoms) -> Result<Imports, TableRefusal>
    ensures found { IfOk result (λ xs. SpellsImports atoms.now xs s.now) }
    ensures named { IfOk result (NamesAtoms import_atoms atoms.now) }
    ensures fits { IfOk result (FitsWords import_words) }
    ensures only { (xs : List Import) → SpellsImports atoms.now xs s.now →
        (result ≡ Ok xs) ⊎ (result ≡ Err refusals.NoMemory) }
    ensures refused { IfErr result (λ e. (e ≡ refusals.NoMemory) ⊎ RefusesImports atoms.now s.now e) }
    ensures exact { GivesAll refusals.NoMemory (λ xs. xs) result
        (all_entries import_shape atoms.now s.now) }
{
    read_entries(alloc, s, atoms)
}

/// Reads the payload of a table of exports over these atoms, whole. It is refused as [`read_imports`]
/// says.
pub fn read_exports(alloc: Global, s: &[u8], atoms: &Atoms) -> Result<Exports, TableRefusal>
    ensures found { IfOk result (λ xs. SpellsExports atoms.now xs s.now) }
    ensures named { IfOk result (NamesAtoms export_atoms atoms.now) }
    ensures fits { IfOk result (FitsWords export_words) }
    ensures only { (xs : List Export) → SpellsExports atoms.now xs s.now →
        (result ≡ Ok xs) ⊎ (result ≡ Err refusals.NoMemory) }
    ensures refused { IfErr result (λ e. (e ≡ refusals.NoMemory) ⊎ RefusesExports atoms.now s.now e) }
    ensures exact { GivesAll refusals.NoMemory (λ xs. xs) result
        (all_entries export_shape atoms.now s.now) }
{
    read_entries(alloc, s, atoms)
}

/// Reads the payload of a table of local functions over these atoms, which is spelled as one of
/// exports is. It is refused as [`read_imports`] says.
pub fn read_locals(alloc: Global, s: &[u8], atoms: &Atoms) -> Result<Exports, TableRefusal>
    ensures found { IfOk result (λ xs. SpellsExports atoms.now xs s.now) }
    ensures named { IfOk result (NamesAtoms export_atoms atoms.now) }
    ensures fits { IfOk result (FitsWords export_words) }
    ensures only { (xs : List Export) → SpellsExports atoms.now xs s.now →
        (result ≡ Ok xs) ⊎ (result ≡ Err refusals.NoMemory) }
    ensures refused { IfErr result (λ e. (e ≡ refusals.NoMemory) ⊎ RefusesExports atoms.now s.now e) }
    ensures exact { GivesAll refusals.NoMemory (λ xs. xs) result
        (all_entries export_shape atoms.now s.now) }
{
    read_entries(alloc, s, atoms)
}

/// Reads the payload of a table of funs over these atoms, whole. It is refused as [`read_imports`]
/// says.
pub fn read_funs(alloc: Global, s: &[u8], atoms: &Atoms) -> Result<Funs, TableRefusal>
    ensures found { IfOk result (λ xs. SpellsFuns atoms.now xs s.now) }
    ensures named { IfOk result (NamesAtoms fun_atoms atoms.now) }
    ensures fits { IfOk result (FitsWords fun_words) }
    ensures only { (xs : List Fun) → SpellsFuns atoms.now xs s.now →
        (result ≡ Ok xs) ⊎ (result ≡ Err refusals.NoMemory) }
    ensures refused { IfErr result (λ e. (e ≡ refusals.NoMemory) ⊎ RefusesFuns atoms.now s.now e) }
    ensures exact { GivesAll refusals.NoMemory (λ xs. xs) result
        (all_entries fun_shape atoms.now s.now) }
{
    read_entries(alloc, s, atoms)
}

/// Reads the payload of a table of entries over these atoms, whole. It is refused as [`read_imports`]
/// says.
pub fn read_entries<T: Entry>(
    alloc: Global,
    s: &[u8],
    atoms: &Atoms,
) -> Result<ItemList<T>, TableRefusal>
    ensures found { IfOk result (λ xs. SpellsTable T.shape.words T.shape.atoms atoms.now xs s.now) }
    ensures named { IfOk result (NamesAtoms T.shape.atoms atoms.now) }
    ensures fits { IfOk result (FitsWords T.shape.words) }
    ensures only { (xs : List T) → SpellsTable T.shape.words T.shape.atoms atoms.now xs s.now →
        (result ≡ Ok xs) ⊎ (result ≡ Err refusals.NoMemory) }
    ensures refused { IfErr result (λ e. (e ≡ refusals.NoMemory) ⊎
        RefusesTable T.shape.width T.shape.words T.shape.atoms atoms.now s.now e) }
    ensures exact { GivesAll refusals.NoMemory (λ xs. xs) result
        (all_entries T.shape atoms.now s.now) }
{
    all_entries(alloc, s, atoms)
}

#[tactic(auto, unfolding(crate::specs::Reading::atom_at))]
fn next_atom(alloc: Global, cur: &mut Cursor<'_>, n: u32) -> Result<Text, TableRefusal>
    ensures { Gives refusals.NoMemory (λ t. t) cur.new.rest result (atom_at n cur.old.rest) }
{
    let len = cur.byte().ok_or(TableRefusal::Cut)?;
    let name = cur.take(usize::from(len)).ok_or(TableRefusal::Cut)?;
    let bad = TableRefusal::AtomUtf8 { n };
    text(alloc, name, bad, TableRefusal::NoMemory)
}

fn atoms(alloc: Global, cur: &mut Cursor<'_>, count: u32) -> Result<Atoms, TableRefusal>
    ensures { Gives refusals.NoMemory (λ names. names) cur.new.rest result
        (numbered_at atom_at 1 count cur.old.rest) }
{
    let mut names = ItemList::new(alloc);
    for i in 0..count {
        let name = next_atom(alloc, cur, i + 1)?;
        names.push(name)?;
    }
    Ok(names)
}

fn next_entry<T: Entry>(cur: &mut Cursor<'_>, atoms: &Atoms, i: u32) -> Result<T, TableRefusal>
    ensures { Gives refusals.NoMemory (λ x. x) cur.new.rest result
        (entry_at T.shape atoms.now i cur.old.rest) }
{
    let entry = T::read(cur)?;
    if !entry.names_atoms(atoms) {
        return Err(TableRefusal::AtomIndex { entry: i });
    }
    Ok(entry)
}

fn entries<T: Entry>(
    alloc: Global,
    cur: &mut Cursor<'_>,
    atoms: &Atoms,
    count: u32,
) -> Result<ItemList<T>, TableRefusal>
    ensures { Gives refusals.NoMemory (λ xs. xs) cur.new.rest result
        (numbered_at (entry_at T.shape atoms.now) 0 count cur.old.rest) }
{
    let mut entries = ItemList::new(alloc);
    for i in 0..count {
        let entry = next_entry(cur, atoms, i)?;
        entries.push(entry)?;
    }
    Ok(entries)
}

fn all_atoms(alloc: Global, s: &[u8]) -> Result<Atoms, TableRefusal>
    ensures { GivesAll refusals.NoMemory (λ names. names) result (all_atoms s.now) }
{
    let mut cur = Cursor::new(s);
    let count = word(&mut cur, TableRefusal::Cut)?;
    let names = atoms(alloc, &mut cur, count)?;
    end(&cur, TableRefusal::Rest)?;
    Ok(names)
}

fn all_entries<T: Entry>(
    alloc: Global,
    s: &[u8],
    atoms: &Atoms,
) -> Result<ItemList<T>, TableRefusal>
    ensures { GivesAll refusals.NoMemory (λ xs. xs) result (all_entries T.shape atoms.now s.now) }
{
    let mut cur = Cursor::new(s);
    let count = word(&mut cur, TableRefusal::Cut)?;
    let entries = entries(alloc, &mut cur, atoms, count)?;
    end(&cur, TableRefusal::Rest)?;
    Ok(entries)
}
