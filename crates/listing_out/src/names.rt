//! What a file calls its atoms and imports.

ghost use Rattle.std.specs.Prelude.{◌≡◌, map, length, IfOk, option_copied, option_map};
ghost use Rattle.ext_term.specs.Name.{name_text};
ghost use Rattle.index_tables.specs.Entries.{NamesAtoms, import_atoms};
ghost use Rattle.index_tables.specs.Text.{import_text};
ghost use Rattle.index_tables.specs.Reading.{all_atoms, all_entries};
ghost use Rattle.index_tables.specs.Shape.{import_shape};
ghost use Rattle.listing_out.specs.Comments.{called, names_in, names_of, payload_in, records_in, shortened};

use beam_module::{ChunkVal, FileVal};
use bk_base::{ByteList, Bytes, ItemList, NoMemory};
use compact_term::Plain;
use ext_term::name_text;
use iff_form::Id;
use index_tables::{Atoms, Imports, TableRefusal, put_import, read_atoms, read_imports};
use std::alloc::Global;

/// The id of the chunk that names the atoms.
pub(crate) const ATOMS: Id = Id(*b"AtU8");

/// The id of the chunk that names the imports.
pub(crate) const IMPORTS: Id = Id(*b"ImpT");

// The most bytes of a name in a comment.
const MOST: usize = 40;

/// What a file calls its atoms and imports in comments, by their numbers.
#[derive(Debug, Drop)]
pub(crate) struct Names {
    /// The names of the atoms, from atom 1 on.
    pub(crate) atoms: ItemList<ByteList>,
    /// The functions that are imported, from import 0 on.
    pub(crate) imports: ItemList<ByteList>,
}

impl Names {
    /// The names of this file. There are none where a table is missing or is none.
    pub(crate) fn of_file(alloc: Global, v: &FileVal) -> Result<Names, NoMemory>
        ensures { IfOk result (λ names. names ≡ names_in v.now) }
    {
        Names::of_tables(alloc, payload_in(v, ATOMS), payload_in(v, IMPORTS))
    }

    /// The names of the file with these payloads of its tables.
    pub(crate) fn of_tables(
        alloc: Global,
        atoms: Option<&[u8]>,
        imports: Option<&[u8]>,
    ) -> Result<Names, NoMemory>
        ensures { IfOk result (λ names. names ≡ names_of (option_copied atoms.entry) (option_copied imports.entry)) }
    {
        let atoms = atoms_of(alloc, atoms)?;
        let imports = imports_of(alloc, imports, &atoms)?;
        Ok(Names {
            atoms: atom_names(alloc, &atoms)?,
            imports: import_names(alloc, &imports, &atoms)?,
        })
    }

    /// What an operand is called: an atom, or an import where its number is expected.
    pub(crate) fn called(&self, is_import: bool, plain: &Plain) -> Option<&ByteList>
        ensures { option_copied result ≡ called self.now is_import plain.now }
    {
        match plain {
            Plain::A(n) => {
                let i = (*n as usize).checked_sub(1)?;
                self.atoms.get(i)
            }
            Plain::U(n) if is_import => self.imports.get(*n as usize),
            _ => None,
        }
    }
}

// The payload of the chunk with this id, unless it is code.
fn payload_in(v: &FileVal, wanted: Id) -> Option<&[u8]>
    ensures { option_copied result ≡ payload_in wanted.0 v.now }
{
    for (id, value) in v.as_slice() {
        if let ChunkVal::Raw(payload) = value {
            if *id == wanted {
                return Some(payload.as_slice());
            }
        }
    }
    None
}

fn atoms_of(alloc: Global, payload: Option<&[u8]>) -> Result<Atoms, NoMemory>
    ensures { IfOk result (λ names. names ≡ records_in all_atoms (option_copied payload.entry)) }
{
    let Some(payload) = payload else {
        return Ok(Atoms::new(alloc));
    };
    match read_atoms(alloc, payload) {
        Ok(atoms) => Ok(atoms),
        Err(TableRefusal::NoMemory) => Err(NoMemory),
        Err(_) => Ok(Atoms::new(alloc)),
    }
}

fn imports_of(alloc: Global, payload: Option<&[u8]>, atoms: &Atoms) -> Result<Imports, NoMemory>
    ensures imports { IfOk result (λ imports. imports ≡ records_in (all_entries import_shape atoms.now) (option_copied payload.entry)) }
    ensures named { IfOk result (NamesAtoms import_atoms atoms.now) }
{
    let Some(payload) = payload else {
        return Ok(Imports::new(alloc));
    };
    match read_imports(alloc, payload, atoms) {
        Ok(imports) => Ok(imports),
        Err(TableRefusal::NoMemory) => Err(NoMemory),
        Err(_) => Ok(Imports::new(alloc)),
    }
}

// At most forty bytes of a text, and a mark where more are cut off.
fn shortened(alloc: Global, text: Bytes) -> Result<ByteList, NoMemory>
    ensures { IfOk result (λ name. name ≡ shortened text.items) }
{
    let all = text.as_slice();
    if all.len() > MOST {
        let mut cut = Bytes::new(alloc);
        cut.extend(all.split_at(MOST).0)?;
        cut.push(b'~')?;
        return Ok(ByteList::from(cut));
    }
    Ok(ByteList::from(text))
}

fn atom_names(alloc: Global, atoms: &Atoms) -> Result<ItemList<ByteList>, NoMemory>
    ensures { IfOk result (λ names. names ≡ map (λ name. shortened (name_text name)) atoms.now) }
{
    let mut names = ItemList::new(alloc);
    for atom in atoms.as_slice() {
        let mut text = Bytes::new(alloc);
        name_text(atom.as_bytes(), &mut text)?;
        names.push(shortened(alloc, text)?)?;
    }
    Ok(names)
}

fn import_names(
    alloc: Global,
    imports: &Imports,
    atoms: &Atoms,
) -> Result<ItemList<ByteList>, NoMemory>
    requires { NamesAtoms import_atoms atoms.now imports.now }
    ensures { IfOk result (λ names. names ≡ map (λ x. shortened (import_text atoms.now x)) imports.now) }
{
    let mut names = ItemList::new(alloc);
    for import in imports.as_slice() {
        let mut text = Bytes::new(alloc);
        put_import(&mut text, atoms, import)?;
        names.push(shortened(alloc, text)?)?;
    }
    Ok(names)
}
