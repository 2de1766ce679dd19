//! The tables as text.

ghost use Rattle.std.specs.Prelude.{◌≡◌, ◌++◌, ℕ, List, All, IfOk, OnOk};
ghost use Rattle.ext_term.specs.Name.{name_text};
ghost use Rattle.index_tables.specs.Atoms.{IsAtom, atom_name};
ghost use Rattle.index_tables.specs.Entries.{NamesAtoms, import_atoms, export_atoms, fun_atoms};
ghost use Rattle.bk_text.specs.Lines.{numbered_lines};
ghost use Rattle.index_tables.specs.Text.{function_text, import_text, atom_line, atoms_text, imports_text, exports_text, funs_text};

use crate::atoms::atom_name;
use crate::entry::{Entry, Export, Fun, Import};
use crate::table::{Atoms, Exports, Funs, Imports};
use bk_base::{Bytes, ItemList, NoMemory};
use bk_text::{put_marked, put_number};
use ext_term::name_text;
use std::alloc::Global;

/// The text of the atoms: a line `N NAME` for each, counted from 1.
pub fn atoms_text(alloc: Global, t: &Atoms) -> Result<Bytes, NoMemory>
    ensures { IfOk result (λ out. out.items ≡ atoms_text t.now) }
{
    let mut out = Bytes::new(alloc);
    for (i, name) in t.as_slice().iter().enumerate() {
        put_atom_line(&mut out, i + 1, name.as_bytes())?;
    }
    Ok(out)
}

/// The text of a table: the line of each entry, in order.
pub fn entries_text<T: EntryLine>(
    alloc: Global,
    t: &ItemList<T>,
    atoms: &Atoms,
) -> Result<Bytes, NoMemory>
    requires { NamesAtoms T.shape.atoms atoms.now t.now }
    ensures { IfOk result (λ out. out.items ≡ T.text atoms.now t.now) }
{
    entry_lines(alloc, t, atoms)
}

/// The text of the imports: a line `N MODULE:FUNCTION/ARITY` for each, counted from 0.
pub fn imports_text(alloc: Global, t: &Imports, atoms: &Atoms) -> Result<Bytes, NoMemory>
    requires { NamesAtoms import_atoms atoms.now t.now }
    ensures { IfOk result (λ out. out.items ≡ imports_text atoms.now t.now) }
{
    entries_text(alloc, t, atoms)
}

/// The text of exports or local functions: a line `NAME/ARITY LABEL` for each.
pub fn exports_text(alloc: Global, t: &Exports, atoms: &Atoms) -> Result<Bytes, NoMemory>
    requires { NamesAtoms export_atoms atoms.now t.now }
    ensures { IfOk result (λ out. out.items ≡ exports_text atoms.now t.now) }
{
    entries_text(alloc, t, atoms)
}

/// The text of the funs: a line `N NAME/ARITY label L index I free F unique U` for each, counted
/// from 0.
pub fn funs_text(alloc: Global, t: &Funs, atoms: &Atoms) -> Result<Bytes, NoMemory>
    requires { NamesAtoms fun_atoms atoms.now t.now }
    ensures { IfOk result (λ out. out.items ≡ funs_text atoms.now t.now) }
{
    entries_text(alloc, t, atoms)
}

/// An entry that has a line of text, over the atoms and by its number in the table.
pub trait EntryLine: Entry {
    ghost use Rattle.bk_text.specs.Lines.{numbered_lines};

    ghost line: { List (List ℕ) → ℕ → Self → List ℕ };

    ghost text: { List (List ℕ) → List Self → List ℕ };

    /// Puts the line at the end.
    fn put_line(&self, out: &mut Bytes, number: usize, atoms: &Atoms) -> Result<(), NoMemory>
        requires { All (IsAtom atoms.now) (Self.shape.atoms self.now) }
        ensures { OnOk result (out.new.items ≡ out.old.items ++ line atoms.now number self.now) };

    ghost is_text: { (names : List (List ℕ)) (xs : List Self) → numbered_lines 0 (line names) xs ≡ text names xs };
}

impl EntryLine for Import {
    ghost use Rattle.std.specs.Prelude.{refl};
    ghost use Rattle.index_tables.specs.Text.{import_line, imports_text};

    ghost line = { import_line };

    ghost text = { imports_text };

    ghost is_text = { λ _ _. refl };

    fn put_line(&self, out: &mut Bytes, number: usize, atoms: &Atoms) -> Result<(), NoMemory> {
        put_number(out, number)?;
        out.push(b' ')?;
        put_import(out, atoms, self)?;
        out.push(b'\n')
    }
}

impl EntryLine for Export {
    ghost use Rattle.bk_text.proofs.Lines.{lines-plain};
    ghost use Rattle.index_tables.specs.Text.{export_line, exports_text};

    ghost line = { λ names _ x. export_line names x };

    ghost text = { exports_text };

    ghost is_text = { λ names xs. lines-plain 0 (export_line names) xs };

    fn put_line(&self, out: &mut Bytes, _number: usize, atoms: &Atoms) -> Result<(), NoMemory> {
        put_function(out, atoms, self.name, self.arity)?;
        put_marked(out, b" ", self.label)?;
        out.push(b'\n')
    }
}

impl EntryLine for Fun {
    ghost use Rattle.std.specs.Prelude.{refl};
    ghost use Rattle.index_tables.specs.Text.{fun_line, funs_text};

    ghost line = { fun_line };

    ghost text = { funs_text };

    ghost is_text = { λ _ _. refl };

    fn put_line(&self, out: &mut Bytes, number: usize, atoms: &Atoms) -> Result<(), NoMemory> {
        put_number(out, number)?;
        out.push(b' ')?;
        put_function(out, atoms, self.name, self.arity)?;
        put_marked(out, b" label ", self.label)?;
        put_marked(out, b" index ", self.index)?;
        put_marked(out, b" free ", self.free)?;
        put_marked(out, b" unique ", self.unique)?;
        out.push(b'\n')
    }
}

fn entry_lines<T: EntryLine>(
    alloc: Global,
    t: &ItemList<T>,
    atoms: &Atoms,
) -> Result<Bytes, NoMemory>
    requires { NamesAtoms T.shape.atoms atoms.now t.now }
    ensures { IfOk result (λ out. out.items ≡ numbered_lines 0 (T.line atoms.now) t.now) }
{
    let mut out = Bytes::new(alloc);
    for (number, entry) in t.as_slice().iter().enumerate() {
        entry.put_line(&mut out, number, atoms)?;
    }
    Ok(out)
}

fn put_atom_line(out: &mut Bytes, number: usize, name: &[u8]) -> Result<(), NoMemory>
    ensures { OnOk result (out.new.items ≡ out.old.items ++ atom_line number name.now) }
{
    put_number(out, number)?;
    out.push(b' ')?;
    name_text(name, out)?;
    out.push(b'\n')
}

/// Puts an import `MODULE:FUNCTION/ARITY` at the end, whose numbers are those of atoms.
pub fn put_import(out: &mut Bytes, atoms: &Atoms, import: &Import) -> Result<(), NoMemory>
    requires { All (IsAtom atoms.now) (import_atoms import.now) }
    ensures { OnOk result (out.new.items ≡ out.old.items ++ import_text atoms.now import.now) }
{
    put_name(out, atoms, import.module)?;
    out.push(b':')?;
    put_function(out, atoms, import.name, import.arity)
}

fn put_function(out: &mut Bytes, atoms: &Atoms, name: u32, arity: u32) -> Result<(), NoMemory>
    requires { IsAtom atoms.now name }
    ensures { OnOk result (out.new.items ≡ out.old.items ++ function_text atoms.now name arity) }
{
    put_name(out, atoms, name)?;
    put_marked(out, b"/", arity)
}

fn put_name(out: &mut Bytes, atoms: &Atoms, number: u32) -> Result<(), NoMemory>
    requires { IsAtom atoms.now number }
    ensures { OnOk result (out.new.items ≡ out.old.items ++ name_text (atom_name atoms.now number)) }
{
    let name = atom_name(atoms, number).unwrap();
    name_text(name.as_bytes(), out)
}
