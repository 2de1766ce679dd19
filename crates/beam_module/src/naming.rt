//! The name of a module.

ghost use Rattle.std.specs.Prelude.{◌≡◌, ◌⊎◌, ℕ, ◌^◌, ◌<◌, List, length, IfOk, IfErr, Ok, Err, None, Some, slice_get};
ghost use Rattle.bk_codec.specs.Reading.{GivesAll, refused_as};
ghost use Rattle.iff_form.specs.Form.{payload_of};
ghost use Rattle.index_tables.specs.Atoms.{SpellsAtoms};
ghost use Rattle.index_tables.specs.Reading.{all_atoms};
ghost use Rattle.beam_module.specs.Name.{AreAtoms, IsModuleName, atom_refusal, atoms_id, atoms_in, name_of};

use crate::refusal::{ModuleRefusal, TableWhy};
use bk_base::Text;
use iff_form::{Form, Id};
use index_tables::{Atoms, TableRefusal, read_atoms};
use std::alloc::Global;

/// The id of the chunk that holds the atoms.
pub(crate) const ATOMS: Id = Id(*b"AtU8");

/// The payload of the chunk with this id, which has to be there.
pub(crate) fn present<'a>(form: &Form<'a>, id: Id) -> Result<&'a [u8], ModuleRefusal>
    ensures found { IfOk result (λ payload. payload_of id form.now ≡ Some payload.now) }
    ensures short { IfOk result (λ payload. length payload.now < 2 ^ 32) }
    ensures missing { IfErr result (λ e. (payload_of id form.now ≡ None) × (e ≡ ModuleRefusal.Missing id)) }
{
    form.find(id).ok_or(ModuleRefusal::Missing { id })
}

/// The atoms of a payload, which is that of the chunk `AtU8`.
pub(crate) fn atoms_of(alloc: Global, payload: &[u8]) -> Result<Atoms, ModuleRefusal>
    ensures found { IfOk result (λ names. SpellsAtoms names payload.now) }
    ensures only { (names : List (List ℕ)) → SpellsAtoms names payload.now → (result ≡ Ok names) ⊎ (result ≡ Err ModuleRefusal.NoMemory) }
    ensures exact { GivesAll ModuleRefusal.NoMemory (λ names. names) result (refused_as atom_refusal (all_atoms payload.now)) }
{
    match read_atoms(alloc, payload) {
        Ok(atoms) => Ok(atoms),
        Err(TableRefusal::NoMemory) => Err(ModuleRefusal::NoMemory),
        Err(refusal) => Err(ModuleRefusal::Table {
            id: ATOMS,
            why: TableWhy::Index(refusal),
        }),
    }
}

fn atoms_from(alloc: Global, form: &Form<'_>) -> Result<Atoms, ModuleRefusal>
    ensures found { IfOk result (λ names. AreAtoms names form.now) }
    ensures only { (names : List (List ℕ)) → AreAtoms names form.now → (result ≡ Ok names) ⊎ (result ≡ Err ModuleRefusal.NoMemory) }
    ensures exact { GivesAll ModuleRefusal.NoMemory (λ names. names) result (atoms_in (payload_of atoms_id form.now)) }
{
    let payload = present(form, ATOMS)?;
    atoms_of(alloc, payload)
}

// The first of the atoms, taken out of the table without a copy.
fn first(atoms: Atoms) -> Option<Text>
    ensures { result ≡ slice_get atoms 0 }
{
    Vec::from(atoms).into_iter().next()
}

/// The name of the module of a form: its first atom. It is refused where there is no chunk `AtU8`, as
/// its atoms are, and where it has no atom.
pub fn module_name(alloc: Global, form: &Form<'_>) -> Result<Text, ModuleRefusal>
    // The form has a table of atoms, whose first is what is answered.
    ensures found { IfOk result (λ name. IsModuleName name form.now) }
    // Where it has one, its first atom is answered, unless memory runs out.
    ensures only { (name : List ℕ) → IsModuleName name form.now → (result ≡ Ok name) ⊎ (result ≡ Err ModuleRefusal.NoMemory) }
    // What the reading gives.
    ensures exact { GivesAll ModuleRefusal.NoMemory (λ name. name) result (name_of form.now) }
{
    let atoms = atoms_from(alloc, form)?;
    first(atoms).ok_or(ModuleRefusal::Missing { id: ATOMS })
}
