//! The atoms, by their numbers.

ghost use Rattle.std.specs.Prelude.{◌≡◌, ◌↔◌, IsSome, IfSome, option_copied};
ghost use Rattle.index_tables.specs.Atoms.{IsAtom, atom_called, atom_name};

use crate::table::Atoms;
use bk_base::Text;

/// The name of the atom with this number, counted from 1.
pub fn atom_name(atoms: &Atoms, number: u32) -> Option<&Text>
    ensures called { option_copied result ≡ atom_called atoms.now number }
    ensures found { IsSome result ↔ IsAtom atoms.now number }
    ensures name { IfSome result (λ t. t.now ≡ atom_name atoms.now number) }
{
    let i = number.checked_sub(1)?;
    atoms.get(i as usize)
}
