//! The entries of the tables of words.

ghost use Rattle.std.specs.Prelude.{◌≡◌, ◌++◌, OnOk};
ghost use Rattle.std.specs.List.{list_all};
ghost use Rattle.bk_codec.specs.Reading.{Gives};
ghost use Rattle.index_tables.specs.Canonical.{canonical_words};
ghost use Rattle.index_tables.specs.Reading.{record_at, is_atom};
ghost use Rattle.index_tables.specs.declared.refusal.TableRefusal.TheVariants as refusals;

use crate::atoms::atom_name;
use crate::refusal::TableRefusal;
use crate::table::Atoms;
use crate::writing::put_words;
use bk_base::{Bytes, Cursor, NoMemory};
use bk_codec::word;

/// A function of another module that the module calls.
#[derive(Clone, Copy, Debug, PartialEq, Eq)]
pub struct Import {
    /// The atom number of the other module's name.
    pub module: u32,
    /// The atom number of the function's name.
    pub name: u32,
    /// How many arguments the function takes.
    pub arity: u32,
}

/// A function of the module, as its tables of exports and of local functions list it.
#[derive(Clone, Copy, Debug, PartialEq, Eq)]
pub struct Export {
    /// The atom number of the function's name.
    pub name: u32,
    /// How many arguments the function takes.
    pub arity: u32,
    /// The label at which the function is entered.
    pub label: u32,
}

/// A function of the module that funs are made of.
#[derive(Clone, Copy, Debug, PartialEq, Eq)]
pub struct Fun {
    /// The atom number of the function's name.
    pub name: u32,
    /// How many arguments the function takes.
    pub arity: u32,
    /// The label at which the function is entered.
    pub label: u32,
    /// The number that the compiler gave the fun.
    pub index: u32,
    /// How many values a fun carries with it.
    pub free: u32,
    /// A number that the compiler made from the fun's code.
    pub unique: u32,
}

/// An entry of a table: a record of words, some of which are atom numbers.
pub trait Entry: Sized + Drop {
    ghost use Rattle.index_tables.specs.Shape.{Shape, IsShape};

    ghost shape: { Shape Self };

    /// The next entry, of which all words are read before anything else is looked at.
    fn read(cur: &mut Cursor<'_>) -> Result<Self, TableRefusal>
        ensures { Gives refusals.NoMemory (λ x. x) cur.new.rest result
            (record_at shape.of_words shape.width cur.old.rest) };

    /// Whether each of its atom numbers is that of one of the atoms.
    fn names_atoms(&self, atoms: &Atoms) -> bool
        ensures { result ≡ list_all (is_atom atoms.now) (shape.atoms self.now) };

    /// Puts its words at the end. Where memory is wanting a front of them may stand there.
    fn put(&self, out: &mut Bytes) -> Result<(), NoMemory>
        ensures { OnOk result (out.new.items ≡ out.old.items ++ canonical_words (shape.words self.now)) };

    ghost is_shape: { IsShape shape };
}

impl Entry for Import {
    ghost use Rattle.std.specs.Prelude.{refl};
    ghost use Rattle.bk_codec.proofs.Words.{three_words};
    ghost use Rattle.index_tables.specs.Shape.{import_shape};

    ghost shape = { import_shape };

    ghost is_shape = { record { counted = λ _. refl; back = λ _. refl; made = three_words } };

    fn read(cur: &mut Cursor<'_>) -> Result<Import, TableRefusal> {
        Ok(Import {
            module: word(cur, TableRefusal::Cut)?,
            name: word(cur, TableRefusal::Cut)?,
            arity: word(cur, TableRefusal::Cut)?,
        })
    }

    fn names_atoms(&self, atoms: &Atoms) -> bool {
        atom_name(atoms, self.module).is_some() && atom_name(atoms, self.name).is_some()
    }

    fn put(&self, out: &mut Bytes) -> Result<(), NoMemory> {
        put_words(out, &[self.module, self.name, self.arity])
    }
}

impl Entry for Export {
    ghost use Rattle.std.specs.Prelude.{refl};
    ghost use Rattle.bk_codec.proofs.Words.{three_words};
    ghost use Rattle.index_tables.specs.Shape.{export_shape};

    ghost shape = { export_shape };

    ghost is_shape = { record { counted = λ _. refl; back = λ _. refl; made = three_words } };

    fn read(cur: &mut Cursor<'_>) -> Result<Export, TableRefusal> {
        Ok(Export {
            name: word(cur, TableRefusal::Cut)?,
            arity: word(cur, TableRefusal::Cut)?,
            label: word(cur, TableRefusal::Cut)?,
        })
    }

    fn names_atoms(&self, atoms: &Atoms) -> bool {
        atom_name(atoms, self.name).is_some()
    }

    fn put(&self, out: &mut Bytes) -> Result<(), NoMemory> {
        put_words(out, &[self.name, self.arity, self.label])
    }
}

impl Entry for Fun {
    ghost use Rattle.std.specs.Prelude.{refl};
    ghost use Rattle.bk_codec.proofs.Words.{six_words};
    ghost use Rattle.index_tables.specs.Shape.{fun_shape};

    ghost shape = { fun_shape };

    ghost is_shape = { record { counted = λ _. refl; back = λ _. refl; made = six_words } };

    fn read(cur: &mut Cursor<'_>) -> Result<Fun, TableRefusal> {
        Ok(Fun {
            name: word(cur, TableRefusal::Cut)?,
            arity: word(cur, TableRefusal::Cut)?,
            label: word(cur, TableRefusal::Cut)?,
            index: word(cur, TableRefusal::Cut)?,
            free: word(cur, TableRefusal::Cut)?,
            unique: word(cur, TableRefusal::Cut)?,
        })
    }

    fn names_atoms(&self, atoms: &Atoms) -> bool {
        atom_name(atoms, self.name).is_some()
    }

    fn put(&self, out: &mut Bytes) -> Result<(), NoMemory> {
        put_words(
            out,
            &[
                self.name,
                self.arity,
                self.label,
                self.index,
                self.free,
                self.unique,
            ],
        )
    }
}
