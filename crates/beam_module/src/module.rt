//! A module that was opened.

ghost use Rattle.std.specs.Prelude.{◌≡◌, ◌↔◌, ℕ, ◌+◌, ◌^◌, ◌<◌, Some, IfSome, length, slice_get};
ghost use Rattle.func_split.specs.Functions.{IsEntry, IsSplit, StandsIn};

use func_split::{Function, SplitCode};
use iff_form::Form;
use index_tables::{Atoms, Funs, Imports};
use std::marker::Model;

/// A module: its form, whose bytes it borrows, its atoms, its code as functions, its imports and funs,
/// and how many literals it has.
#[derive(Debug, Drop)]
pub struct Module<'a> {
    pub(crate) form: Form<'a>,
    pub(crate) atoms: Atoms,
    pub(crate) code: SplitCode,
    pub(crate) imports: Imports,
    pub(crate) funs: Funs,
    pub(crate) literals: Option<u32>,
}

impl<'a> Model for Module<'a> {
    ghost use Rattle.std.specs.Prelude.{◌<◌, ◌^◌, length};
    ghost use Rattle.beam_module.specs.Module.{ModuleValue};

    ghost Value = { ModuleValue };

    ghost view = { λ m. record { form = m.form; atoms = m.atoms; code = m.code; imports = m.imports; funs = m.funs; literals = m.literals } };

    ghost invariant = { λ m. length m.code.instrs < 2 ^ 32 };
}

impl<'a> Module<'a> {
    /// Its chunks.
    pub fn form(&self) -> &Form<'a>
        ensures { result.now ≡ self.now.form }
    {
        &self.form
    }

    /// How many functions there are.
    pub fn functions(&self) -> usize
        ensures count { result ≡ length self.now.code.functions }
        // The instructions are these functions.
        ensures split { IsSplit self.now.code.labels self.now.code.instrs self.now.code.functions }
    {
        self.code.functions()
    }

    /// Function `i`, counted from 0. None exactly where there are not so many. The numbers of functions
    /// and the places of instructions in the code are below 2^32.
    pub fn function<'m>(&'m self, i: usize) -> Option<Function<'m>>
        ensures same { result ≡ slice_get self.now.code.functions i }
        ensures stands { IfSome result (λ f. StandsIn self.now.code.instrs i f) }
        ensures places { IfSome result (λ f. (i < 2 ^ 32) × (f.first + length f.instrs < 2 ^ 32)) }
    {
        self.code.function(i)
    }

    /// The arity of the function whose entry label this is. None exactly where it is none.
    pub fn entry_of(&self, label: u32) -> Option<u8>
        ensures { (arity : ℕ) → (result ≡ Some arity) ↔ IsEntry self.now.code.functions label arity }
    {
        self.code.entry_of(label)
    }

    /// Its atoms, the first of which is its name. Their numbers count from 1.
    pub fn atoms(&self) -> &Atoms
        ensures { result.now ≡ self.now.atoms }
    {
        &self.atoms
    }

    /// The functions of other modules that it calls, counted from 0.
    pub fn imports(&self) -> &Imports
        ensures { result.now ≡ self.now.imports }
    {
        &self.imports
    }

    /// The functions that it makes funs of, counted from 0.
    pub fn funs(&self) -> &Funs
        ensures { result.now ≡ self.now.funs }
    {
        &self.funs
    }

    /// How many literals it has. None exactly where they are packed.
    pub fn literals(&self) -> Option<usize>
        ensures { result ≡ self.now.literals }
    {
        Some(self.literals? as usize)
    }
}
