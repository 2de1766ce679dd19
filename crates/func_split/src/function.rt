//! One function of a module.

ghost use Rattle.std.specs.Prelude.{◌≡◌, ◌↔◌, ℕ, Some};
ghost use Rattle.func_split.specs.Marks.{IsLabelAt, marks_of};

use op_table::Instr;
use std::collections::BTreeMap;
use std::marker::Model;

/// A function, which borrows its instructions from the module.
#[derive(Debug, Drop)]
pub struct Function<'m> {
    pub(crate) first: usize,
    pub(crate) entry: usize,
    pub(crate) name: u32,
    pub(crate) arity: u8,
    pub(crate) instrs: &'m [Instr],
    pub(crate) places: &'m BTreeMap<u32, usize>,
}

impl<'m> Model for Function<'m> {
    ghost use Rattle.std.specs.Prelude.{◌≡◌, ◌↔◌, ℕ, ◌+◌, ◌<◌, Some, length};
    ghost use Rattle.std.specs.BTreeMap.{get};
    ghost use Rattle.std.specs.Ordering.{nat_cmp};
    ghost use Rattle.func_split.specs.Functions.{Piece};
    ghost use Rattle.func_split.specs.Marks.{IsLabelAt, marks_of};

    ghost Value = { Piece };

    ghost view = { λ f. record { first = f.first; instrs = f.instrs.now; entry = f.entry; name = f.name; arity = f.arity } };

    ghost invariant = { λ f. (label place : ℕ) → place < length f.instrs.now → (get nat_cmp f.places.now label ≡ Some (f.first + place)) ↔ IsLabelAt (marks_of f.instrs.now) place label };
}

impl<'m> Function<'m> {
    /// The number of its first instruction in the code of the module, counted from 0.
    pub fn first(&self) -> usize
        ensures { result ≡ self.now.first }
    {
        self.first
    }

    /// Its instructions, from the label before its `func_info` on.
    pub fn instrs(&self) -> &'m [Instr]
        ensures { result.now ≡ self.now.instrs }
    {
        self.instrs
    }

    /// The place of its entry label in its instructions.
    pub fn entry(&self) -> usize
        ensures { result ≡ self.now.entry }
    {
        self.entry
    }

    /// How many arguments it takes.
    pub fn arity(&self) -> u8
        ensures { result ≡ self.now.arity }
    {
        self.arity
    }

    /// The number of the atom that is its name.
    pub fn name(&self) -> u32
        ensures { result ≡ self.now.name }
    {
        self.name
    }

    /// The place of a label in its instructions. None exactly where the label isn't in this function.
    pub fn place_of(&self, label: u32) -> Option<usize>
        ensures { (place : ℕ) → (result ≡ Some place) ↔ IsLabelAt (marks_of self.now.instrs) place label }
    {
        let place = self.places.get(&label)?.checked_sub(self.first)?;
        (place < self.instrs.len()).then_some(place)
    }
}
