//! Code that is split into functions.

ghost use Rattle.std.specs.Prelude.{◌≡◌, ◌↔◌, ℕ, ◌-◌, ◌<◌, ◌≤◌, List, Some, IfSome, length, take, drop, slice_get};
ghost use Rattle.func_split.specs.declared.mark.Mark.TheVariants as marks;
ghost use Rattle.func_split.specs.Functions.{IsEntry, IsSplit, StandsIn};
ghost use Rattle.func_split.specs.Reading.{end_before};

use crate::function::Function;
use crate::laws::splitting_is_exact;
use crate::mark::Mark;
use crate::splitting::Extent;
use code_chunk::InstrList;
use op_table::Instr;
use std::collections::BTreeMap;
use std::marker::Model;

/// The instructions of a module with where its functions begin and where its labels stand. Nothing
/// is wrong with them.
#[derive(Debug, Drop)]
pub struct SplitCode {
    pub(crate) instrs: InstrList,
    pub(crate) labels: u32,
    pub(crate) extents: Vec<Extent>,
    pub(crate) places: BTreeMap<u32, usize>,
}

impl Model for SplitCode {
    ghost use Rattle.func_split.specs.Functions.{SplitValue};
    ghost use Rattle.func_split.specs.Reading.{IsSplitOf, pieces_of};

    ghost Value = { SplitValue };

    ghost view = { λ s. record { instrs = s.instrs; labels = s.labels; functions = pieces_of s.instrs s.extents.items } };

    ghost invariant = { λ s. IsSplitOf s.labels s.instrs s.extents.items s.places };
}

// Where a function ends: at the one after it, or else at the last instruction.
fn end_before(code: &InstrList, later: &[Extent]) -> usize
    requires { 0 < length code.now }
    ensures { result ≡ end_before code.now later.now }
{
    match later.first() {
        Some(next) => next.first,
        None => code.len() - 1,
    }
}

fn part(code: &[Instr], first: usize, end: usize) -> &[Instr]
    requires { (first ≤ end) × (end ≤ length code.now) }
    ensures { result.now ≡ take (end - first) (drop first code.now) }
{
    &code[first..end]
}

fn arity_in(mark: Mark) -> Option<u8>
    ensures { (arity : ℕ) → (result ≡ Some arity) ↔ ((name : ℕ) × (mark ≡ marks.Func (Some (name, arity)))) }
{
    match mark {
        Mark::Func(Some((_, arity))) => Some(arity),
        _ => None,
    }
}

impl SplitCode {
    /// How many functions there are.
    pub fn functions(&self) -> usize
        ensures count { result ≡ length self.now.functions }
        // The instructions are these functions.
        ensures split { IsSplit self.now.labels self.now.instrs self.now.functions }
    {
        splitting_is_exact();
        self.extents.as_slice().len()
    }

    /// Function `i`, counted from 0. None exactly where there are not so many.
    pub fn function<'m>(&'m self, i: usize) -> Option<Function<'m>>
        ensures same { result ≡ slice_get self.now.functions i }
        // It stands in the code.
        ensures stands { IfSome result (λ f. StandsIn self.now.instrs i f) }
    {
        splitting_is_exact();
        let extent = self.extents.get(i)?;
        let end = end_before(&self.instrs, &self.extents.as_slice()[i + 1..]);
        Some(Function {
            first: extent.first,
            entry: extent.info + 1 - extent.first,
            name: extent.name,
            arity: extent.arity,
            instrs: part(self.instrs.as_slice(), extent.first, end),
            places: &self.places,
        })
    }

    /// The arity of the function whose entry label this is. None exactly where it is none.
    pub fn entry_of(&self, label: u32) -> Option<u8>
        ensures { (arity : ℕ) → (result ≡ Some arity) ↔ IsEntry self.now.functions label arity }
    {
        splitting_is_exact();
        let place = self.places.get(&label)?;
        let before = self.instrs.get(place.checked_sub(1)?)?;
        arity_in(Mark::of(before))
    }
}
