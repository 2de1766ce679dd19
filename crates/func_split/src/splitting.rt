//! Splitting code.

ghost use Rattle.std.specs.Prelude.{◌≡◌, ◌⊎◌, ◌++◌, ℕ, List, length, IfOk, IfErr, OnOk};
ghost use Rattle.std.specs.BTreeMap.{get};
ghost use Rattle.std.specs.Ordering.{nat_cmp};
ghost use Rattle.bk_codec.specs.Reading.{GivesAll};
ghost use Rattle.func_split.specs.declared.refusal.SplitRefusal.TheVariants as refusals;
ghost use Rattle.func_split.specs.Functions.{IsSplit, IsSplitCode, Piece};
ghost use Rattle.func_split.specs.Refused.{IsTold};
ghost use Rattle.func_split.specs.Reading.{split_of};
ghost use Rattle.func_split.specs.Fronts.{ArePieces, TellsFirst, extent_by, noted};
ghost use Rattle.func_split.specs.Marks.{marks_of};

use crate::before::Before;
use crate::faults::fault_at;
use crate::mark::Mark;
use crate::refusal::{FunctionWhy, SplitRefusal};
use crate::split_code::SplitCode;
use code_chunk::CodeVal;
use op_table::Instr;
use std::alloc::Global;
use std::collections::BTreeMap;

/// Where a function stands: the places of its first instruction and of its `func_info` in the code,
/// and what the `func_info` says.
#[derive(Clone, Copy, Debug)]
pub(crate) struct Extent {
    pub(crate) first: usize,
    pub(crate) info: usize,
    pub(crate) name: u32,
    pub(crate) arity: u8,
}

// The functions of code, and where its labels stand.
#[derive(Drop)]
struct Pieces {
    extents: Vec<Extent>,
    places: BTreeMap<u32, usize>,
}

fn note_label(
    places: &mut BTreeMap<u32, usize>,
    place: usize,
    mark: Mark,
) -> Result<(), SplitRefusal>
    ensures ok { OnOk result ((number : ℕ) → get nat_cmp places.new number ≡ noted mark place number (get nat_cmp places.old number)) }
    ensures err { IfErr result (λ e. e ≡ refusals.NoMemory) }
{
    if let Mark::Label(Some(number)) = mark {
        places.insert(number, place)?;
    }
    Ok(())
}

fn note_function(
    extents: &mut Vec<Extent>,
    before: Before,
    place: usize,
    mark: Mark,
) -> Result<(), SplitRefusal>
    ensures ok { OnOk result (extents.new.items ≡ extents.old.items ++ extent_by before place mark) }
    ensures err { IfErr result (λ e. e ≡ refusals.NoMemory) }
{
    if let (Mark::Func(Some((name, arity))), Before::Own(label)) = (mark, before) {
        extents.push(Extent {
            first: label,
            info: place,
            name,
            arity,
        })?;
    }
    Ok(())
}

// The functions and labels of code, or what is wrong first.
fn pass(alloc: Global, labels: u32, instrs: &[Instr]) -> Result<Pieces, SplitRefusal>
    ensures found { IfOk result (λ p. ArePieces labels (marks_of instrs.now) p.extents.items p.places) }
    ensures told { IfErr result (λ e. (e ≡ refusals.NoMemory) ⊎ TellsFirst labels (marks_of instrs.now) e) }
{
    let mut extents = Vec::new(alloc);
    let mut places = BTreeMap::new(alloc);
    let mut before = Before::Neither;
    for place in 0..instrs.len() {
        let mark = Mark::of(&instrs[place]);
        let rest = &instrs[place + 1..];
        if let Some(why) = fault_at(labels, place, before, &places, mark, rest) {
            return Err(SplitRefusal::Functions { at: place, why });
        }
        note_label(&mut places, place, mark)?;
        note_function(&mut extents, before, place, mark)?;
        before = before.after(place, mark);
    }
    Ok(Pieces { extents, places })
}

/// Splits code into functions. The first instruction at which something is wrong is told, with the
/// first that is wrong there in the order of [`FunctionWhy`](crate::FunctionWhy); a wrong count of
/// functions comes last.
pub fn split(alloc: Global, code: CodeVal) -> Result<SplitCode, SplitRefusal>
    // The code is the functions that are found.
    ensures found { IfOk result (IsSplitCode code.labels code.functions code.instrs) }
    // Code that is as many functions as its header says is split, unless memory runs out.
    ensures only { (functions : List Piece) → IsSplit code.labels code.instrs functions → length functions ≡ code.functions → IfErr result (λ e. e ≡ refusals.NoMemory) }
    // What is wrong first is told.
    ensures refused { IfErr result (λ e. (e ≡ refusals.NoMemory) ⊎ IsTold code.labels code.functions code.instrs e) }
    // What the reading from the left gives.
    ensures exact { GivesAll refusals.NoMemory (λ s. s) result (split_of code.labels code.functions code.instrs) }
{
    crate::laws::splitting_is_exact();
    if code.instrs.is_empty() {
        return Err(SplitRefusal::Functions {
            at: 0,
            why: FunctionWhy::Start,
        });
    }
    let Pieces { extents, places } = pass(alloc, code.labels, code.instrs.as_slice())?;
    if extents.len() != code.functions as usize {
        return Err(SplitRefusal::Functions {
            at: 0,
            why: FunctionWhy::Count,
        });
    }
    Ok(SplitCode {
        instrs: code.instrs,
        labels: code.labels,
        extents,
        places,
    })
}
