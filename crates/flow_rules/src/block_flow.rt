//! The flow of one function block by block.

ghost use Rattle.std.specs.Prelude.{◌≡◌, ◌<◌, ◌+◌, ◌++◌, true, length, IfOk, OnOk, OnErr};
ghost use Rattle.reg_state.specs.States.{store_of};
ghost use Rattle.label_fixpoint.specs.Heads.{head_at, heads_by, numbers_by};
ghost use Rattle.func_split.specs.Marks.{mark_of, marks_of};
ghost use Rattle.flow_rules.specs.Blocks.{block_faults, blocks_in, known_block_edges, marks_in};
ghost use Rattle.flow_rules.specs.BlockLaws.{flow_blocks_lawful};
ghost use Rattle.flow_rules.specs.Flow.{FitsBody};
ghost use Rattle.flow_rules.specs.FlowBody.{body_of};
ghost use Rattle.flow_rules.specs.Gaining.{AddsPart, Gains, GainsPart};
ghost use Rattle.flow_rules.specs.Starts.{begins, is_head};

use crate::fn_flow::FnFlow;
use bk_base::{ItemList, NoMemory, Steps};
use code_faults::FaultList;
use label_fixpoint::{Edge, EdgeList, Flow, Walk};
use op_table::Instr;
use reg_state::{State, copy_state};
use std::alloc::Global;

const LABEL: u8 = 1;

fn is_label(instr: &Instr) -> bool
    ensures { result ≡ is_head (mark_of instr.now) }
{
    instr.op() == LABEL
}

/// The blocks of a function, over its flow, which it borrows. A block begins at each `label` and ends
/// before the next one.
///
/// Its places are the blocks, counted from 0. It keeps no states.
#[derive(Debug, Drop)]
pub struct BlockFlow<'f, 'm> {
    pub(crate) flow: &'f FnFlow<'m>,
    // Where each block begins.
    pub(crate) heads: ItemList<usize>,
    // How many blocks begin before each place.
    pub(crate) numbers: ItemList<usize>,
    ghost heads_are: { heads ≡ heads_by (begins (marks_in flow.now)) (length flow.now.plans) },
    ghost numbers_are: { numbers ≡ numbers_by (begins (marks_in flow.now)) (length flow.now.plans) },
}

impl<'f, 'm> BlockFlow<'f, 'm> {
    /// The blocks of a function. It is refused for want of memory alone.
    pub fn new(alloc: Global, f: &'f FnFlow<'m>) -> Result<BlockFlow<'f, 'm>, NoMemory>
        ensures { IfOk result (λ b. b.flow.now ≡ f.now) }
    {
        let mut heads = ItemList::new(alloc);
        let mut numbers = ItemList::new(alloc);
        'instrs: for (place, instr) in f.function.instrs().iter().enumerate() {
            numbers.push(heads.len())?;
            if is_label(instr) {
                heads.push(place)?;
            }
        }
        Ok(BlockFlow {
            flow: f,
            heads,
            numbers,
        })
    }

    /// The place of the function where a block begins, which is that of its label.
    pub fn head(&self, block: usize) -> usize
        requires { block < (blocks_in self.now.flow.now).place_count }
        ensures { result ≡ head_at (begins (marks_in self.now.flow.now)) (length self.now.flow.now.plans) block }
    {
        self.heads.as_slice()[block]
    }

    // The place behind a block.
    fn end(&self, block: usize) -> usize
        requires { block < (blocks_in self.now.flow.now).place_count }
        ensures { result ≡ head_at (begins (marks_in self.now.flow.now)) (length self.now.flow.now.plans) (block + 1) }
    {
        match self.heads.get(block + 1) {
            Some(next) => *next,
            None => self.flow.places(),
        }
    }

    // Puts the edges that leave a block, or go back to where it begins, at the end of `edges`.
    fn walk(
        &self,
        alloc: Global,
        block: usize,
        first: State,
        edges: &mut EdgeList<State>,
    ) -> Result<(), NoMemory>
        requires { block < (blocks_in self.now.flow.now).place_count }
        ensures ok { OnOk result (Gains edges.old (known_block_edges (body_of self.now.flow.now) (marks_in self.now.flow.now) block (store_of first)) edges.new) }
        ensures err { OnErr result (GainsPart edges.old (known_block_edges (body_of self.now.flow.now) (marks_in self.now.flow.now) block (store_of first)) edges.new) }
    {
        let end = self.end(block);
        let mut place = self.head(block);
        let mut state = first;
        while place < end {
            let numbers = self.numbers.as_slice();
            if !self.flow.step(alloc, place, numbers, &mut state, edges)? {
                return Ok(());
            }
            place += 1;
        }
        edges.push(Edge {
            target: block + 1,
            state,
        })
    }

    /// Follows a block from where it begins with the state `s`, and puts the answer of `check` at each
    /// place that gets a state so at the end of `out`, in the order of the code.
    ///
    /// It is refused for want of memory alone, and then has put the first of these answers there.
    pub fn faults(
        &self,
        alloc: Global,
        block: usize,
        s: &State,
        out: &mut FaultList,
    ) -> Result<(), NoMemory>
        requires { block < (blocks_in self.now.flow.now).place_count }
        ensures ok { FitsBody (body_of self.now.flow.now) s.now → OnOk result (out.new ≡ out.old ++ block_faults self.now.flow.now block (store_of s.now)) }
        ensures err { FitsBody (body_of self.now.flow.now) s.now → OnErr result (AddsPart out.old (block_faults self.now.flow.now block (store_of s.now)) out.new) }
    {
        let end = self.end(block);
        let mut place = self.head(block);
        let mut state = copy_state(alloc, s)?;
        while place < end {
            self.flow.add_fault(place, &state, out)?;
            if !self.flow.advance(alloc, place, &mut state)? {
                return Ok(());
            }
            place += 1;
        }
        Ok(())
    }
}

impl<'f, 'm> Flow for BlockFlow<'f, 'm> {
    type State = State;

    ghost meaning = { λ f. blocks_in f.flow.now };

    fn places(&self) -> usize {
        self.heads.len()
    }

    fn entry(&self) -> usize {
        1
    }

    fn first(&self, alloc: Global) -> Result<State, NoMemory> {
        self.flow.first(alloc)
    }

    fn copy(&self, alloc: Global, s: &State) -> Result<State, NoMemory> {
        self.flow.copy(alloc, s)
    }

    fn below(&self, a: &State, b: &State) -> bool {
        self.flow.below(a, b)
    }

    fn join_into(&self, a: &mut State, b: &State) -> bool {
        self.flow.join_into(a, b)
    }

    ghost lawful = { λ f. flow_blocks_lawful f.flow.now };
}

impl<'f, 'm, L> Walk<L> for BlockFlow<'f, 'm> {
    fn out(
        &self,
        alloc: Global,
        block: usize,
        s: &State,
        edges: &mut EdgeList<State>,
        steps: &mut Steps<L>,
    ) -> Result<(), NoMemory> {
        steps.tick();
        let first = copy_state(alloc, s)?;
        self.walk(alloc, block, first, edges)
    }
}
