//! The flow of a function as a flow of states.

ghost use Rattle.std.specs.Prelude.{◌≡◌, IfOk};
ghost use Rattle.reg_state.specs.States.{x_of, store_of};
ghost use Rattle.flow_rules.specs.KnownEdges.{arguments, first_known};
ghost use Rattle.flow_rules.specs.Flow.{meaning_of};
ghost use Rattle.flow_rules.specs.FlowBody.{body_of};
ghost use Rattle.flow_rules.specs.Lawful.{body_lawful};

use crate::fn_flow::FnFlow;
use bk_base::{ItemList, NoMemory, Steps};
use label_fixpoint::{EdgeList, Flow, Walk};
use reg_state::{FrameState, Kind, KindList, State, below, copy_state, join_into};
use std::alloc::Global;

// The registers of arguments.
fn arguments(alloc: Global, arity: u8) -> Result<KindList, NoMemory>
    ensures { IfOk result (λ x. x_of x ≡ arguments arity) }
{
    let mut x = ItemList::new(alloc);
    for _ in 0..arity {
        x.push(Kind::Term)?;
    }
    Ok(x)
}

// What a function is entered with.
fn first_state(alloc: Global, arity: u8) -> Result<State, NoMemory>
    ensures { IfOk result (λ s. store_of s ≡ first_known arity) }
{
    Ok(State {
        x: arguments(alloc, arity)?,
        frame: FrameState::Absent,
        words: 0,
        funs: 0,
    })
}

impl<'m> Flow for FnFlow<'m> {
    type State = State;

    ghost meaning = { λ f. meaning_of (body_of f) };

    fn places(&self) -> usize {
        self.plans.len()
    }

    fn entry(&self) -> usize {
        self.function.entry()
    }

    fn first(&self, alloc: Global) -> Result<State, NoMemory> {
        first_state(alloc, self.function.arity())
    }

    fn copy(&self, alloc: Global, s: &State) -> Result<State, NoMemory> {
        copy_state(alloc, s)
    }

    fn below(&self, a: &State, b: &State) -> bool {
        below(a, b)
    }

    fn join_into(&self, a: &mut State, b: &State) -> bool {
        join_into(a, b)
    }

    ghost lawful = { λ f. body_lawful (body_of f) f.fits };
}

impl<'m, L> Walk<L> for FnFlow<'m> {
    fn out(
        &self,
        alloc: Global,
        place: usize,
        s: &State,
        edges: &mut EdgeList<State>,
        steps: &mut Steps<L>,
    ) -> Result<(), NoMemory> {
        steps.tick();
        self.follow(alloc, place, s, edges)
    }
}
