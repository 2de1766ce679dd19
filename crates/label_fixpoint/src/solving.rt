//! The least consistent typing of a flow.

ghost use Rattle.std.specs.Prelude.{◌≡◌, ◌+◌, ◌*◌, ◌<◌, ◌≤◌, None, Some, length, replicate, IfOk, OnOk};
ghost use Rattle.label_fixpoint.specs.Edges.{Appends};
ghost use Rattle.label_fixpoint.specs.Typing.{IsLeast, typing_of};

use crate::agenda::Agenda;
use crate::edge::{Edge, EdgeList};
use crate::flow::Walk;
use crate::solution::Solution;
use crate::spreading::spread;
use bk_base::{ItemList, NoMemory, Steps};
use std::alloc::Global;
use std::marker::PhantomData;

// No state for any place.
fn untyped<S: Drop>(alloc: Global, places: usize) -> Result<Vec<Option<S>>, NoMemory>
    ensures { IfOk result (λ states. states.items ≡ replicate places None) }
{
    let mut states = Vec::with_capacity(alloc, places)?;
    for _ in 0..places {
        states.push(None)?;
    }
    Ok(states)
}

fn visit<F: Walk<L>, L>(
    alloc: Global,
    flow: &F,
    states: &[Option<F::State>],
    place: usize,
    edges: &mut EdgeList<F::State>,
    steps: &mut Steps<L>,
) -> Result<(), NoMemory>
    requires place { place < (F.meaning flow.now).place_count }
    requires size { length states.now ≡ (F.meaning flow.now).place_count }
    requires state { (s : F.State) × (typing_of states.now place ≡ Some s) × (F.meaning flow.now).IsFit s }
    ensures ok { OnOk result ((s : F.State) → typing_of states.now place ≡ Some s → Appends (F.meaning flow.now) edges.old ((F.meaning flow.now).edges_of place s) edges.new) }
    ensures count { steps.new ≡ steps.old + 1 }
{
    match &states[place] {
        Some(state) => flow.out(alloc, place, state, edges, steps),
        None => Ok(()),
    }
}

/// The least consistent typing of a flow.
///
/// It asks for the edges of a place again only where the state of the place rose. So it counts at
/// most as many steps as the flow has places, times its height, also where it is refused, which is
/// for want of memory alone.
pub fn solve<F: Walk<L>, L>(
    alloc: Global,
    flow: &F,
    steps: &mut Steps<L>,
) -> Result<Solution<F>, NoMemory>
    ensures least { IfOk result (λ t. IsLeast (F.meaning flow.now) (typing_of t.states)) }
    ensures at_most { steps.new ≤ steps.old + (F.meaning flow.now).place_count * (F.meaning flow.now).height }
    ensures at_least { OnOk result (steps.old < steps.new) }
{
    let mut states = untyped(alloc, flow.places())?;
    let mut agenda = Agenda::new(alloc, flow.places())?;
    let mut edges = EdgeList::new(alloc);
    edges.push(Edge {
        target: flow.entry(),
        state: flow.first(alloc)?,
    })?;
    spread(flow, &mut states, &mut agenda, &mut edges)?;
    while let Some(place) = agenda.pop() {
        visit(alloc, flow, &states, place, &mut edges, steps)?;
        spread(flow, &mut states, &mut agenda, &mut edges)?;
    }
    Ok(Solution {
        states: ItemList::from(states),
        flow: PhantomData,
    })
}
