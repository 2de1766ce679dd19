//! The edges that lead on from a place.

ghost use Rattle.std.specs.Prelude.{◌≡◌, ◌<◌, [], ◌∷◌, if◌then◌else◌, length, slice_get, Some, None, IfOk, OnOk, OnErr};
ghost use Rattle.std.specs.Option.{option_to_list};
ghost use Rattle.op_table.specs.Rules.{exit_labels};
ghost use Rattle.reg_state.specs.States.{slots_of, frame_of, store_of};
ghost use Rattle.action_rules.specs.Known.{known_effects};
ghost use Rattle.action_rules.specs.Needs.{goes_on};
ghost use Rattle.flow_rules.specs.KnownEdges.{edges_to, entered, caught, exit_raises, may_raise, lowest, raise_edges, failures, goes_at, has_next, jumps_at, known_edges};
ghost use Rattle.flow_rules.specs.FlowBody.{body_of};
ghost use Rattle.flow_rules.specs.Blocks.{numbered};
ghost use Rattle.flow_rules.specs.Gaining.{Gains, GainsPart};

use crate::fn_flow::FnFlow;
use action_rules::apply_all;
use bk_base::{ItemList, NoMemory};
use label_fixpoint::{Edge, EdgeList};
use op_table::{Exit, Plan};
use reg_state::{FrameState, Kind, Slot, State, copy_frame, copy_state};
use std::alloc::Global;

fn exit_raises(exit: &Exit) -> bool
    ensures { result ≡ exit_raises exit.now }
{
    matches!(exit, Exit::Enter(_) | Exit::End)
}

fn goes_on(exit: &Exit) -> bool
    ensures { result ≡ goes_on exit.now }
{
    matches!(exit, Exit::Next | Exit::Enter(_))
}

fn may_raise(plan: &Plan) -> bool
    ensures { result ≡ may_raise plan.now }
{
    plan.raises || exit_raises(&plan.exit)
}

// The label of the lowest handler.
fn lowest(slots: &[Slot]) -> Option<u32>
    ensures { option_to_list result ≡ lowest (slots_of slots.now) }
{
    for slot in slots {
        if let Slot::Tag { label, .. } = slot {
            return Some(*label);
        }
    }
    None
}

// What a handler is entered with.
fn caught(alloc: Global, frame: &FrameState) -> Result<State, NoMemory>
    ensures { IfOk result (λ s. store_of s ≡ caught (frame_of frame.now)) }
{
    let mut x = ItemList::new(alloc);
    x.push(Kind::Caught)?;
    Ok(State {
        x,
        frame: copy_frame(alloc, frame)?,
        words: 0,
        funs: 0,
    })
}

/// Does what comes first in a plan.
pub(crate) fn enter(alloc: Global, plan: &Plan, s: &mut State) -> Result<(), NoMemory>
    ensures { OnOk result (store_of s.new ≡ entered plan.now (store_of s.old)) }
{
    apply_all(alloc, plan.before.as_slice(), s)
}

impl<'m> FnFlow<'m> {
    /// The plan of the instruction at a place.
    pub(crate) fn plan(&self, place: usize) -> &Plan
        requires { place < length self.now.plans }
        ensures { slice_get self.now.plans place ≡ Some result.now }
    {
        &self.plans.as_slice()[place]
    }

    /// Whether there is an instruction behind the one at a place.
    pub(crate) fn has_next(&self, place: usize) -> bool
        requires { place < length self.now.plans }
        ensures { result ≡ has_next (body_of self.now) place }
    {
        place + 1 < self.plans.len()
    }

    /// The place of a label of the function, and how many places there are where it is none.
    pub(crate) fn target(&self, label: u32) -> usize
        ensures { result ≡ (body_of self.now).place label }
    {
        let behind = self.function.instrs().len();
        self.function.place_of(label).unwrap_or(behind)
    }

    // The number of the place of a label, or the place itself where it has no number.
    fn number_of(&self, label: u32, numbers: &[usize]) -> usize
        ensures { result ≡ (numbered numbers.now (body_of self.now)).place label }
    {
        let place = self.target(label);
        numbers.get(place).copied().unwrap_or(place)
    }

    // Edges to labels, each with a copy of the state.
    fn add_edges(
        &self,
        alloc: Global,
        labels: &[u32],
        numbers: &[usize],
        s: &State,
        edges: &mut EdgeList<State>,
    ) -> Result<(), NoMemory>
        ensures ok { OnOk result (Gains edges.old (edges_to (numbered numbers.now (body_of self.now)).place labels.now (store_of s.now)) edges.new) }
        ensures err { OnErr result (GainsPart edges.old (edges_to (numbered numbers.now (body_of self.now)).place labels.now (store_of s.now)) edges.new) }
    {
        for label in labels {
            let state = copy_state(alloc, s)?;
            let target = self.number_of(*label, numbers);
            edges.push(Edge { target, state })?;
        }
        Ok(())
    }

    // An edge to a handler.
    fn add_raise(
        &self,
        alloc: Global,
        label: u32,
        numbers: &[usize],
        frame: &FrameState,
        edges: &mut EdgeList<State>,
    ) -> Result<(), NoMemory>
        ensures ok { OnOk result (Gains edges.old (edges_to (numbered numbers.now (body_of self.now)).place (label ∷ []) (caught (frame_of frame.now))) edges.new) }
        ensures err { OnErr result (GainsPart edges.old (edges_to (numbered numbers.now (body_of self.now)).place (label ∷ []) (caught (frame_of frame.now))) edges.new) }
    {
        let state = caught(alloc, frame)?;
        let target = self.number_of(label, numbers);
        edges.push(Edge { target, state })
    }

    // Edges to the handlers that a failure may find.
    fn add_raises(
        &self,
        alloc: Global,
        numbers: &[usize],
        frame: &FrameState,
        edges: &mut EdgeList<State>,
    ) -> Result<(), NoMemory>
        ensures ok { OnOk result (Gains edges.old (raise_edges (numbered numbers.now (body_of self.now)) (frame_of frame.now)) edges.new) }
        ensures err { OnErr result (GainsPart edges.old (raise_edges (numbered numbers.now (body_of self.now)) (frame_of frame.now)) edges.new) }
    {
        match frame {
            FrameState::Absent => Ok(()),
            FrameState::Slots(slots) => match lowest(slots.as_slice()) {
                Some(label) => self.add_raise(alloc, label, numbers, frame, edges),
                None => Ok(()),
            },
            FrameState::Clash => {
                let state = caught(alloc, frame)?;
                self.add_edges(alloc, self.handlers.as_slice(), numbers, &state, edges)
            }
        }
    }

    /// The edges by which a plan fails or raises from `s`.
    pub(crate) fn leave(
        &self,
        alloc: Global,
        plan: &Plan,
        numbers: &[usize],
        s: &State,
        edges: &mut EdgeList<State>,
    ) -> Result<(), NoMemory>
        ensures ok { OnOk result (Gains edges.old (failures (numbered numbers.now (body_of self.now)) plan.now (store_of s.now)) edges.new) }
        ensures err { OnErr result (GainsPart edges.old (failures (numbered numbers.now (body_of self.now)) plan.now (store_of s.now)) edges.new) }
    {
        self.add_edges(alloc, plan.fails.as_slice(), numbers, s, edges)?;
        if may_raise(plan) {
            self.add_raises(alloc, numbers, &s.frame, edges)?;
        }
        Ok(())
    }

    /// Does what comes next in a plan, adds the edges to the labels of its exit, and says whether it
    /// goes on at the next place.
    pub(crate) fn go(
        &self,
        alloc: Global,
        plan: &Plan,
        numbers: &[usize],
        s: &mut State,
        edges: &mut EdgeList<State>,
    ) -> Result<bool, NoMemory>
        ensures done { IfOk result (λ on. store_of s.new ≡ known_effects plan.now.after (store_of s.old)) }
        ensures on { IfOk result (λ on. on ≡ goes_on plan.now.exit) }
        ensures ok { IfOk result (λ on. Gains edges.old (edges_to (numbered numbers.now (body_of self.now)).place (exit_labels plan.now.exit) (known_effects plan.now.after (store_of s.old))) edges.new) }
        ensures err { OnErr result (GainsPart edges.old (edges_to (numbered numbers.now (body_of self.now)).place (exit_labels plan.now.exit) (known_effects plan.now.after (store_of s.old))) edges.new) }
    {
        apply_all(alloc, plan.after.as_slice(), s)?;
        if let Exit::Labels(labels) = &plan.exit {
            self.add_edges(alloc, labels.as_slice(), numbers, s, edges)?;
        }
        Ok(goes_on(&plan.exit))
    }

    /// Follows the instruction at a place: puts its edges to labels at the end of `edges`, with the
    /// numbers of their places as targets, makes `s` what the next place is entered with, and says
    /// whether it goes on there.
    ///
    /// It is refused for want of memory alone, and then has put the first of these edges there.
    pub(crate) fn step(
        &self,
        alloc: Global,
        place: usize,
        numbers: &[usize],
        s: &mut State,
        edges: &mut EdgeList<State>,
    ) -> Result<bool, NoMemory>
        requires { place < length self.now.plans }
        ensures ok { IfOk result (λ on. Gains edges.old (jumps_at (numbered numbers.now (body_of self.now)) place (store_of s.old)) edges.new) }
        ensures on { IfOk result (λ on. goes_at (body_of self.now) place (store_of s.old) ≡ (if on then Some (store_of s.new) else None)) }
        ensures err { OnErr result (GainsPart edges.old (jumps_at (numbered numbers.now (body_of self.now)) place (store_of s.old)) edges.new) }
    {
        let plan = self.plan(place);
        enter(alloc, plan, s)?;
        self.leave(alloc, plan, numbers, s, edges)?;
        let goes_on = self.go(alloc, plan, numbers, s, edges)?;
        Ok(goes_on && self.has_next(place))
    }

    /// Makes `s` what the place behind a place is entered with, and says whether it goes on there. It is
    /// refused for want of memory alone.
    pub(crate) fn advance(
        &self,
        alloc: Global,
        place: usize,
        s: &mut State,
    ) -> Result<bool, NoMemory>
        requires { place < length self.now.plans }
        ensures { IfOk result (λ on. goes_at (body_of self.now) place (store_of s.old) ≡ (if on then Some (store_of s.new) else None)) }
    {
        let plan = self.plan(place);
        enter(alloc, plan, s)?;
        apply_all(alloc, plan.after.as_slice(), s)?;
        Ok(goes_on(&plan.exit) && self.has_next(place))
    }

    /// Puts the edges that lead on from a place at the end of `edges`.
    ///
    /// It is refused for want of memory alone, and then has put the first of these edges there.
    pub(crate) fn follow(
        &self,
        alloc: Global,
        place: usize,
        s: &State,
        edges: &mut EdgeList<State>,
    ) -> Result<(), NoMemory>
        requires { place < length self.now.plans }
        ensures ok { OnOk result (Gains edges.old (known_edges (body_of self.now) place (store_of s.now)) edges.new) }
        ensures err { OnErr result (GainsPart edges.old (known_edges (body_of self.now) place (store_of s.now)) edges.new) }
    {
        let mut state = copy_state(alloc, s)?;
        if self.step(alloc, place, &[], &mut state, edges)? {
            let target = place + 1;
            edges.push(Edge { target, state })?;
        }
        Ok(())
    }
}
