//! Flows: places, states, and the edges that lead on from a place and a state.

ghost use Rattle.std.specs.Prelude.{◌≡◌, ◌↔◌, ◌+◌, ◌<◌, false, IsTrue, IfOk, OnOk, OnErr};
ghost use Rattle.label_fixpoint.specs.Meaning.{Meaning, IsLawful};
ghost use Rattle.label_fixpoint.specs.Edges.{Appends, AppendsPart};

use crate::edge::EdgeList;
use bk_base::{NoMemory, Steps};
use std::alloc::Global;

/// Places, numbered from 0, and states that may come to them.
///
/// Contracts see its `meaning`, which keeps the laws of `IsLawful`: among them that the states that
/// fit are ordered, that edges grow with their states, and that a chain of ever greater states has
/// at most as many states as the flow is high. Two states that are below each other count as equal.
pub trait Flow {
    type State: Drop;

    ghost meaning: { Self → Meaning Self.State };

    /// How many places there are.
    fn places(&self) -> usize
        ensures { result ≡ (meaning self.now).place_count };

    /// The place where the flow begins.
    fn entry(&self) -> usize
        ensures { result ≡ (meaning self.now).entry_place };

    /// The state with which the flow begins. It is refused for want of memory alone.
    fn first(&self, alloc: Global) -> Result<Self::State, NoMemory>
        ensures fit { IfOk result (λ s. (meaning self.now).IsFit s) }
        ensures below { IfOk result (λ s. (meaning self.now).IsBelow s (meaning self.now).first_state) }
        ensures above { IfOk result (λ s. (meaning self.now).IsBelow (meaning self.now).first_state s) };

    /// A state equal to `s`. It is refused for want of memory alone.
    fn copy(&self, alloc: Global, s: &Self::State) -> Result<Self::State, NoMemory>
        requires { (meaning self.now).IsFit s.now }
        ensures fit { IfOk result (λ t. (meaning self.now).IsFit t) }
        ensures below { IfOk result (λ t. (meaning self.now).IsBelow t s.now) }
        ensures above { IfOk result (λ t. (meaning self.now).IsBelow s.now t) };

    /// Whether `a` is below `b`.
    fn below(&self, a: &Self::State, b: &Self::State) -> bool
        requires a { (meaning self.now).IsFit a.now }
        requires b { (meaning self.now).IsFit b.now }
        ensures { IsTrue result ↔ (meaning self.now).IsBelow a.now b.now };

    /// Makes `a` the least state above `a` and `b`, and says whether that changed it.
    fn join_into(&self, a: &mut Self::State, b: &Self::State) -> bool
        requires a { (meaning self.now).IsFit a.old }
        requires b { (meaning self.now).IsFit b.now }
        ensures fit { (meaning self.now).IsFit a.new }
        ensures above_first { (meaning self.now).IsBelow a.old a.new }
        ensures above_second { (meaning self.now).IsBelow b.now a.new }
        ensures least { (c : Self.State) → (meaning self.now).IsFit c → (meaning self.now).IsBelow a.old c → (meaning self.now).IsBelow b.now c → (meaning self.now).IsBelow a.new c }
        ensures unchanged { (result ≡ false) ↔ (meaning self.now).IsBelow a.new a.old };

    ghost lawful: { (f : Self) → IsLawful (meaning f) };
}

/// A flow whose edges are asked for, and counted by `Steps` of `L`.
pub trait Walk<L>: Flow {
    /// Puts the edges that lead on from a place with the state `s` at the end of `edges`, and counts
    /// one step.
    ///
    /// It is refused for want of memory alone, and then has put the first of these edges there.
    fn out(
        &self,
        alloc: Global,
        place: usize,
        s: &Self::State,
        edges: &mut EdgeList<Self::State>,
        steps: &mut Steps<L>,
    ) -> Result<(), NoMemory>
        requires place { place < (Self.meaning self.now).place_count }
        requires fit { (Self.meaning self.now).IsFit s.now }
        ensures ok { OnOk result (Appends (Self.meaning self.now) edges.old ((Self.meaning self.now).edges_of place s.now) edges.new) }
        ensures err { OnErr result (AppendsPart (Self.meaning self.now) edges.old ((Self.meaning self.now).edges_of place s.now) edges.new) }
        ensures count { steps.new ≡ steps.old + 1 };
}
