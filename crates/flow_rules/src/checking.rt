//! What a place needs of what is known there.

ghost use Rattle.std.specs.Prelude.{◌≡◌, ◌<◌, ◌+◌, ◌++◌, true, length, OnOk, OnErr};
ghost use Rattle.reg_state.specs.States.{frame_of, store_of};
ghost use Rattle.action_rules.specs.Fitting.{Fits};
ghost use Rattle.action_rules.specs.KindDomain.{kinds};
ghost use Rattle.action_rules.specs.Known.{HasFewSlots};
ghost use Rattle.action_rules.specs.Needs.{exit_need, plan_need};
ghost use Rattle.action_rules.specs.Steady.{needs_now};
ghost use Rattle.flow_rules.specs.Body.{plan_is_steady};
ghost use Rattle.code_faults.specs.Faults.{faults_at};
ghost use Rattle.flow_rules.specs.Flow.{FitsBody};
ghost use Rattle.flow_rules.specs.FlowBody.{body_of, checked, need_at};

use crate::fn_flow::FnFlow;
use action_rules::{Reason, need};
use bk_base::NoMemory;
use code_faults::{Fault, FaultList};
use op_table::{Action, Exit, Plan};
use reg_state::State;

// The first need of actions that fails, each on the same state.
fn first_need(actions: &[Action], s: &State) -> Option<Reason>
    ensures { HasFewSlots (frame_of s.now.frame) → result ≡ needs_now kinds actions.now (store_of s.now) }
{
    for action in actions {
        if let Some(reason) = need(*action, s) {
            return Some(reason);
        }
    }
    None
}

fn exit_need(exit: &Exit, has_next: bool) -> Option<Reason>
    ensures { result ≡ exit_need has_next exit.now }
{
    match exit {
        Exit::Next | Exit::Enter(_) if !has_next => Some(Reason::Leave),
        _ => None,
    }
}

// No action of a steady plan changes what a later one needs.
fn plan_need(plan: &Plan, has_next: bool, s: &State) -> Option<Reason>
    requires { plan_is_steady plan.now ≡ true }
    ensures { HasFewSlots (frame_of s.now.frame) → result ≡ plan_need kinds has_next plan.now (store_of s.now) }
{
    if let Some(reason) = first_need(plan.before.as_slice(), s) {
        return Some(reason);
    }
    if let Some(reason) = first_need(plan.after.as_slice(), s) {
        return Some(reason);
    }
    exit_need(&plan.exit, has_next)
}

impl<'m> FnFlow<'m> {
    /// The first need of the instruction at a place that what is known there doesn't meet.
    pub fn check(&self, place: usize, s: &State) -> Option<Fault>
        requires { place < length self.now.plans }
        ensures { Fits (body_of self.now).bounds (store_of s.now) → result ≡ checked self.now place (store_of s.now) }
    {
        let reason = plan_need(self.plan(place), self.has_next(place), s)?;
        Some(Fault {
            function: self.number,
            place: (self.function.first() + place) as u32,
            reason,
        })
    }

    /// Puts the first need of the instruction at a place that what is known there doesn't meet at the end
    /// of `out`. It is refused for want of memory alone, and then has put nothing there.
    pub(crate) fn add_fault(
        &self,
        place: usize,
        s: &State,
        out: &mut FaultList,
    ) -> Result<(), NoMemory>
        requires { place < length self.now.plans }
        ensures ok { FitsBody (body_of self.now) s.now → OnOk result (out.new ≡ out.old ++ faults_at self.now.number (self.now.function.first + place) (need_at (body_of self.now) place (store_of s.now))) }
        ensures err { OnErr result (out.new ≡ out.old) }
    {
        if let Some(fault) = self.check(place, s) {
            out.push(fault)?;
        }
        Ok(())
    }
}
