//! How edges bring their states to their targets.

ghost use Rattle.std.specs.Prelude.{◌≡◌, ◌⊎◌, ◌+◌, ◌<◌, ◌≤◌, [], Some, length, sum_by, IfSome, OnOk};
ghost use Rattle.label_fixpoint.specs.Typing.{typing_of};
ghost use Rattle.label_fixpoint.specs.Progress.{Progress, Raises, Takes, weight};

use crate::agenda::Agenda;
use crate::edge::{Edge, EdgeList};
use crate::flow::Flow;
use bk_base::NoMemory;

// Joins a state into what a place has, and says whether that changed it.
fn raise<F: Flow>(flow: &F, slot: &mut Option<F::State>, state: F::State) -> bool
    requires slot { IfSome slot.old (λ s. (F.meaning flow.now).IsFit s) }
    requires state { (F.meaning flow.now).IsFit state }
    ensures { Raises (F.meaning flow.now) slot.old state slot.new result }
{
    match slot {
        Some(old) => flow.join_into(old, &state),
        None => {
            *slot = Some(state);
            true
        }
    }
}

fn take_in<F: Flow>(
    flow: &F,
    states: &mut Vec<Option<F::State>>,
    agenda: &mut Agenda,
    edge: Edge<F::State>,
) -> Result<(), NoMemory>
    requires target { edge.target < length states.old.items }
    requires place { edge.target < agenda.old.0 }
    requires slot { (s : F.State) → typing_of states.old.items edge.target ≡ Some s → (F.meaning flow.now).IsFit s }
    requires state { (F.meaning flow.now).IsFit edge.state }
    ensures ok { OnOk result (Takes (F.meaning flow.now) states.old.items agenda.old edge states.new.items agenda.new) }
{
    let Edge { target, state } = edge;
    if raise(flow, &mut states[target], state) {
        agenda.add(target)?;
    }
    Ok(())
}

/// Takes all edges in, after which the places that they changed are pending. It is refused for want of
/// memory alone.
pub(crate) fn spread<F: Flow>(
    flow: &F,
    states: &mut Vec<Option<F::State>>,
    agenda: &mut Agenda,
    edges: &mut EdgeList<F::State>,
) -> Result<(), NoMemory>
    requires { Progress (F.meaning flow.now) states.old.items agenda.old edges.old }
    ensures progress { OnOk result (Progress (F.meaning flow.now) states.new.items agenda.new []) }
    ensures edges { OnOk result (edges.new ≡ []) }
    ensures count { OnOk result (length agenda.new.1 + sum_by (weight (F.meaning flow.now)) states.old.items ≤ length agenda.old.1 + sum_by (weight (F.meaning flow.now)) states.new.items) }
    ensures begins { OnOk result ((sum_by (weight (F.meaning flow.now)) states.new.items ≡ sum_by (weight (F.meaning flow.now)) states.old.items) ⊎ (0 < length agenda.new.1)) }
{
    while let Some(edge) = edges.pop() {
        take_in(flow, states, agenda, edge)?;
    }
    Ok(())
}
