//! Laws over what actions need and do.

ghost use Rattle.std.specs.Prelude.{◌≡◌, ◌++◌, Bool, List, [], None, Ok, true};
ghost use Rattle.std.specs.List.{list_all};
ghost use Rattle.op_table.specs.declared.action.Action.{Action};
ghost use Rattle.op_table.specs.declared.plans.Plan.{Plan};
ghost use Rattle.op_table.specs.Instruction.{Instruction};
ghost use Rattle.op_table.specs.Planning.{plan_of};
ghost use Rattle.reg_state.specs.States.{Known, IsBelow};
ghost use Rattle.action_rules.specs.Needs.{needs};
ghost use Rattle.action_rules.specs.KindDomain.{kinds};
ghost use Rattle.action_rules.specs.Known.{known_effects};
ghost use Rattle.action_rules.specs.Fitting.{Bounds, Fits, action_fits};
ghost use Rattle.action_rules.specs.Steady.{are_steady};

/// Where the needs of actions are met on a state, they are met on each state below it.
pub fn needs_pass_down()
    ensures { (list : List Action) (s t : Known) → IsBelow s t → needs kinds list [] t ≡ None → needs kinds list [] s ≡ None }
{}

/// Actions keep the order of states.
#[tactic(auto, using(crate::specs::Relating::known_effects_rise))]
pub fn effects_keep_order()
    ensures { (list : List Action) (s t : Known) → IsBelow s t → IsBelow (known_effects list s) (known_effects list t) }
{}

/// Actions that write no registers, make no slots and put in no handlers but those of a function leave
/// a state that fits the function, where the state before fits it.
#[tactic(auto, using(crate::specs::FittingKept::known_effects_fit))]
pub fn effects_keep_bounds()
    ensures { (b : Bounds) (list : List Action) (s : Known) → list_all (action_fits b) list ≡ true → Fits b s → Fits b (known_effects list s) }
{}

/// No action of a plan changes what a later one of the plan needs, so that all needs can be told before
/// anything is done.
pub fn plans_are_steady()
    ensures { (i : Instruction) (ends : Bool) (p : Plan) → plan_of i ends ≡ Ok p → are_steady (p.before ++ p.after) ≡ true }
{
    op_table::plans_are_of_rows();
}
