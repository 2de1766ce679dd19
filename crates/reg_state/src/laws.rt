//! What holds of the order of states and of their joins.

ghost use Rattle.std.specs.Prelude.{◌≡◌};
ghost use Rattle.reg_state.specs.States.{Known, IsBelow};
ghost use Rattle.reg_state.specs.Join.{joined, IsLeastAbove};

/// The order of states is a partial order.
pub fn states_are_ordered()
    ensures reflexive { (s : Known) → IsBelow s s }
    ensures transitive { (s t u : Known) → IsBelow s t → IsBelow t u → IsBelow s u }
    ensures same { (s t : Known) → IsBelow s t → IsBelow t s → s ≡ t }
{}

/// The join of two states is the least one above both.
pub fn joins_are_least()
    ensures { (s t : Known) → IsLeastAbove s t (joined s t) }
{}
