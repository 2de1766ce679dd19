//! Laws over blocks of functions.

ghost use Rattle.std.specs.Prelude.{◌≡◌, ℕ, Some, length, slice_get};
ghost use Rattle.reg_state.specs.declared.state.State.{State};
ghost use Rattle.reg_state.specs.States.{store_of};
ghost use Rattle.label_fixpoint.specs.Cut.{read, spread};
ghost use Rattle.label_fixpoint.specs.Typing.{IsLeast, Typing};
ghost use Rattle.func_split.specs.Functions.{Piece};
ghost use Rattle.beam_module.specs.Module.{ModuleValue};
ghost use Rattle.flow_rules.specs.declared.fn_flow.FnFlow.{FnFlow};
ghost use Rattle.flow_rules.specs.Blocks.{block_faults, blocks_in, cut_of, marks_in};
ghost use Rattle.flow_rules.specs.Body.{Body};
ghost use Rattle.flow_rules.specs.Flow.{meaning_of};
ghost use Rattle.flow_rules.specs.FlowBody.{body_of};
ghost use Rattle.flow_rules.specs.Making.{IsFlowOf};
ghost use Rattle.flow_rules.specs.Reporting.{typed_faults};
ghost use Rattle.flow_rules.specs.Reports.{body_in};

/// The least typing of the blocks of a function, when each block is followed from where it begins, is
/// the least typing of its places, and the faults of the blocks are those of the places.
pub fn blocks_stand_for_places()
    ensures least { (f : FnFlow) (t : Typing State) → IsLeast (blocks_in f) t → IsLeast (meaning_of (body_of f)) (spread (cut_of (body_of f) (marks_in f)) t) }
    ensures faults { (f : FnFlow) (t : Typing State) → IsLeast (blocks_in f) t → read t (λ block s. block_faults f block (store_of s)) (blocks_in f).place_count ≡ typed_faults f.number f.function.first (body_of f) (spread (cut_of (body_of f) (marks_in f)) t) (length f.plans) }
{}

/// A function has one flow at most: that with the plans that its instructions have.
pub fn one_flow()
    ensures { (m : ModuleValue) (number : ℕ) (f : Piece) (b : Body) → slice_get m.code.functions number ≡ Some f → IsFlowOf m number b → b ≡ body_in m f }
{}
