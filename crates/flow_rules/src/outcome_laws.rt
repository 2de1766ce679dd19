//! Laws over what runs of small modules come to.

ghost use Rattle.std.specs.Prelude.{◌≡◌, Some, List, [], ◌∷◌};
ghost use Rattle.bk_base.specs.declared.tag_kind.TagKind.TheVariants.{Try};
ghost use Rattle.compact_term.specs.declared.operand.Plain.TheVariants.{A, F, X, Y};
ghost use Rattle.compact_term.specs.declared.operand.Reg.TheVariants as regs;
ghost use Rattle.reg_state.specs.Store.SlotOf.{Tagged};
ghost use Rattle.reg_state.specs.Store.FrameOf.{Absent, Slots};
ghost use Rattle.action_rules.specs.declared.reason.Reason.TheVariants as reasons;
ghost use Rattle.flow_rules.specs.Values.Value.{Context, Mark};
ghost use Rattle.beam_module.specs.Module.{ModuleValue};
ghost use Rattle.flow_rules.specs.Machine.{Machine};
ghost use Rattle.flow_rules.specs.Outcomes.{Choice};
ghost use Rattle.flow_rules.specs.Outcomes.Outcome.{Goes, Ends};
ghost use Rattle.flow_rules.specs.Assembly.{label, allocate, allocate_zero, deallocate, return, move, swap, put_list, get_hd, trim, test_heap, make_fun3, gc_bif1, try, try_end, try_case, catch, catch_end, badmatch, jump, select_val, call, call_ext, call_ext_only};
ghost use Rattle.flow_rules.specs.Examples.{calling, failing, leaving, module_with, raising, tail_calling};
ghost use Rattle.flow_rules.specs.Shown.{Reaches, Shows, Sticks, blank, fail_to, filled, jump_to, led, on, raise, standing, standing_with, term, writes};

use func_split::splitting_is_exact;

/// Each kind of thing that may happen does happen in a run of a module: from the first registers that
/// are given, by the choices that are given, the run comes to exactly this state, or ends.
pub fn each_outcome_is_met()
    ensures call_is_entered { Shows calling (term 5 ∷ term 6 ∷ []) (on ∷ on ∷ on ∷ on ∷ []) (Goes (standing 10 (term 5 ∷ term 6 ∷ []) Absent (record { place = 5; frame = Slots (filled 6 ∷ []) } ∷ []))) }
    ensures call_returns { Shows calling (term 5 ∷ term 6 ∷ []) (on ∷ on ∷ on ∷ on ∷ on ∷ writes (7 ∷ []) ∷ on ∷ []) (Goes (standing 6 (term 7 ∷ []) (Slots (filled 6 ∷ [])) [])) }
    ensures tail_call_is_entered { Shows tail_calling (term 5 ∷ []) (on ∷ on ∷ on ∷ on ∷ on ∷ []) (Goes (standing 13 (term 5 ∷ []) Absent (record { place = 4; frame = Slots [] } ∷ []))) }
    ensures tail_call_returns { Shows tail_calling (term 5 ∷ []) (on ∷ on ∷ on ∷ on ∷ on ∷ on ∷ on ∷ []) (Goes (standing 5 (term 5 ∷ []) (Slots []) [])) }
    ensures last_return_ends { Shows (module_with 1 (return ∷ []) 3) (term 5 ∷ []) (on ∷ on ∷ []) (Ends) }
    ensures failure_writes_nothing { Shows (module_with 2 (gc_bif1 3 2 0 (X 0) (X 1) ∷ return ∷ label 3 ∷ return ∷ []) 4) (term 5 ∷ term 6 ∷ term 8 ∷ []) (on ∷ fail_to 0 ∷ []) (Goes (standing 5 (term 5 ∷ term 6 ∷ []) Absent [])) }
    ensures success_writes { Shows (module_with 2 (gc_bif1 3 2 0 (X 0) (X 1) ∷ return ∷ label 3 ∷ return ∷ []) 4) (term 5 ∷ term 6 ∷ term 8 ∷ []) (on ∷ writes (7 ∷ []) ∷ []) (Goes (standing 4 (term 5 ∷ term 7 ∷ []) Absent [])) }
    ensures raise_reaches_a_handler { Shows raising (term 5 ∷ []) (on ∷ on ∷ on ∷ on ∷ on ∷ on ∷ on ∷ on ∷ on ∷ raise ∷ []) (Goes (standing 9 (Some Mark ∷ []) (Slots (Tagged 3 Try ∷ [])) [])) }
    ensures handler_of_try { Shows raising (term 5 ∷ []) (on ∷ on ∷ on ∷ on ∷ on ∷ on ∷ on ∷ on ∷ on ∷ raise ∷ on ∷ writes (1 ∷ 2 ∷ 3 ∷ []) ∷ []) (Goes (standing 11 (term 1 ∷ term 2 ∷ term 3 ∷ []) (Slots (filled 0 ∷ [])) [])) }
    ensures handler_of_catch { Shows (module_with 1 (allocate 1 1 ∷ catch 0 3 ∷ badmatch (X 0) ∷ label 3 ∷ catch_end 0 ∷ deallocate 1 ∷ return ∷ []) 4) (term 5 ∷ []) (on ∷ on ∷ on ∷ raise ∷ on ∷ writes (4 ∷ []) ∷ []) (Goes (standing 8 (term 4 ∷ []) (Slots (filled 0 ∷ [])) [])) }
    ensures lowest_handler { Shows (module_with 1 (allocate 2 1 ∷ try 1 3 ∷ try 0 4 ∷ badmatch (X 0) ∷ label 3 ∷ return ∷ label 4 ∷ return ∷ []) 5) (term 5 ∷ []) (on ∷ on ∷ on ∷ on ∷ raise ∷ []) (Goes (standing 9 (Some Mark ∷ []) (Slots (Tagged 4 Try ∷ Tagged 3 Try ∷ [])) [])) }
    ensures raise_ends { Shows (module_with 1 (badmatch (X 0) ∷ []) 3) (term 5 ∷ []) (on ∷ raise ∷ []) (Ends) }
    ensures raise_ends_past_a_call { Shows failing (term 5 ∷ []) (on ∷ on ∷ on ∷ on ∷ raise ∷ []) (Ends) }
    ensures call_outside_raises { Shows (module_with 1 (allocate 0 1 ∷ call_ext 1 0 ∷ deallocate 0 ∷ return ∷ []) 3) (term 5 ∷ []) (on ∷ on ∷ raise ∷ []) (Ends) }
    ensures call_outside_returns { Shows (module_with 1 (allocate 0 1 ∷ call_ext 1 0 ∷ deallocate 0 ∷ return ∷ []) 3) (term 5 ∷ term 6 ∷ []) (on ∷ on ∷ writes (7 ∷ []) ∷ []) (Goes (standing 5 (term 7 ∷ []) (Slots []) [])) }
    ensures tail_outside_raises { Shows leaving (term 5 ∷ []) (on ∷ on ∷ on ∷ on ∷ on ∷ raise ∷ []) (Goes (standing 9 (Some Mark ∷ []) (Slots (Tagged 3 Try ∷ [])) [])) }
    ensures tail_outside_returns { Shows leaving (term 5 ∷ []) (on ∷ on ∷ on ∷ on ∷ on ∷ writes (7 ∷ []) ∷ []) (Goes (standing 6 (term 7 ∷ []) (Slots (Tagged 3 Try ∷ [])) [])) }
    ensures tail_outside_ends { Shows (module_with 1 (call_ext_only 1 0 ∷ []) 3) (term 5 ∷ []) (on ∷ writes (7 ∷ []) ∷ []) (Ends) }
    ensures second_label { Shows (module_with 1 (select_val (X 0) 3 (A 1 ∷ F 4 ∷ A 2 ∷ F 5 ∷ []) ∷ label 3 ∷ return ∷ label 4 ∷ return ∷ label 5 ∷ return ∷ []) 6) (term 5 ∷ []) (on ∷ jump_to 1 ∷ []) (Goes (standing 8 (term 5 ∷ []) Absent [])) }
    ensures no_label_of_the_list { Shows (module_with 1 (select_val (X 0) 3 (A 1 ∷ F 4 ∷ A 2 ∷ F 5 ∷ []) ∷ label 3 ∷ return ∷ label 4 ∷ return ∷ label 5 ∷ return ∷ []) 6) (term 5 ∷ []) (on ∷ fail_to 0 ∷ []) (Goes (standing 4 (term 5 ∷ []) Absent [])) }
    ensures jump { Shows (module_with 1 (jump 3 ∷ label 3 ∷ return ∷ []) 4) (term 5 ∷ []) (on ∷ jump_to 0 ∷ []) (Goes (standing 4 (term 5 ∷ []) Absent [])) }
    ensures copy { Shows (module_with 2 (move (X 1) (X 0) ∷ return ∷ []) 3) (term 5 ∷ term 6 ∷ []) (on ∷ on ∷ []) (Goes (standing 4 (term 6 ∷ term 6 ∷ []) Absent [])) }
    ensures copy_of_context { Shows (module_with 2 (move (X 1) (X 0) ∷ return ∷ []) 3) (term 5 ∷ Some Context ∷ []) (on ∷ on ∷ []) (Goes (standing 4 (Some Context ∷ Some Context ∷ []) Absent [])) }
    ensures copy_by_slot { Shows (module_with 1 (allocate 2 1 ∷ move (X 0) (Y 1) ∷ move (Y 1) (X 1) ∷ return ∷ []) 3) (term 5 ∷ []) (on ∷ on ∷ on ∷ on ∷ []) (Goes (standing 6 (term 5 ∷ term 5 ∷ []) (Slots (blank ∷ filled 5 ∷ [])) [])) }
    ensures swap { Shows (module_with 2 (swap (X 0) (X 1) ∷ return ∷ []) 3) (term 5 ∷ term 6 ∷ []) (on ∷ on ∷ []) (Goes (standing 4 (term 6 ∷ term 5 ∷ []) Absent [])) }
    ensures trim { Shows (module_with 2 (allocate 2 2 ∷ move (X 0) (Y 0) ∷ move (X 1) (Y 1) ∷ trim 1 1 ∷ return ∷ []) 3) (term 5 ∷ term 6 ∷ []) (on ∷ on ∷ on ∷ on ∷ on ∷ []) (Goes (standing 7 (term 5 ∷ term 6 ∷ []) (Slots (filled 6 ∷ [])) [])) }
    ensures heap_is_used { Shows (module_with 1 (test_heap 3 1 ∷ put_list (X 0) (A 0) (X 0) ∷ return ∷ []) 3) (term 5 ∷ []) (on ∷ on ∷ writes (7 ∷ []) ∷ []) (Goes (standing_with 1 5 (term 7 ∷ []) Absent [])) }
{
    splitting_is_exact();
}

/// Needs of actions and the faults of opcodes and operands each stop a run of a module: from the first
/// registers that are given, by the choices that are given, it comes to a state that is stuck for this
/// reason. With the misuses of `each_misuse_is_met` these are all actions that have a need.
pub fn each_need_can_fail()
    ensures new_slot { Sticks (module_with 1 (allocate 1 1 ∷ move (Y 0) (X 0) ∷ return ∷ []) 3) (term 5 ∷ []) (on ∷ on ∷ []) (reasons.Unset (regs.Y 0)) }
    ensures kept { Sticks (module_with 1 (test_heap 0 1 ∷ move (X 1) (X 0) ∷ return ∷ []) 3) (term 5 ∷ term 6 ∷ []) (on ∷ on ∷ []) (reasons.Unset (regs.X 1)) }
    ensures kept_by_a_call { Sticks (module_with 2 (allocate 0 2 ∷ call_ext 2 0 ∷ move (X 1) (X 0) ∷ return ∷ []) 3) (term 5 ∷ term 6 ∷ []) (on ∷ on ∷ writes (7 ∷ []) ∷ []) (reasons.Unset (regs.X 1)) }
    ensures read { Sticks (module_with 0 (return ∷ []) 3) ([]) (on ∷ []) (reasons.Unset (regs.X 0)) }
    ensures read_of_a_slot { Sticks (module_with 1 (allocate 1 1 ∷ get_hd (Y 0) (X 0) ∷ return ∷ []) 3) (term 5 ∷ []) (on ∷ on ∷ []) (reasons.Unset (regs.Y 0)) }
    ensures read_of_a_handler { Sticks (module_with 1 (allocate 1 1 ∷ try 0 3 ∷ get_hd (Y 0) (X 0) ∷ return ∷ label 3 ∷ return ∷ []) 4) (term 5 ∷ []) (on ∷ on ∷ on ∷ []) (reasons.Unset (regs.Y 0)) }
    ensures read_without_a_frame { Sticks (module_with 1 (get_hd (Y 0) (X 0) ∷ return ∷ []) 3) (term 5 ∷ []) (on ∷ []) reasons.NoFrame }
    ensures live { Sticks (module_with 1 (allocate 0 2 ∷ return ∷ []) 3) (term 5 ∷ []) (on ∷ []) (reasons.Unset (regs.X 1)) }
    ensures full { Sticks (module_with 1 (allocate 1 1 ∷ test_heap 0 1 ∷ return ∷ []) 3) (term 5 ∷ []) (on ∷ on ∷ []) (reasons.Unset (regs.Y 0)) }
    ensures full_at_a_call { Sticks (module_with 1 (allocate 1 1 ∷ call 1 2 ∷ deallocate 1 ∷ return ∷ []) 3) (term 5 ∷ []) (on ∷ on ∷ []) (reasons.Unset (regs.Y 0)) }
    ensures heap_is_reserved_anew { Sticks (module_with 1 (test_heap 2 1 ∷ test_heap 0 1 ∷ put_list (X 0) (A 0) (X 0) ∷ return ∷ []) 3) (term 5 ∷ []) (on ∷ on ∷ on ∷ []) reasons.Heap }
    ensures heap_for_a_fun { Sticks (module_with 1 (make_fun3 0 (X 0) ∷ return ∷ []) 3) (term 5 ∷ []) (on ∷ []) reasons.Heap }
    ensures write_to_a_handler { Sticks (module_with 1 (allocate 1 1 ∷ try 0 3 ∷ get_hd (X 0) (Y 0) ∷ return ∷ label 3 ∷ return ∷ []) 4) (term 5 ∷ []) (on ∷ on ∷ on ∷ []) (reasons.OpenTag (regs.Y 0)) }
    ensures swap_of_nothing { Sticks (module_with 1 (swap (X 0) (X 1) ∷ return ∷ []) 3) (term 5 ∷ []) (on ∷ []) (reasons.Unset (regs.X 1)) }
    ensures second_frame { Sticks (module_with 1 (allocate 0 1 ∷ allocate 0 1 ∷ return ∷ []) 3) (term 5 ∷ []) (on ∷ on ∷ []) reasons.FrameOpen }
    ensures call_without_a_frame { Sticks (module_with 1 (call 1 2 ∷ return ∷ []) 3) (term 5 ∷ []) (on ∷ []) reasons.NoFrame }
    ensures trim_of_another_size { Sticks (module_with 1 (allocate 1 1 ∷ trim 1 1 ∷ return ∷ []) 3) (term 5 ∷ []) (on ∷ on ∷ []) reasons.FrameSize }
    ensures trim_of_a_handler { Sticks (module_with 1 (allocate 1 1 ∷ try 0 3 ∷ trim 1 0 ∷ return ∷ label 3 ∷ return ∷ []) 4) (term 5 ∷ []) (on ∷ on ∷ on ∷ []) (reasons.OpenTag (regs.Y 0)) }
    ensures other_kind_of_handler { Sticks (module_with 1 (allocate 1 1 ∷ catch 0 3 ∷ try_end 0 ∷ return ∷ label 3 ∷ return ∷ []) 4) (term 5 ∷ []) (on ∷ on ∷ on ∷ []) (reasons.Innermost (regs.Y 0)) }
    ensures nothing_was_caught { Sticks (module_with 0 (allocate 1 0 ∷ catch 0 3 ∷ catch_end 0 ∷ return ∷ label 3 ∷ return ∷ []) 4) ([]) (on ∷ on ∷ on ∷ []) (reasons.Unset (regs.X 0)) }
    ensures nothing_has_landed { Sticks (module_with 1 (allocate 1 1 ∷ try 0 3 ∷ try_case 0 ∷ return ∷ label 3 ∷ return ∷ []) 4) (term 5 ∷ []) (on ∷ on ∷ on ∷ []) (reasons.Unset (regs.X 0)) }
    ensures unsupported { Sticks (module_with 1 (allocate_zero 0 1 ∷ return ∷ []) 3) (term 5 ∷ []) (on ∷ []) reasons.Unsupported }
    ensures operand { Sticks (module_with 1 (move (X 0) (A 1) ∷ return ∷ []) 3) (term 5 ∷ []) (on ∷ []) (reasons.Operand 2) }
    ensures index { Sticks (module_with 1 (move (A 3) (X 0) ∷ return ∷ []) 3) (term 5 ∷ []) (on ∷ []) (reasons.Index 1) }
    ensures label_elsewhere { Sticks (module_with 1 (jump 9 ∷ []) 3) (term 5 ∷ []) (on ∷ []) (reasons.Label 1) }
    ensures target { Sticks (module_with 1 (call 2 2 ∷ return ∷ []) 3) (term 5 ∷ []) (on ∷ []) (reasons.Target 2) }
{
    splitting_is_exact();
}

/// A state to which given choices lead is one that steps lead to: after a first state, it is the last of
/// a run.
pub fn choices_make_steps()
    ensures { (m : ModuleValue) (s t : Machine) (choices : List Choice) → led m choices (Goes s) ≡ Goes t → Reaches m s t }
{}
