//! Laws over modules that misuse the machine.

ghost use Rattle.std.specs.Prelude.{List, [], ◌∷◌};
ghost use Rattle.compact_term.specs.declared.operand.Plain.TheVariants.{A, X, Y};
ghost use Rattle.compact_term.specs.declared.operand.Reg.TheVariants as regs;
ghost use Rattle.action_rules.specs.declared.reason.Reason.TheVariants as reasons;
ghost use Rattle.flow_rules.specs.Assembly.{allocate, deallocate, return, move, put_list, try, try_end, label};
ghost use Rattle.flow_rules.specs.Examples.{Meets, module_with};

use func_split::splitting_is_exact;

/// Ten misuses of the machine are each met by a run of a module: its last state stands at the misuse,
/// and is stuck for the reason that is given.
pub fn each_misuse_is_met()
    ensures unset { Meets (module_with 1 (move (X 1) (X 0) ∷ return ∷ []) 3) 3 (reasons.Unset (regs.X 1)) }
    ensures slot { Meets (module_with 1 (allocate 1 1 ∷ move (X 0) (Y 1) ∷ return ∷ []) 3) 4 (reasons.Slot (regs.Y 1)) }
    ensures no_frame { Meets (module_with 1 (move (X 0) (Y 0) ∷ return ∷ []) 3) 3 reasons.NoFrame }
    ensures frame_open { Meets (module_with 1 (allocate 0 1 ∷ return ∷ []) 3) 4 reasons.FrameOpen }
    ensures frame_size { Meets (module_with 1 (allocate 1 1 ∷ deallocate 2 ∷ return ∷ []) 3) 4 reasons.FrameSize }
    ensures heap { Meets (module_with 1 (put_list (X 0) (A 0) (X 0) ∷ return ∷ []) 3) 3 reasons.Heap }
    ensures leave { Meets (module_with 0 (move (A 0) (X 0) ∷ []) 3) 3 reasons.Leave }
    ensures open_tag { Meets (module_with 1 (allocate 1 1 ∷ try 0 3 ∷ deallocate 1 ∷ return ∷ label 3 ∷ return ∷ []) 4) 5 (reasons.OpenTag (regs.Y 0)) }
    ensures order { Meets (module_with 1 (allocate 2 1 ∷ try 0 3 ∷ try 1 3 ∷ return ∷ label 3 ∷ return ∷ []) 4) 5 (reasons.Order (regs.Y 1)) }
    ensures innermost { Meets (module_with 1 (allocate 2 1 ∷ try 1 3 ∷ try 0 3 ∷ try_end 1 ∷ try_end 0 ∷ deallocate 2 ∷ return ∷ label 3 ∷ return ∷ []) 4) 6 (reasons.Innermost (regs.Y 1)) }
{
    splitting_is_exact();
}
