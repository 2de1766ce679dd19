//! Laws over runs of the machine.

ghost use Rattle.std.specs.Prelude.{◌≡◌, [], ℕ, List, None};
ghost use Rattle.std.specs.List.{AllByRecursion};
ghost use Rattle.op_table.specs.Instruction.{IsInstruction};
ghost use Rattle.func_split.specs.Functions.{IsSplit};
ghost use Rattle.beam_module.specs.Module.{ModuleValue};
ghost use Rattle.flow_rules.specs.Machine.{Machine, stop};
ghost use Rattle.flow_rules.specs.Reporting.{IsReport};
ghost use Rattle.flow_rules.specs.Runs.{HasOutcome, IsRun, NeverStuck};

use crate::making::sound_functions_fit;
use code_faults::sound_calls_have_targets;
use func_split::functions_stand_in_their_code;
use op_table::{plans_are_of_rows, plans_have_a_way, plans_leave_by_rules, rows_have_their_roles};

/// No run of a module with which nothing is wrong is ever stuck: of any length, from any function, with
/// any arguments, and whatever tests and calls outside answer.
pub fn accepted_modules_never_get_stuck()
    ensures { (m : ModuleValue) → IsSplit m.code.labels m.code.instrs m.code.functions → IsReport m [] → NeverStuck m }
{
    functions_stand_in_their_code();
    sound_functions_fit();
    plans_are_of_rows();
    rows_have_their_roles();
    plans_leave_by_rules();
    sound_calls_have_targets();
}

/// A state of a run that is not stuck has something that may happen next: another state, or the end of
/// the run.
pub fn runs_go_on()
    ensures { (m : ModuleValue) (states : List Machine) → AllByRecursion IsInstruction m.code.instrs → IsRun m states → AllByRecursion (λ s. stop m s ≡ None → HasOutcome m s) states }
{
    plans_have_a_way();
}
