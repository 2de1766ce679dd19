//! Laws over reports.

ghost use Rattle.std.specs.Prelude.{◌≡◌, ℕ, Some, List, [], length, slice_get};
ghost use Rattle.reg_state.specs.declared.state.State.{State};
ghost use Rattle.label_fixpoint.specs.Meaning.{IsLawful};
ghost use Rattle.label_fixpoint.specs.Typing.{IsLeast, Typing};
ghost use Rattle.func_split.specs.Functions.{Piece};
ghost use Rattle.beam_module.specs.Module.{IsModule, ModuleValue};
ghost use Rattle.code_faults.specs.declared.fault.Fault.{Fault};
ghost use Rattle.code_faults.specs.Faults.{function_faults};
ghost use Rattle.flow_rules.specs.Body.{Body};
ghost use Rattle.flow_rules.specs.Flow.{meaning_of};
ghost use Rattle.flow_rules.specs.Making.{IsFlowOf};
ghost use Rattle.flow_rules.specs.Reporting.{IsReport, typed_faults};
ghost use Rattle.flow_rules.specs.Reports.{function_report, report_of, typing_in};

use crate::making::sound_functions_fit;
use code_faults::sound_instructions_have_plans;
use func_split::functions_stand_in_their_code;
use reg_state::joins_are_least;

/// A module has one report at most.
#[tactic(auto, using(crate::proofs::Told::reports_agree))]
pub fn one_report()
    ensures { (m : ModuleValue) (a b : List Fault) → IsReport m a → IsReport m b → a ≡ b }
{}

/// Rounds find the least typing of a function whose flow is lawful, and with any least typing its
/// report is the one that is found so.
pub fn rounds_find_reports()
    ensures typing { (b : Body) → IsLawful (meaning_of b) → IsLeast (meaning_of b) (typing_in b) }
    ensures report { (m : ModuleValue) (number : ℕ) (f : Piece) (b : Body) (t : Typing State) → slice_get m.code.functions number ≡ Some f → function_faults m number f ≡ []
        → IsFlowOf m number b → IsLawful (meaning_of b) → IsLeast (meaning_of b) t → typed_faults number f.first b t (length b.plans) ≡ function_report m number f }
{
    joins_are_least();
}

/// A module that was opened has a report: what plans of all instructions and rounds over all functions
/// give.
pub fn modules_have_reports()
    ensures { (m : ModuleValue) (bytes : List ℕ) → IsModule m bytes → IsReport m (report_of m) }
{
    sound_functions_fit();
    sound_instructions_have_plans();
    functions_stand_in_their_code();
    joins_are_least();
}
