//! The output of `validate`.

ghost use Rattle.std.specs.Prelude.{◌≡◌, IfOk, IfErr};
ghost use Rattle.bk_codec.specs.Reading.{GivesAll};
ghost use Rattle.flow_rules.specs.Reports.{report_of};
ghost use Rattle.beam_cli.specs.Made.{made_of_output};
ghost use Rattle.beam_cli.specs.Reasons.{IsRefusal};
ghost use Rattle.beam_cli.specs.Validating.{judged, validate_output};

use crate::needs::module_of_file;
use crate::output::Output;
use crate::refusal::Refusal;
use beam_module::Module;
use bk_base::{NoMemory, Steps};
use std::alloc::Global;
use validator::{report_text, validate};

// The ledger of the one count of steps.
#[derive(Drop)]
struct Visits;

/// What is wrong with the module that the bytes are, by the text of its report.
pub fn validated(alloc: Global, bytes: &[u8]) -> Result<Output, Refusal>
    ensures output { GivesAll Refusal.NoMemory made_of_output result (validate_output bytes.now) }
    ensures kind { IfErr result IsRefusal }
{
    let module = module_of_file(alloc, bytes)?;
    Ok(report_of(alloc, &module)?)
}

/// What is wrong with a module, by the text of its report. It fails only for want of memory.
pub fn report_of(alloc: Global, m: &Module<'_>) -> Result<Output, NoMemory>
    ensures { IfOk result (λ output. made_of_output output ≡ judged m.now (report_of m.now)) }
{
    let mut steps = Steps::start(Visits);
    let report = validate(alloc, m, &mut steps)?;
    Ok(Output {
        text: report_text(alloc, m, &report)?,
        found: !report.is_empty(),
    })
}
