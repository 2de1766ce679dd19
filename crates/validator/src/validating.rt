//! What is wrong with a module.

ghost use Rattle.std.specs.Prelude.{◌≡◌, ◌+◌, ◌++◌, ◌<◌, ◌≤◌, All, [], Some, length, slice_get, IfOk, OnOk};
ghost use Rattle.reg_state.specs.States.{store_of};
ghost use Rattle.label_fixpoint.specs.Cut.{at_state, read};
ghost use Rattle.label_fixpoint.specs.Typing.{IsLeast, typing_of};
ghost use Rattle.func_split.specs.Functions.{Piece};
ghost use Rattle.flow_rules.specs.Blocks.{block_faults, blocks_in};
ghost use Rattle.flow_rules.specs.Reporting.{IsReport};
ghost use Rattle.flow_rules.specs.Reports.{report_of};
ghost use Rattle.flow_rules.specs.Runs.{NeverStuck};
ghost use Rattle.validator.specs.Counted.{least_of, least_steps, most_of, most_steps};
ghost use Rattle.validator.specs.Reported.{AddsReport, IsIn};

use beam_module::Module;
use bk_base::{ItemList, NoMemory, Steps};
use flow_rules::{
    BlockFlow, FaultList, FlowRefusal, FnFlow, accepted_modules_never_get_stuck,
    blocks_stand_for_places, one_flow, rounds_find_reports,
};
use label_fixpoint::{Flow, solve};
use reg_state::State;
use std::alloc::Global;

/// What is wrong with a module: its faults, function by function in the order of the code. It is empty
/// exactly where the module is accepted.
pub type Report = FaultList;

// Puts faults at the end.
fn add_faults(report: &mut Report, faults: &FaultList) -> Result<(), NoMemory>
    ensures { OnOk result (report.new ≡ report.old ++ faults.now) }
{
    'faults: for fault in faults.as_slice() {
        report.push(*fault)?;
    }
    Ok(())
}

// Puts the faults of a block at the end, where the block has a state.
fn add_block(
    alloc: Global,
    blocks: &BlockFlow<'_, '_>,
    states: &ItemList<Option<State>>,
    block: usize,
    report: &mut Report,
) -> Result<(), NoMemory>
    requires least { IsLeast (blocks_in blocks.now.flow.now) (typing_of states.now) }
    requires inside { block < (blocks_in blocks.now.flow.now).place_count }
    ensures { OnOk result (report.new ≡ report.old ++ at_state (λ s. block_faults blocks.now.flow.now block (store_of s)) (typing_of states.now block)) }
{
    match states.get(block) {
        Some(Some(state)) => blocks.faults(alloc, block, state, report),
        Some(None) | None => Ok(()),
    }
}

// Puts the faults of each block that has a state at the end.
fn add_blocks(
    alloc: Global,
    blocks: &BlockFlow<'_, '_>,
    states: &ItemList<Option<State>>,
    report: &mut Report,
) -> Result<(), NoMemory>
    requires { IsLeast (blocks_in blocks.now.flow.now) (typing_of states.now) }
    ensures { OnOk result (report.new ≡ report.old ++ read (typing_of states.now) (λ block s. block_faults blocks.now.flow.now block (store_of s)) (blocks_in blocks.now.flow.now).place_count) }
{
    'each: for block in 0..blocks.places() {
        add_block(alloc, blocks, states, block, report)?;
    }
    Ok(())
}

// Puts the report of function `i`, counted from 0, at the end.
fn add_report<L>(
    alloc: Global,
    m: &Module<'_>,
    i: usize,
    report: &mut Report,
    steps: &mut Steps<L>,
) -> Result<(), NoMemory>
    requires { i < length m.now.code.functions }
    ensures report { OnOk result ((f : Piece) → slice_get m.now.code.functions i ≡ Some f → AddsReport m.now i f report.old report.new) }
    ensures at_most { steps.new ≤ steps.old + most_of m.now i (slice_get m.now.code.functions i) }
    ensures at_least { OnOk result (steps.old + least_of m.now i (slice_get m.now.code.functions i) ≤ steps.new) }
{
    rounds_find_reports();
    blocks_stand_for_places();
    one_flow();
    let flow = match FnFlow::new(alloc, m, i) {
        Ok(flow) => flow,
        Err(FlowRefusal::Faults(faults)) => return add_faults(report, &faults),
        Err(FlowRefusal::NoMemory) => return Err(NoMemory),
    };
    let blocks = BlockFlow::new(alloc, &flow)?;
    let states = solve(alloc, &blocks, steps)?.states;
    add_blocks(alloc, &blocks, &states, report)
}

/// The report of a module: function by function in the order of the code, all faults of opcodes and
/// operands, or where there are none, of each place that the least typing has a state for the first
/// need that fails with it.
///
/// Where it is empty, no run of the module is ever stuck. It is refused for want of memory alone.
///
/// Functions are solved block by block. Each time the edges of a block are asked for counts as one
/// step: for each function without faults of opcodes and operands at most as many as its blocks times
/// its height, also where memory is wanting, and at least one where it isn't.
pub fn validate<L>(alloc: Global, m: &Module<'_>, steps: &mut Steps<L>) -> Result<Report, NoMemory>
    ensures report { IfOk result (IsReport m.now) }
    // What plans and rounds over all functions give.
    ensures told { IfOk result (λ report. report ≡ report_of m.now) }
    // So the report has a text.
    ensures named { IfOk result (All (IsIn m.now)) }
    // A module that is accepted never gets stuck.
    ensures never_stuck { IfOk result (λ report. report ≡ [] → NeverStuck m.now) }
    ensures at_most { steps.new ≤ steps.old + most_steps m.now }
    ensures at_least { OnOk result (steps.old + least_steps m.now ≤ steps.new) }
{
    accepted_modules_never_get_stuck();
    let mut report = ItemList::new(alloc);
    'functions: for i in 0..m.functions() {
        add_report(alloc, m, i, &mut report, steps)?;
    }
    Ok(report)
}
