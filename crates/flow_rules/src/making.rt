//! The flow of a function of a module.

ghost use Rattle.std.specs.Prelude.{◌≡◌, ◌≢◌, ◌+◌, ◌<◌, ◌^◌, ◌++◌, [], Ok, Err, Some, None, List, true, length, slice_get, IfOk, OnOk};
ghost use Rattle.std.specs.List.{AllZip};
ghost use Rattle.op_table.specs.declared.plans.Plan.{Plan};
ghost use Rattle.op_table.specs.Rules.{tag_labels};
ghost use Rattle.func_split.specs.Functions.{Piece};
ghost use Rattle.beam_module.specs.Module.{ModuleValue};
ghost use Rattle.action_rules.specs.declared.reason.Reason.{Reason};
ghost use Rattle.code_faults.specs.declared.fault.Fault.{Fault};
ghost use Rattle.code_faults.specs.Faults.{function_faults};
ghost use Rattle.code_faults.specs.Operands.{instruction_fault};
ghost use Rattle.code_faults.specs.Registers.{x_bound};
ghost use Rattle.flow_rules.specs.declared.refusal.FlowRefusal.TheVariants as refusals;
ghost use Rattle.flow_rules.specs.Body.{body_fits};
ghost use Rattle.flow_rules.specs.FlowBody.{body_of};
ghost use Rattle.flow_rules.specs.Making.{HasPlan, IsFlowOf, body_with, faults_of, handlers_of, widened_by, y_bound};

use crate::fn_flow::FnFlow;
use crate::refusal::FlowRefusal;
use action_rules::{Reason, plans_are_steady};
use beam_module::Module;
use bk_base::{ItemList, NoMemory};
use code_faults::{
    Fault, FaultList, ends, instruction_fault, named_registers_are_counted,
    sound_instructions_have_plans, sound_instructions_stay_inside,
};
use func_split::Function;
use op_table::{
    Action, Instr, Plan, PlanRefusal, plan, plans_keep_labels, plans_tag_first,
    plans_write_named_registers,
};
use std::alloc::Global;

// What an instruction is found to be.
#[derive(Debug, Drop)]
enum Verdict {
    // Nothing is wrong with it, and this is what it needs and does.
    Sound(Plan),
    Wrong(Reason),
}

// What is found of the instructions of a function.
#[derive(Debug, Drop)]
struct Findings {
    // Of those with which nothing is wrong.
    plans: ItemList<Plan>,
    faults: FaultList,
}

/// A function leads to places of its own alone where nothing is wrong with its instructions.
pub(crate) fn sound_functions_fit()
    ensures { (m : ModuleValue) (f : Piece) (plans : List Plan) → AllZip (HasPlan m f) f.instrs plans → f.entry < length f.instrs → body_fits (body_with f plans) ≡ true }
{
    plans_keep_labels();
    plans_write_named_registers();
    plans_tag_first();
    sound_instructions_stay_inside();
    named_registers_are_counted();
}

// An instruction of a function of the module.
fn judge(
    alloc: Global,
    m: &Module<'_>,
    f: &Function<'_>,
    instr: &Instr,
) -> Result<Verdict, NoMemory>
    ensures sound { (p : Plan) → result ≡ Ok (Verdict.Sound p) → HasPlan m.now f.now instr.now p }
    ensures wrong { (why : Reason) → result ≡ Ok (Verdict.Wrong why) → instruction_fault m.now f.now instr.now ≡ Some why }
{
    sound_instructions_have_plans();
    if let Some(reason) = instruction_fault(m, f, instr) {
        return Ok(Verdict::Wrong(reason));
    }
    match plan(alloc, instr, ends(m, instr)) {
        Ok(plan) => Ok(Verdict::Sound(plan)),
        // Neither of these comes, as an instruction with which nothing is wrong has a plan.
        Err(PlanRefusal::Unsupported { .. }) => Ok(Verdict::Wrong(Reason::Unsupported)),
        Err(PlanRefusal::Shape { operand }) => Ok(Verdict::Wrong(Reason::Operand(operand))),
        Err(PlanRefusal::NoMemory) => Err(NoMemory),
    }
}

// All instructions of function `number` of the module.
fn judge_all(
    alloc: Global,
    m: &Module<'_>,
    f: &Function<'_>,
    number: u32,
) -> Result<Findings, NoMemory>
    requires { f.now.first + length f.now.instrs < 2 ^ 32 }
    ensures faults { IfOk result (λ found. found.faults ≡ function_faults m.now number f.now) }
    ensures plans { IfOk result (λ found. found.faults ≡ [] → AllZip (HasPlan m.now f.now) f.now.instrs found.plans) }
{
    let mut plans = ItemList::new(alloc);
    let mut faults = ItemList::new(alloc);
    'instrs: for (place, instr) in f.instrs().iter().enumerate() {
        match judge(alloc, m, f, instr)? {
            Verdict::Sound(plan) => plans.push(plan)?,
            Verdict::Wrong(reason) => faults.push(Fault {
                function: number,
                place: (f.first() + place) as u32,
                reason,
            })?,
        }
    }
    Ok(Findings { plans, faults })
}

// Puts the labels of the handlers that actions put in at the end.
fn add_handlers(handlers: &mut ItemList<u32>, actions: &[Action]) -> Result<(), NoMemory>
    ensures { OnOk result (handlers.new ≡ handlers.old ++ tag_labels actions.now) }
{
    'actions: for action in actions {
        if let Action::Tag(_, label, _) = action {
            handlers.push(*label)?;
        }
    }
    Ok(())
}

// The labels of the handlers that plans put in.
fn handlers_of(alloc: Global, plans: &[Plan]) -> Result<ItemList<u32>, NoMemory>
    ensures { IfOk result (λ handlers. handlers ≡ handlers_of plans.now) }
{
    let mut handlers = ItemList::new(alloc);
    'plans: for plan in plans {
        add_handlers(&mut handlers, plan.before.as_slice())?;
    }
    Ok(handlers)
}

// So many slots, or those of the greatest frame that an action makes.
fn widened_by(mut widest: u32, actions: &[Action]) -> u32
    ensures { result ≡ widened_by widest actions.now }
{
    'actions: for action in actions {
        if let Action::NewFrame(slots) = action {
            widest = widest.max(*slots);
        }
    }
    widest
}

// How many slots the greatest frame has that a plan makes.
fn widest_frame(plans: &[Plan]) -> u32
    ensures { result ≡ y_bound plans.now }
{
    let mut widest = 0;
    'plans: for plan in plans {
        widest = widened_by(widest, plan.before.as_slice());
        widest = widened_by(widest, plan.after.as_slice());
    }
    widest
}

impl<'m> FnFlow<'m> {
    /// The flow of function `i`, counted from 0.
    ///
    /// It is refused where the opcode or the operands of an instruction are wrong, and for want of memory.
    /// In the first case all such instructions are told, in the order of the code and each once, with the
    /// first thing that is wrong with it. Their places count over the whole code of the module, not from
    /// the first instruction of the function.
    pub fn new(alloc: Global, m: &'m Module<'_>, i: usize) -> Result<FnFlow<'m>, FlowRefusal>
        requires { i < length m.now.code.functions }
        ensures flow { IfOk result (λ f. (faults_of m.now i ≡ []) × IsFlowOf m.now i (body_of f)) }
        ensures numbered { IfOk result (λ f. (f.number ≡ i) × (slice_get m.now.code.functions i ≡ Some f.function)) }
        ensures faults { (list : List Fault) → result ≡ Err (refusals.Faults list) → (list ≡ faults_of m.now i) × (list ≢ []) }
    {
        plans_are_steady();
        sound_functions_fit();
        let function = m.function(i).unwrap();
        let number = i as u32;
        let found = judge_all(alloc, m, &function, number)?;
        if !found.faults.is_empty() {
            return Err(FlowRefusal::Faults(found.faults));
        }
        let handlers = handlers_of(alloc, found.plans.as_slice())?;
        let widest = widest_frame(found.plans.as_slice());
        Ok(FnFlow {
            function,
            number,
            plans: found.plans,
            handlers,
            widest,
        })
    }
}
