//! Laws over instructions with which nothing is wrong, and over registers.

ghost use Rattle.std.specs.Prelude.{◌≡◌, ◌≤◌, ℕ, Bool, Some, None, Ok, true, slice_get};
ghost use Rattle.std.specs.List.{list_all};
ghost use Rattle.compact_term.specs.declared.operand.Operand.{Operand};
ghost use Rattle.op_table.specs.declared.plans.Plan.{Plan};
ghost use Rattle.op_table.specs.declared.role.Role.TheVariants as roles;
ghost use Rattle.op_table.specs.Instruction.{Instruction};
ghost use Rattle.op_table.specs.Planned.{label_in};
ghost use Rattle.op_table.specs.Planning.{plan_of};
ghost use Rattle.op_table.specs.Rules.{named, own_labels};
ghost use Rattle.op_table.specs.Table.{roles_of};
ghost use Rattle.func_split.specs.Functions.{IsEntry, Piece};
ghost use Rattle.beam_module.specs.Module.{ModuleValue};
ghost use Rattle.code_faults.specs.Naming.{is_own};
ghost use Rattle.code_faults.specs.Operands.{arguments_of, instruction_fault};
ghost use Rattle.code_faults.specs.Registers.{is_within, named_in, x_bound};

/// An instruction with which nothing is wrong has a plan.
pub fn sound_instructions_have_plans()
    ensures { (m : ModuleValue) (f : Piece) (i : Instruction) (ends : Bool) → instruction_fault m f i ≡ None → (p : Plan) × (plan_of i ends ≡ Ok p) }
{}

/// The labels of an instruction with which nothing is wrong that are to be ones of the function stand
/// in it.
#[tactic(auto, using(crate::proofs::Soundness::stays_inside))]
pub fn sound_instructions_stay_inside()
    ensures { (m : ModuleValue) (f : Piece) (i : Instruction) → instruction_fault m f i ≡ None → list_all (is_own f) (own_labels (roles_of i.op) i.operands) ≡ true }
{}

/// At the label that a call with which nothing is wrong names, a function of as many arguments is
/// entered.
#[tactic(auto, using(crate::proofs::Soundness::has_target))]
pub fn sound_calls_have_targets()
    ensures { (m : ModuleValue) (f : Piece) (i : Instruction) (k : ℕ) (o : Operand) → instruction_fault m f i ≡ None → slice_get (roles_of i.op) k ≡ Some roles.E → slice_get i.operands k ≡ Some o → IsEntry m.code.functions (label_in (Some o)) (arguments_of i) }
{}

/// The X registers that operands of a function name are among those that it has, and so are its
/// arguments and the three that a handler finds.
#[tactic(auto, using(crate::proofs::Raising::counted, crate::proofs::Raising::counted_at, crate::proofs::Raising::grows))]
pub fn named_registers_are_counted()
    ensures all { (f : Piece) → list_all (is_within (x_bound f)) (named_in f.instrs) ≡ true }
    ensures each { (f : Piece) (k : ℕ) (i : Instruction) → slice_get f.instrs k ≡ Some i → list_all (is_within (x_bound f)) (named (roles_of i.op) i.operands) ≡ true }
    ensures three { (f : Piece) → 3 ≤ x_bound f }
    ensures arguments { (f : Piece) → f.arity ≤ x_bound f }
{}
