//! Laws over the plans of all instructions.

ghost use Rattle.std.specs.Prelude.{◌≡◌, ◌≢◌, [], ◌++◌, ℕ, Bool, Ok, true, false};
ghost use Rattle.std.specs.List.{list_all};
ghost use Rattle.compact_term.specs.declared.operand.Reg.{Reg};
ghost use Rattle.compact_term.specs.declared.operand.Reg.TheVariants as regs;
ghost use Rattle.op_table.specs.declared.plans.Exit.TheVariants as exits;
ghost use Rattle.op_table.specs.declared.plans.Plan.{Plan};
ghost use Rattle.op_table.specs.Instruction.{Instruction, IsInstruction};
ghost use Rattle.op_table.specs.Table.{roles_of};
ghost use Rattle.op_table.specs.Planning.{plan_of};
ghost use Rattle.op_table.specs.Rules.{IsPlanOf, LeavesBy, own_labels, tag_labels, plan_labels, named, written};

/// A plan is that of the row of the opcode, and the operands are what the roles of the row say.
#[tactic(auto, using(crate::proofs::Of_rows::is_plan))]
pub fn plans_are_of_rows()
    ensures { (i : Instruction) (ends : Bool) (p : Plan) → plan_of i ends ≡ Ok p → IsPlanOf i ends p }
{}

/// What is needed before an instruction leaves its function or ends, and what comes after that.
#[tactic(auto, using(crate::proofs::Leaving::plans_leave))]
pub fn plans_leave_by_rules()
    ensures { (i : Instruction) (ends : Bool) (p : Plan) → plan_of i ends ≡ Ok p → LeavesBy i p.exit p }
{}

/// A plan that goes on at labels has one of them, or it can fail or raise.
#[tactic(auto, using(crate::proofs::Going::plans_go))]
pub fn plans_have_a_way()
    ensures { (i : Instruction) (ends : Bool) (p : Plan) → IsInstruction i → plan_of i ends ≡ Ok p → p.exit ≡ exits.Labels [] → p.raises ≡ false → p.fails ≢ [] }
{}

/// Handlers are put in by what comes first.
#[tactic(auto, using(crate::proofs::Tagless::plans_tag))]
pub fn plans_tag_first()
    ensures { (i : Instruction) (ends : Bool) (p : Plan) → plan_of i ends ≡ Ok p → tag_labels p.after ≡ [] }
{}

/// A plan names no labels but those of operands that are to be labels of the function itself.
#[tactic(auto, using(crate::proofs::Labels_kept::plans_keep))]
pub fn plans_keep_labels()
    ensures { (q : ℕ → Bool) (i : Instruction) (ends : Bool) (p : Plan) → IsInstruction i → plan_of i ends ≡ Ok p → list_all q (own_labels (roles_of i.op) i.operands) ≡ true → list_all q (plan_labels p) ≡ true }
{}

/// A plan writes no registers but x0 and those that operands name which are not of role `Any` or `Lp`.
#[tactic(auto, using(crate::proofs::Named_registers::plans_write))]
pub fn plans_write_named_registers()
    ensures { (q : Reg → Bool) (i : Instruction) (ends : Bool) (p : Plan) → plan_of i ends ≡ Ok p → q (regs.X 0) ≡ true → list_all q (named (roles_of i.op) i.operands) ≡ true → list_all q (written p.before ++ written p.after) ≡ true }
{}
