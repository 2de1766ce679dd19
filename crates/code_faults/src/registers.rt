//! How many X registers a function has.

ghost use Rattle.std.specs.Prelude.{◌≡◌, [], ◌∷◌};
ghost use Rattle.op_table.specs.Table.{roles_of};
ghost use Rattle.op_table.specs.Rules.{named, named_of, registers};
ghost use Rattle.code_faults.specs.Registers.{raised, raised_by, x_bound};

use compact_term::{Operand, Plain, Reg};
use func_split::Function;
use op_table::{Instr, Role, op_row, register_of};

// The least bound that is not below this one and above the register, if it is an X register.
fn raised(bound: u64, reg: Reg) -> u64
    ensures { result ≡ raised bound reg }
{
    match reg {
        Reg::X(n) => bound.max(u64::from(n) + 1),
        Reg::Y(_) => bound,
    }
}

fn raised_by_plain(bound: u64, plain: &Plain) -> u64
    ensures { result ≡ raised_by bound (registers (plain.now ∷ [])) }
{
    match register_of(plain) {
        Some(reg) => raised(bound, reg),
        None => bound,
    }
}

#[tactic(auto, using(crate::proofs::Raising::raised_member))]
fn raised_by_members(mut bound: u64, members: &[Plain]) -> u64
    ensures { result ≡ raised_by bound (registers members.now) }
{
    for member in members {
        bound = raised_by_plain(bound, member);
    }
    bound
}

fn raised_by_operand(bound: u64, role: Role, operand: &Operand) -> u64
    ensures { result ≡ raised_by bound (named_of role operand.now) }
{
    match (role, operand) {
        (Role::Any | Role::Lp, _) | (_, Operand::Alloc(_)) => bound,
        (_, Operand::One(plain)) => raised_by_plain(bound, plain),
        (_, Operand::List(members)) => raised_by_members(bound, members.as_slice()),
    }
}

fn raised_by_operands(mut bound: u64, roles: &[Role], operands: &[Operand]) -> u64
    ensures { result ≡ raised_by bound (named roles.now operands.now) }
{
    for (role, operand) in roles.iter().zip(operands) {
        bound = raised_by_operand(bound, *role, operand);
    }
    bound
}

fn raised_by_instr(bound: u64, instr: &Instr) -> u64
    ensures { result ≡ raised_by bound (named (roles_of instr.now.op) instr.now.operands) }
{
    match op_row(instr.op()) {
        Some(row) => raised_by_operands(bound, row.roles, instr.operands().as_slice()),
        None => bound,
    }
}

/// How many X registers the function has: one more than the highest that its operands name, and at
/// least 3, which a handler of a failure finds, and as many as its arguments. Operands of roles `Any`
/// and `Lp` name none.
pub fn x_bound(f: &Function<'_>) -> u64
    ensures { result ≡ x_bound f.now }
{
    let mut bound = u64::from(f.arity()).max(3);
    for instr in f.instrs() {
        bound = raised_by_instr(bound, instr);
    }
    bound
}
