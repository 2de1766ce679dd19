//! What is wrong with an instruction because of its opcode and its operands.

ghost use Rattle.std.specs.Prelude.{◌≡◌, ◌<◌, length};
ghost use Rattle.op_table.specs.Instruction.{IsInstruction};
ghost use Rattle.code_faults.specs.Operands.{instruction_fault, operand_fault, operands_fault};

use crate::naming::{is_indexed, names_own, names_target};
use action_rules::Reason;
use beam_module::Module;
use compact_term::Operand;
use func_split::Function;
use op_table::{Instr, Role, has_shape, number_in, operand_at, typed_row};

// What is wrong with operand `k` of an instruction with so many arguments: its shape, then what it
// names in tables, then its labels, then what it calls.
fn operand_fault(
    m: &Module<'_>,
    f: &Function<'_>,
    arguments: u64,
    k: u32,
    role: Role,
    operand: &Operand,
) -> Option<Reason>
    ensures { result ≡ operand_fault m.now f.now arguments k role operand.now }
{
    if !has_shape(role, operand) {
        return Some(Reason::Operand(k));
    }
    if !is_indexed(m, role, operand) {
        return Some(Reason::Index(k));
    }
    if !names_own(f, role, operand) {
        return Some(Reason::Label(k));
    }
    if !names_target(m, arguments, role, operand) {
        return Some(Reason::Target(k));
    }
    None
}

// What is wrong with the first operand with which anything is.
fn operands_fault(
    m: &Module<'_>,
    f: &Function<'_>,
    arguments: u64,
    roles: &[Role],
    operands: &[Operand],
) -> Option<Reason>
    requires same { length roles.now ≡ length operands.now }
    requires few { length roles.now < 256 }
    ensures { result ≡ operands_fault m.now f.now arguments 1 roles.now operands.now }
{
    for (i, role) in roles.iter().enumerate() {
        let fault = operand_fault(m, f, arguments, i as u32 + 1, *role, &operands[i]);
        if fault.is_some() {
            return fault;
        }
    }
    None
}

/// What is wrong with an instruction of the function because of its opcode and its operands. None
/// where nothing is.
///
/// It is `Unsupported` where the opcode is not validated. Else it is told of the first operand, counted
/// from 1, with which anything is wrong: `Operand` where it is not what its role says, else `Index`
/// where it names an atom, a literal, an import or a fun that the module has not, else `Label` where a
/// label that is to be of the function is not, else `Target` where no function of as many arguments as
/// the call has is entered at the label.
#[tactic(auto, unfolding(crate::specs::Operands::instruction_fault))]
pub fn instruction_fault(m: &Module<'_>, f: &Function<'_>, instr: &Instr) -> Option<Reason>
    ensures fault { result ≡ instruction_fault m.now f.now instr.now }
    ensures whole { IsInstruction instr.now }
{
    let Some(row) = typed_row(instr.op()) else {
        return Some(Reason::Unsupported);
    };
    let operands = instr.operands().as_slice();
    let arguments = number_in(operand_at(operands, 1));
    operands_fault(m, f, arguments, row.roles, operands)
}
