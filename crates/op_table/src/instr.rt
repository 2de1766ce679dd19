//! Instructions.

ghost use Rattle.std.specs.Prelude.{◌≡◌, Some, length};
ghost use Rattle.op_table.specs.Table.{arity_of, row_name, row_with};

use crate::row::op_row;
use crate::short_list::ShortList;
use compact_term::Operand;
use std::marker::Model;

/// The operands of an instruction, in order. Up to three stand in the value itself, which is enough
/// for nine of ten instructions.
pub type OperandList = ShortList<Operand, 3>;

/// An opcode with its operands, of which there are as many as the table says.
#[derive(Debug, Drop)]
pub struct Instr {
    op: u8,
    operands: OperandList,
}

impl Model for Instr {
    ghost use Rattle.op_table.specs.Instruction.{Instruction, IsInstruction};

    ghost Value = { Instruction };

    ghost view = { λ i. record { op = i.op; operands = i.operands } };

    ghost invariant = { λ i. IsInstruction (record { op = i.op; operands = i.operands }) };
}

impl Instr {
    /// The instruction of an opcode with these operands.
    pub fn new(op: u8, operands: OperandList) -> Instr
        requires { arity_of op ≡ Some (length operands) }
        ensures op { result.op ≡ op }
        ensures operands { result.operands ≡ operands }
    {
        Instr { op, operands }
    }

    /// The opcode.
    pub fn op(&self) -> u8
        ensures same { result ≡ self.now.op }
        ensures arity { arity_of result ≡ Some (length self.now.operands) }
    {
        self.op
    }

    /// The name of the opcode, as it is listed.
    pub fn name(&self) -> &'static str
        ensures same { result.now ≡ row_name (row_with self.now.op) }
    {
        op_row(self.op).unwrap().name
    }

    /// The operands.
    pub fn operands(&self) -> &OperandList
        ensures same { result.now ≡ self.now.operands }
        ensures arity { arity_of self.now.op ≡ Some (length result.now) }
    {
        &self.operands
    }
}
