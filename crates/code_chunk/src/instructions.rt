//! Lists of instructions, and reading them.

ghost use Rattle.std.specs.Prelude.{◌≡◌, [], ◌∷◌, length, Some, Err, IfOk, IfErr, IfSome, IfNone};
ghost use Rattle.bk_codec.specs.Reading.{Gives, GivesAll, many_at};
ghost use Rattle.bk_base.specs.Place.{end_of};
ghost use Rattle.op_table.specs.Table.{arity_of, row_with, row_of};
ghost use Rattle.code_chunk.specs.Reading.{operand_in, instr_with, instrs_at};

use crate::refusal::CodeRefusal;
use bk_base::{Cursor, ItemList};
use compact_term::{Operand, OperandRefusal, read_operand};
use op_table::{Instr, OpRow, OperandList, op_row};
use std::alloc::Global;

/// Instructions in order.
pub type InstrList = ItemList<Instr>;

/// The row of the opcode that stands next, or none at the end. Behind it the cursor stands before the
/// operands.
///
/// It fails where a byte in the opcode's place is none.
pub fn read_opcode(cur: &mut Cursor<'_>) -> Result<Option<&'static OpRow>, CodeRefusal>
    ensures next { IfOk result (λ found. IfSome found (λ row. cur.old.rest ≡ row.now.op ∷ cur.new.rest)) }
    ensures row { IfOk result (λ found. IfSome found (λ row. row_with row.now.op ≡ Some (row_of row.now))) }
    ensures none { IfOk result (λ found. IfNone found (cur.old.rest ≡ [])) }
    ensures refused { IfErr result (λ e. instrs_at (end_of cur.old) (length cur.old.rest) cur.old.rest ≡ Err e) }
    ensures end { end_of cur.new ≡ end_of cur.old }
{
    let at = cur.at();
    let Some(op) = cur.byte() else {
        return Ok(None);
    };
    match op_row(op) {
        Some(row) => Ok(Some(row)),
        None => Err(CodeRefusal::Opcode { at, op }),
    }
}

/// The operand that stands next in an instruction. The cursor moves past just its bytes.
///
/// It fails where the bytes there spell no operand, which is said with its offset.
pub fn next_operand(alloc: Global, cur: &mut Cursor<'_>) -> Result<Operand, CodeRefusal>
    ensures read { Gives CodeRefusal.NoMemory (λ o. o) cur.new.rest result (operand_in (end_of cur.old) cur.old.rest) }
    ensures end { end_of cur.new ≡ end_of cur.old }
{
    match read_operand(alloc, cur) {
        Ok(operand) => Ok(operand),
        Err(OperandRefusal::NoMemory) => Err(CodeRefusal::NoMemory),
        Err(why) => Err(CodeRefusal::Operand { at: cur.at(), why }),
    }
}

fn operands(alloc: Global, cur: &mut Cursor<'_>, arity: u8) -> Result<OperandList, CodeRefusal>
    ensures read { Gives CodeRefusal.NoMemory (λ os. os) cur.new.rest result (many_at (operand_in (end_of cur.old)) arity cur.old.rest) }
    ensures end { end_of cur.new ≡ end_of cur.old }
{
    let mut list = OperandList::with_capacity(alloc, usize::from(arity))?;
    for _ in 0..arity {
        let operand = next_operand(alloc, cur)?;
        list.push(operand)?;
    }
    Ok(list)
}

// The instruction of an opcode that was read.
fn instruction(alloc: Global, cur: &mut Cursor<'_>, row: &OpRow) -> Result<Instr, CodeRefusal>
    requires { row_with row.now.op ≡ Some (row_of row.now) }
    ensures read { Gives CodeRefusal.NoMemory (λ i. i) cur.new.rest result (instr_with (end_of cur.old) row.now.op (arity_of row.now.op) cur.old.rest) }
    ensures end { end_of cur.new ≡ end_of cur.old }
{
    let operands = operands(alloc, cur, row.arity)?;
    Ok(Instr::new(row.op, operands))
}

/// The instructions up to the end.
pub(crate) fn instructions(alloc: Global, cur: &mut Cursor<'_>) -> Result<InstrList, CodeRefusal>
    ensures { GivesAll CodeRefusal.NoMemory (λ is. is) result (instrs_at (end_of cur.old) (length cur.old.rest) cur.old.rest) }
{
    let mut list = InstrList::new(alloc);
    'instrs: while let Some(row) = read_opcode(cur)? {
        let instr = instruction(alloc, cur, row)?;
        list.push(instr)?;
    }
    Ok(list)
}
