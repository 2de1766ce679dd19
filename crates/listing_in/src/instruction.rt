//! Reading an instruction.

ghost use Rattle.bk_codec.specs.Reading.{GivesAll, refused_as};
ghost use Rattle.bk_parse.specs.Answer.{Answers};
ghost use Rattle.bk_parse.specs.Parts.{all_of};
ghost use Rattle.operand_text.specs.Reading.{operand_of};
ghost use Rattle.listing_in.specs.Instruction.{instruction_of};

use crate::refusal::ListingWhy;
use crate::stop::{LineStop, stop_for};
use bk_parse::{Parts, TextRefusal};
use op_table::{Instr, OperandList, op_by_name};
use operand_text::read_operand_text;
use std::alloc::Global;

/// The instruction that stands behind two spaces: its name, and its operands behind a space each.
pub(crate) fn instruction_of(alloc: Global, text: &[u8]) -> Result<Instr, LineStop>
    ensures { GivesAll LineStop.NoMemory (λ i. i) result (refused_as LineStop.Wrong (instruction_of text.now)) }
{
    let mut parts = Parts::new(text, b' ');
    let Some(name) = parts.next() else {
        return Err(LineStop::Wrong(ListingWhy::Op));
    };
    let Some(row) = op_by_name(name) else {
        return Err(LineStop::Wrong(ListingWhy::Op));
    };
    let operands = match operands_of(alloc, parts) {
        Ok(operands) => operands,
        Err(refusal) => return Err(stop_for(ListingWhy::Operands, refusal)),
    };
    if operands.len() != usize::from(row.arity) {
        return Err(LineStop::Wrong(ListingWhy::Operands));
    }
    Ok(Instr::new(row.op, operands))
}

fn operands_of(alloc: Global, mut texts: Parts<'_>) -> Result<OperandList, TextRefusal>
    ensures { Answers (λ os. os) result (all_of operand_of texts.entry) }
{
    let mut operands = OperandList::new(alloc);
    'texts: while let Some(text) = texts.next() {
        operands.push(read_operand_text(alloc, text)?)?;
    }
    Ok(operands)
}
