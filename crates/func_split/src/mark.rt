//! What an instruction is to the split of code into functions.

ghost use Rattle.std.specs.Prelude.{◌≡◌};
ghost use Rattle.func_split.specs.Marks.{head_of, label_of, mark_of};

use compact_term::{Operand, Plain};
use op_table::Instr;

const LABEL: u8 = 1;

const FUNC_INFO: u8 = 2;

const INT_CODE_END: u8 = 3;

const LINE: u8 = 153;

/// What an instruction is to the split. A `label` or a `func_info` with other operands than it has to
/// have is one without a number or a head.
#[derive(Clone, Copy, Debug, PartialEq, Eq)]
pub enum Mark {
    /// A `label`, with its number.
    Label(Option<u32>),
    /// A `line`.
    Line,
    /// A `func_info`, with the atom of the name and the arity.
    Func(Option<(u32, u8)>),
    /// An `int_code_end`.
    Close,
    /// Any other instruction.
    Other,
}

fn label_in(operands: &[Operand]) -> Option<u32>
    ensures { result ≡ label_of operands.now }
{
    match operands {
        [Operand::One(Plain::U(number))] => u32::try_from(*number).ok(),
        _ => None,
    }
}

fn head_in(operands: &[Operand]) -> Option<(u32, u8)>
    ensures { result ≡ head_of operands.now }
{
    match operands {
        [
            Operand::One(Plain::A(_)),
            Operand::One(Plain::A(name)),
            Operand::One(Plain::U(arity)),
        ] => Some((*name, u8::try_from(*arity).ok()?)),
        _ => None,
    }
}

impl Mark {
    /// What this instruction is.
    pub fn of(instr: &Instr) -> Mark
        ensures { result ≡ mark_of instr.now }
    {
        let operands = instr.operands().as_slice();
        match instr.op() {
            LABEL => Mark::Label(label_in(operands)),
            FUNC_INFO => Mark::Func(head_in(operands)),
            INT_CODE_END => Mark::Close,
            LINE => Mark::Line,
            _ => Mark::Other,
        }
    }
}
