//! Plans of instructions: what they need and do, and where they go on.

ghost use Rattle.std.specs.Prelude.{◌≡◌};
ghost use Rattle.op_table.specs.declared.plans.PlanRefusal.TheVariants as refusals;

use crate::action::Action;
use crate::short_list::ShortList;
use bk_base::NoMemory;
use thiserror::Error;

/// Actions in order. Up to six stand in the value itself, which is enough for each instruction without
/// a list.
pub type ActionList = ShortList<Action, 6>;

/// Labels in order. Up to two stand in the value itself.
pub type LabelList = ShortList<u32, 2>;

/// Where an instruction goes on when it has done all.
#[derive(Debug, Drop)]
pub enum Exit {
    /// At the next instruction.
    Next,
    /// At one of these labels.
    Labels(LabelList),
    /// At the function with this entry label, and when that returns at the next instruction.
    Enter(u32),
    /// At the function with this entry label, in place of this one.
    TailLocal(u32),
    /// At a function of another module or a built-in one, in place of this one.
    TailExt,
    /// At the instruction after the call of this function.
    Return,
    /// Nowhere: it raises.
    End,
}

/// What an instruction needs and does.
#[derive(Debug, Drop)]
pub struct Plan {
    /// What comes first.
    pub before: ActionList,
    /// Where it may go on then, if it fails.
    pub fails: LabelList,
    /// Whether it may raise then.
    pub raises: bool,
    /// What comes next, where it neither fails nor raises.
    pub after: ActionList,
    /// Where it goes on then.
    pub exit: Exit,
}

/// Why an instruction has no plan.
#[derive(Clone, Copy, Debug, PartialEq, Eq, Error)]
pub enum PlanRefusal {
    /// Nothing is known of the opcode.
    #[error("unsupported opcode {op}")]
    Unsupported { op: u8 },
    /// This operand, the first of those, does not look as the opcode asks. The first has number 1.
    #[error("wrong operand {operand}")]
    Shape { operand: u32 },
    /// No memory was found.
    #[error("out of memory")]
    NoMemory,
}

impl From<NoMemory> for PlanRefusal {
    ghost from_gives = { λ _ e. e ≡ refusals.NoMemory };

    fn from(_e: NoMemory) -> PlanRefusal {
        PlanRefusal::NoMemory
    }
}
