//! How the plans of an opcode's instructions come from their operands.

use crate::action::Action;
use bk_base::TagKind;

/// A number that comes from an operand. Operands are counted from 1.
#[derive(Clone, Copy, Debug)]
pub enum Number {
    /// The number that the operand is.
    At(u8),
    /// More than that, by so many.
    More(u8, u32),
}

/// Actions that come from operands, which are counted from 1.
#[derive(Clone, Copy, Debug)]
pub enum Step {
    /// This action, whatever the operands are.
    Always(Action),
    /// A read of each operand that is a source, and of each register in a list of sources.
    Reads,
    /// A read of each first member of the pairs in the operand's list.
    ReadKeys(u8),
    /// `Live` of the number.
    Live(Number),
    /// `Keep` of the number.
    Keep(Number),
    /// `Room` of the heap need that the operand is.
    Room(u8),
    /// `Take` of the number.
    Take(Number),
    /// `Take` of one more than the operand's list has members.
    TakeMembers(u8),
    /// A write of the operand's register, or of each register in its list.
    Write(u8),
    /// A write of each second member of the pairs in the operand's list.
    WriteValues(u8),
    /// `Copy` of the first operand to the second.
    Copy(u8, u8),
    /// `Swap` of both operands.
    Swap(u8, u8),
    /// `NewFrame` of the operand.
    NewFrame(u8),
    /// `DropFrame` of the operand.
    DropFrame(u8),
    /// `Trim` of both operands.
    Trim(u8, u8),
    /// `Tag` of the slot and the label that the operands are.
    Tag(u8, u8, TagKind),
    /// `Untag` of the slot that the operand is.
    Untag(u8, TagKind),
}

/// How the place where an instruction goes on comes from its operands, which are counted from 1.
#[derive(Clone, Copy, Debug)]
pub enum Way {
    /// The next instruction.
    Next,
    /// The operand's label, or each second member of the pairs in its list.
    Labels(u8),
    /// `Enter` of the operand's label.
    Enter(u8),
    /// `TailLocal` of the operand's label.
    TailLocal(u8),
    /// A function that is not of this module.
    TailExt,
    /// What called this function.
    Return,
    /// Nowhere.
    End,
}

/// How a plan comes from operands.
#[derive(Clone, Copy, Debug)]
pub struct Layout {
    /// The actions that come first.
    pub before: &'static [Step],
    /// The operand with the label where it goes on if it fails. Label 0 there means that it raises.
    pub fails: Option<u8>,
    /// Whether it may raise whatever its operands are.
    pub raises: bool,
    /// The actions that come next.
    pub after: &'static [Step],
    /// Where it goes on.
    pub exit: Way,
}
