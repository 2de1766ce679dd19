//! Why an instruction is not accepted.

use compact_term::Reg;

/// Why an instruction is not accepted: the first fault of its opcode and operands, or else the first
/// of its needs that fails.
#[derive(Clone, Copy, Debug, PartialEq, Eq)]
pub enum Reason {
    /// The register has no term, or no value, where one is needed.
    Unset(Reg),
    /// The frame has no such slot.
    Slot(Reg),
    /// There is no frame.
    NoFrame,
    /// There is a frame.
    FrameOpen,
    /// The frame has another number of slots.
    FrameSize,
    /// The slot has a handler.
    OpenTag(Reg),
    /// Fewer words or funs are reserved than are taken.
    Heap,
    /// This slot or one below it has a handler already.
    Order(Reg),
    /// The lowest handler is not in this slot, or is of the other kind.
    Innermost(Reg),
    /// It isn't known whether there is a frame, or of which slots.
    Clash,
    /// The next instruction is not one of this function.
    Leave,
    /// The opcode is not validated.
    Unsupported,
    /// The operand, counted from 1, is not what its role says.
    Operand(u32),
    /// The operand, counted from 1, names what is not in its table.
    Index(u32),
    /// The operand, counted from 1, names a label that is not one of this function.
    Label(u32),
    /// The operand, counted from 1, names a label that is no entry label of a function with so many
    /// arguments.
    Target(u32),
}
