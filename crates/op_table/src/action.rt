//! What an instruction needs and does, one thing at a time.

use bk_base::TagKind;
use compact_term::Reg;

/// Where a value is read.
#[derive(Clone, Copy, Debug, PartialEq, Eq)]
pub enum Src {
    /// In a register.
    Reg(Reg),
    /// In the instruction itself. It is always a term.
    Const,
}

/// One thing that an instruction needs or does.
#[derive(Clone, Copy, Debug, PartialEq, Eq)]
pub enum Action {
    /// A value is read, so it has to be a term.
    Read(Src),
    /// So many X registers from 0 up are read, each a term.
    Live(u32),
    /// Where there is a frame, each of its slots is set.
    FullY,
    /// So many X registers from 0 up keep their values, and the others and the reservation lose them.
    Keep(u32),
    /// So many words and so many funs are reserved on the heap.
    Room(u64, u64),
    /// So many reserved words are used.
    Take(u64),
    /// One reserved fun is used.
    TakeFun,
    /// A term is written into a register, which is no slot with a handler.
    Write(Reg),
    /// What is read here is written there.
    Copy(Src, Reg),
    /// Two registers exchange their values.
    Swap(Reg, Reg),
    /// A frame of so many slots, all unset, is made where there is none.
    NewFrame(u32),
    /// The frame, of so many slots and without handlers, is given up.
    DropFrame(u32),
    /// The first number of slots, without handlers, is given up, and the second number is left.
    Trim(u32, u32),
    /// There is a frame.
    InFrame,
    /// There is no frame.
    NoFrame,
    /// A handler is put into a slot below all other handlers: the slot, its label and its kind.
    Tag(u32, u32, TagKind),
    /// The lowest handler, of this kind, is taken out of this slot.
    Untag(u32, TagKind),
    /// What was caught becomes a term in X register 0, and all other X registers are lost.
    Caught,
    /// What was caught becomes three terms in X registers 0 to 2, and all others are lost.
    Landed,
}

impl Default for Action {
    ghost use Rattle.std.specs.Prelude.{◌≡◌};
    ghost use Rattle.op_table.specs.declared.action.Action.TheVariants.{FullY};

    ghost is_default = { λ a. a ≡ FullY };

    fn default() -> Action {
        Action::FullY
    }
}
