//! Forms of instructions.

ghost use Rattle.std.specs.Prelude.{◌≡◌};
ghost use Rattle.op_table.specs.Layouts.{layout_of, layout_from};

use crate::action::{Action, Src};
use crate::step::Number::{At, More};
use crate::step::Step::{
    self, Always, Copy, DropFrame, Keep, Live, NewFrame, ReadKeys, Reads, Room, Swap, Tag, Take,
    TakeMembers, Trim, Untag, Write, WriteValues,
};
use crate::step::{Layout, Way};
use bk_base::TagKind;
use compact_term::Reg;

/// What instructions do. Opcodes whose instructions do the same with operands at the same places
/// share a form.
#[derive(Clone, Copy, Debug)]
pub(crate) enum Form {
    Pass,
    ReadAll,
    Stop,
    FuncInfo,
    Call,
    CallLast,
    CallOnly,
    CallExt,
    NeverReturns,
    CallExtLast,
    CallExtOnly,
    CallFun,
    CallFun2,
    Apply,
    ApplyLast,
    Send,
    Return,
    Bif0,
    Bif1,
    Bif2,
    GcBif1,
    GcBif2,
    GcBif3,
    Allocate,
    AllocateHeap,
    TestHeap,
    Deallocate,
    Trim,
    InitYregs,
    Move,
    Swap,
    GetList,
    GetPart,
    GetTupleElement,
    PutList,
    PutTuple2,
    UpdateRecord,
    MakeFun3,
    PutMap,
    Test,
    GetMapElements,
    Select,
    Jump,
    Catch,
    Try,
    CatchEnd,
    TryEnd,
    TryCase,
    RawRaise,
    Build,
    BsCreateBin,
    LoopRec,
    LoopRecEnd,
    Wait,
    WaitTimeout,
    Reserve,
}

// Steps that no operand has a part in.
const READ_X0: Step = Always(Action::Read(Src::Reg(Reg::X(0))));

const LIVE_1: Step = Always(Action::Live(1));

const LIVE_2: Step = Always(Action::Live(2));

const LIVE_3: Step = Always(Action::Live(3));

const FULL_Y: Step = Always(Action::FullY);

const KEEP_NONE: Step = Always(Action::Keep(0));

const TAKE_2: Step = Always(Action::Take(2));

const TAKE_FUN: Step = Always(Action::TakeFun);

const WRITE_X0: Step = Always(Action::Write(Reg::X(0)));

const IN_FRAME: Step = Always(Action::InFrame);

const NO_FRAME: Step = Always(Action::NoFrame);

const CAUGHT: Step = Always(Action::Caught);

const LANDED: Step = Always(Action::Landed);

// What a call leaves behind.
const CALL_RESULT: &[Step] = &[KEEP_NONE, WRITE_X0];

impl Form {
    /// How the plans of this form come from operands.
    #[rattlefmt::skip]
    pub(crate) fn layout(self) -> Layout
        ensures { layout_from result ≡ layout_of self }
    {
        match self {
            Form::Pass => Layout { before: &[], fails: None, raises: false, after: &[], exit: Way::Next },
            Form::ReadAll => Layout { before: &[Reads], fails: None, raises: false, after: &[], exit: Way::Next },
            Form::Stop => Layout { before: &[Reads], fails: None, raises: false, after: &[], exit: Way::End },
            Form::FuncInfo => Layout { before: &[Live(At(3))], fails: None, raises: false, after: &[], exit: Way::End },
            Form::Call => Layout { before: &[Live(At(1)), IN_FRAME, FULL_Y], fails: None, raises: false, after: CALL_RESULT, exit: Way::Enter(2) },
            Form::CallLast => Layout { before: &[Live(At(1)), DropFrame(3)], fails: None, raises: false, after: &[], exit: Way::TailLocal(2) },
            Form::CallOnly => Layout { before: &[Live(At(1)), NO_FRAME], fails: None, raises: false, after: &[], exit: Way::TailLocal(2) },
            Form::CallExt => Layout { before: &[Live(At(1)), IN_FRAME, FULL_Y], fails: None, raises: true, after: CALL_RESULT, exit: Way::Next },
            Form::NeverReturns => Layout { before: &[Live(At(1)), FULL_Y], fails: None, raises: false, after: &[], exit: Way::End },
            Form::CallExtLast => Layout { before: &[Live(At(1)), DropFrame(3)], fails: None, raises: false, after: &[], exit: Way::TailExt },
            Form::CallExtOnly => Layout { before: &[Live(At(1)), NO_FRAME], fails: None, raises: false, after: &[], exit: Way::TailExt },
            Form::CallFun => Layout { before: &[Live(More(1, 1)), IN_FRAME, FULL_Y], fails: None, raises: true, after: CALL_RESULT, exit: Way::Next },
            Form::CallFun2 => Layout { before: &[Live(At(2)), Reads, IN_FRAME, FULL_Y], fails: None, raises: true, after: CALL_RESULT, exit: Way::Next },
            Form::Apply => Layout { before: &[Live(More(1, 2)), IN_FRAME, FULL_Y], fails: None, raises: true, after: CALL_RESULT, exit: Way::Next },
            Form::ApplyLast => Layout { before: &[Live(More(1, 2)), DropFrame(2)], fails: None, raises: false, after: &[], exit: Way::TailExt },
            Form::Send => Layout { before: &[LIVE_2, IN_FRAME, FULL_Y], fails: None, raises: true, after: CALL_RESULT, exit: Way::Next },
            Form::Return => Layout { before: &[NO_FRAME, READ_X0], fails: None, raises: false, after: &[], exit: Way::Return },
            Form::Bif0 => Layout { before: &[], fails: None, raises: false, after: &[Write(2)], exit: Way::Next },
            Form::Bif1 => Layout { before: &[Reads], fails: Some(1), raises: false, after: &[Write(4)], exit: Way::Next },
            Form::Bif2 => Layout { before: &[Reads], fails: Some(1), raises: false, after: &[Write(5)], exit: Way::Next },
            Form::GcBif1 => Layout { before: &[Live(At(2)), FULL_Y, Reads, Keep(At(2))], fails: Some(1), raises: false, after: &[Write(5)], exit: Way::Next },
            Form::GcBif2 => Layout { before: &[Live(At(2)), FULL_Y, Reads, Keep(At(2))], fails: Some(1), raises: false, after: &[Write(6)], exit: Way::Next },
            Form::GcBif3 => Layout { before: &[Live(At(2)), FULL_Y, Reads, Keep(At(2))], fails: Some(1), raises: false, after: &[Write(7)], exit: Way::Next },
            Form::Allocate => Layout { before: &[Live(At(2)), NewFrame(1), Keep(At(2))], fails: None, raises: false, after: &[], exit: Way::Next },
            Form::AllocateHeap => Layout { before: &[Live(At(3)), NewFrame(1), Keep(At(3)), Room(2)], fails: None, raises: false, after: &[], exit: Way::Next },
            Form::TestHeap => Layout { before: &[Live(At(2)), FULL_Y, Keep(At(2)), Room(1)], fails: None, raises: false, after: &[], exit: Way::Next },
            Form::Deallocate => Layout { before: &[DropFrame(1)], fails: None, raises: false, after: &[], exit: Way::Next },
            Form::Trim => Layout { before: &[Trim(1, 2)], fails: None, raises: false, after: &[], exit: Way::Next },
            Form::InitYregs => Layout { before: &[Write(1)], fails: None, raises: false, after: &[], exit: Way::Next },
            Form::Move => Layout { before: &[Copy(1, 2)], fails: None, raises: false, after: &[], exit: Way::Next },
            Form::Swap => Layout { before: &[Swap(1, 2)], fails: None, raises: false, after: &[], exit: Way::Next },
            Form::GetList => Layout { before: &[Reads], fails: None, raises: false, after: &[Write(2), Write(3)], exit: Way::Next },
            Form::GetPart => Layout { before: &[Reads], fails: None, raises: false, after: &[Write(2)], exit: Way::Next },
            Form::GetTupleElement => Layout { before: &[Reads], fails: None, raises: false, after: &[Write(3)], exit: Way::Next },
            Form::PutList => Layout { before: &[Reads, TAKE_2], fails: None, raises: false, after: &[Write(3)], exit: Way::Next },
            Form::PutTuple2 => Layout { before: &[Reads, TakeMembers(2)], fails: None, raises: false, after: &[Write(1)], exit: Way::Next },
            Form::UpdateRecord => Layout { before: &[Reads, Take(More(2, 1))], fails: None, raises: false, after: &[Write(4)], exit: Way::Next },
            Form::MakeFun3 => Layout { before: &[Reads, TAKE_FUN], fails: None, raises: false, after: &[Write(2)], exit: Way::Next },
            Form::PutMap => Layout { before: &[Live(At(4)), FULL_Y, Reads, Keep(At(4))], fails: Some(1), raises: false, after: &[Write(3)], exit: Way::Next },
            Form::Test => Layout { before: &[Reads], fails: Some(1), raises: false, after: &[], exit: Way::Next },
            Form::GetMapElements => Layout { before: &[Reads, ReadKeys(3)], fails: Some(1), raises: false, after: &[WriteValues(3)], exit: Way::Next },
            Form::Select => Layout { before: &[Reads], fails: Some(2), raises: false, after: &[], exit: Way::Labels(3) },
            Form::Jump => Layout { before: &[], fails: None, raises: false, after: &[], exit: Way::Labels(1) },
            Form::Catch => Layout { before: &[Tag(1, 2, TagKind::Catch)], fails: None, raises: false, after: &[], exit: Way::Next },
            Form::Try => Layout { before: &[Tag(1, 2, TagKind::Try)], fails: None, raises: false, after: &[], exit: Way::Next },
            Form::CatchEnd => Layout { before: &[Untag(1, TagKind::Catch), CAUGHT], fails: None, raises: false, after: &[], exit: Way::Next },
            Form::TryEnd => Layout { before: &[Untag(1, TagKind::Try)], fails: None, raises: false, after: &[], exit: Way::Next },
            Form::TryCase => Layout { before: &[Untag(1, TagKind::Try), LANDED], fails: None, raises: false, after: &[], exit: Way::Next },
            Form::RawRaise => Layout { before: &[LIVE_3, FULL_Y], fails: None, raises: true, after: CALL_RESULT, exit: Way::Next },
            Form::Build => Layout { before: &[LIVE_1, FULL_Y], fails: None, raises: false, after: CALL_RESULT, exit: Way::Next },
            Form::BsCreateBin => Layout { before: &[Live(At(3)), FULL_Y, Reads, Keep(At(3))], fails: Some(1), raises: false, after: &[Room(2), Write(5)], exit: Way::Next },
            Form::LoopRec => Layout { before: &[KEEP_NONE], fails: Some(1), raises: false, after: &[Write(2)], exit: Way::Next },
            Form::LoopRecEnd => Layout { before: &[KEEP_NONE], fails: None, raises: false, after: &[], exit: Way::Labels(1) },
            Form::Wait => Layout { before: &[FULL_Y, KEEP_NONE], fails: None, raises: false, after: &[], exit: Way::Labels(1) },
            Form::WaitTimeout => Layout { before: &[Reads, FULL_Y, KEEP_NONE], fails: Some(1), raises: true, after: &[], exit: Way::Next },
            Form::Reserve => Layout { before: &[], fails: None, raises: false, after: &[Write(1)], exit: Way::Next },
        }
    }
}
