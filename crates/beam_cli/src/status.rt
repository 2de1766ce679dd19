//! How a call of the program ends.

ghost use Rattle.std.specs.Prelude.{◌≡◌};

/// How a call of the program ends.
#[derive(Clone, Copy, Debug, PartialEq, Eq)]
pub enum Status {
    /// The output was written.
    Done,
    /// The output was written, and says that a check found something.
    Refused,
    /// The words are not in the command grammar.
    Usage,
    /// A file is not in the grammar that the command needs.
    Grammar,
    /// A named file could not be read.
    ReadFault,
    /// The output could not be written.
    WriteFault,
    /// A file has more bytes than are taken.
    TooLarge,
    /// Memory ran out.
    NoMemory,
}

impl Status {
    ghost use Rattle.beam_cli.specs.ExitStatus.{code_of};

    /// The exit status of the process.
    pub fn code(self) -> u8
        ensures { result ≡ code_of self }
    {
        match self {
            Status::Done => 0,
            Status::Refused => 1,
            Status::Usage => 2,
            Status::Grammar => 3,
            Status::ReadFault => 4,
            Status::WriteFault => 5,
            Status::TooLarge => 6,
            Status::NoMemory => 7,
        }
    }
}
