//! The output of a command.

ghost use Rattle.std.specs.Prelude.{◌≡◌};

use crate::status::Status;
use bk_base::Bytes;

/// The whole output of a command, before any of it is written.
#[derive(Debug, Drop)]
pub struct Output {
    /// What is written to the output.
    pub text: Bytes,
    /// Whether a check found something.
    pub found: bool,
}

impl Output {
    ghost use Rattle.beam_cli.specs.Answer.{status_when};

    /// The status that the program ends with where the output was written.
    pub fn status(&self) -> Status
        ensures { result ≡ status_when self.now.found }
    {
        if self.found {
            Status::Refused
        } else {
            Status::Done
        }
    }
}
