//! Why a command stopped before its output was made.

ghost use Rattle.std.specs.Prelude.{◌≡◌};
ghost use Rattle.beam_cli.specs.declared.stop.Stop.TheVariants as stops;

use crate::refusal::Refusal;
use crate::status::Status;
use bk_base::{NoMemory, Text};
use std::alloc::AllocFailed;

/// Why a command stopped before its output was made, with the name of the file.
#[derive(Clone, Copy, Debug)]
pub enum Stop<'a> {
    /// The file is not in the grammar that the command needs.
    Grammar(&'a Text, Refusal),
    /// The file could not be read.
    ReadFault(&'a Text),
    /// The file has more bytes than are taken.
    TooLarge(&'a Text),
    /// Memory ran out.
    NoMemory,
}

impl<'a> Stop<'a> {
    ghost use Rattle.beam_cli.specs.Made.{IsStopFor};
    ghost use Rattle.beam_cli.specs.Reasons.{IsRefusal};
    ghost use Rattle.beam_cli.specs.Stopping.{status_of};

    /// What stops a command on the file with this name for a refusal.
    pub fn of_file(name: &'a Text, refusal: Refusal) -> Stop<'a>
        requires { IsRefusal refusal }
        ensures { IsStopFor name.entry refusal result }
    {
        match refusal {
            Refusal::NoMemory => Stop::NoMemory,
            refusal => Stop::Grammar(name, refusal),
        }
    }

    /// The status that the program ends with.
    pub fn status(self) -> Status
        ensures { result ≡ status_of self.entry }
    {
        match self {
            Stop::Grammar(..) => Status::Grammar,
            Stop::ReadFault(_) => Status::ReadFault,
            Stop::TooLarge(_) => Status::TooLarge,
            Stop::NoMemory => Status::NoMemory,
        }
    }
}

impl<'a> From<NoMemory> for Stop<'a> {
    ghost from_gives = { λ _ stop. stop ≡ stops.NoMemory };

    fn from(_e: NoMemory) -> Stop<'a> {
        Stop::NoMemory
    }
}

impl<'a, T: Drop> From<AllocFailed<T>> for Stop<'a> {
    ghost from_gives = { λ _ stop. stop ≡ stops.NoMemory };

    fn from(_e: AllocFailed<T>) -> Stop<'a> {
        Stop::NoMemory
    }
}
