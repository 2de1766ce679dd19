//! A host over the files of the system.

ghost use Rattle.std.specs.Prelude.{ℕ, ◌≡◌, ◌≢◌, ◌≤◌, List, None, codes, IsOk, IfOk, OnOk, OnErr};
ghost use Rattle.std.specs.Io.KnownBytes.{ReadConsumes};
ghost use Rattle.bk_port.specs.Causes.{HasCause};
ghost use Rattle.bk_port.specs.Reading.{Reads, counted};
ghost use Rattle.bk_port.specs.System.{ReadsFile, IsOpen, left_of};

use crate::host::{Failed, Host};
use bk_base::Text;
use std::fs;
use std::io::Read;
use std::marker::Model;
use std::rt::Files;

// What is read from.
#[derive(Drop)]
enum Source<F> {
    Nothing,
    Input,
    File(F),
}

/// A host over the files of the system, and a reader, as standard input, under the name `-`. It
/// tells nothing of what they hold.
///
/// It keeps at most one file open, and counts each error, for all names together.
///
/// Contracts see the reader, what is started, how many bytes were read since the last start that
/// answered Ok, and how often a call failed.
#[derive(Drop)]
pub struct FileHost<R: Files, I: Read + Drop> {
    files: R,
    input: I,
    source: Source<R::File>,
    count: u64,
    faults: u64,
}

impl<R: Files, I: Read + Drop> Model for FileHost<R, I> {
    ghost use Rattle.bk_port.specs.System.{StdFiles};

    ghost Value = { StdFiles R.File I };

    ghost view = { λ h. record { input = h.input; source = h.source; count = h.count; faults = h.faults } };
}

impl<R: Files, I: Read + Drop> FileHost<R, I> {
    /// A host over these files and this reader, of which none is started.
    pub fn new(files: R, input: I) -> FileHost<R, I>
        ensures new { result ≡ record { input = input; source = Source.Nothing; count = 0; faults = 0 } }
        ensures is_started { (n : List ℕ) → ¬ ⟦<FileHost<R, I> as Host>⟧.is_started result n }
    {
        FileHost {
            files,
            input,
            source: Source::Nothing,
            count: 0,
            faults: 0,
        }
    }

    // Counts an error.
    fn failed(&mut self) -> Failed
        ensures counted { self.new ≡ record self.old { faults = counted self.old.faults 1 } }
        ensures later { self.old.faults ≤ self.new.faults }
    {
        self.faults = self.faults.saturating_add(1);
        Failed
    }
}

impl<R: Files, I: Read + Drop> Host for FileHost<R, I> {
    ghost holds = { λ _ _. None };

    ghost left = { λ _. None };

    ghost count = { λ h. h.count };

    ghost is_started = { λ h _. IsOpen h.source };

    ghost faults = { λ h _. h.faults };

    /// Makes the named file the one that is read, or standard input under the name `-`, which is
    /// always there. What was started is closed first, so nothing is started where it fails. It
    /// counts each call that fails.
    fn start(&mut self, name: &Text) -> Result<(), Failed>
        ensures started { OnOk result (IsOpen self.new.source) }
        ensures stdin { name.now ≡ codes "-" → IsOk result × (self.new.source ≡ Source.Input) }
        ensures file { name.now ≢ codes "-" → OnOk result (ReadsFile self.new.source) }
        ensures closed { OnErr result (self.new.source ≡ Source.Nothing) }
        ensures input { self.new.input ≡ self.old.input }
        ensures count { OnOk result (self.new.count ≡ 0) }
        ensures err_count { OnErr result (self.new.count ≡ self.old.count) }
        ensures cause { HasCause self.old.faults self.new.faults result }
        ensures faults { OnOk result (self.new.faults ≡ self.old.faults) }
        ensures err_faults { OnErr result (self.new.faults ≡ counted self.old.faults 1) }
    {
        self.source = Source::Nothing;
        if name.as_str() == "-" {
            self.source = Source::Input;
        } else {
            match fs::open(&self.files, name.as_str()) {
                Ok(file) => self.source = Source::File(file),
                Err(_) => return Err(self.failed()),
            }
        }
        self.count = 0;
        Ok(())
    }

    /// Passes the next bytes of what is started on, as its reader gives them. It counts each call
    /// that fails.
    fn read(&mut self, _name: &Text, buf: &mut [u8]) -> Result<usize, Failed>
        requires { IsOpen self.old.source }
        ensures started { OnOk result (IsOpen self.new.source) }
        ensures read { IfOk result (Reads None None self.old.count self.new.count buf.new) }
        ensures passed { ReadConsumes
            (left_of I.remaining R.File.remaining self.old.input self.old.source)
            (left_of I.remaining R.File.remaining self.new.input self.new.source) result buf.new }
        ensures stdin { self.old.source ≡ Source.Input → self.new.source ≡ Source.Input }
        ensures file { ReadsFile self.old.source → ReadsFile self.new.source }
        ensures input { ReadsFile self.old.source → self.new.input ≡ self.old.input }
        ensures err_count { OnErr result (self.new.count ≡ self.old.count) }
        ensures cause { HasCause self.old.faults self.new.faults result }
        ensures faults { IfOk result (λ _. self.new.faults ≡ self.old.faults) }
        ensures err_faults { OnErr result (self.new.faults ≡ counted self.old.faults 1) }
    {
        let outcome = match &mut self.source {
            Source::Nothing => unreachable!(),
            Source::Input => self.input.read(buf),
            Source::File(file) => file.read(buf),
        };
        match outcome {
            Ok(count) => {
                self.count = self.count.saturating_add(count as u64);
                Ok(count)
            }
            Err(_) => Err(self.failed()),
        }
    }
}
