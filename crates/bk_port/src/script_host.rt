//! A host in memory that fails at given calls.

ghost use Rattle.std.specs.Prelude.{ℕ, ◌≡◌, ◌+◌, ◌^◌, ◌<◌, ◌≤◌, ◌↔◌, ◌⊎◌, min, List, length, None, Some, IsSome, IsErr, IfOk, OnOk, OnErr};
ghost use Rattle.std.specs.List.{Contains};
ghost use Rattle.bk_port.specs.Causes.{HasCause};
ghost use Rattle.bk_port.specs.Listed.{bytes_held, bytes_at};
ghost use Rattle.bk_port.specs.Reading.{Reads, counted};
ghost use Rattle.bk_port.specs.Script.{CallFails, SameScript, rest_of};

use crate::file_list::FileList;
use crate::host::{Failed, Host};
use bk_base::{ItemList, Text};
use std::marker::Model;

/// Numbers in order, such as those of the calls that fail.
pub type NumberList = ItemList<u64>;

// Which calls fail, how many there were, and how many failed.
#[derive(Debug, Drop)]
struct Script {
    fails: NumberList,
    calls: u64,
    failed: u64,
}

impl Script {
    // Counts a call on the file at this place. It fails, and that is counted too, where the script
    // lists it or there is no file.
    fn call(&mut self, place: Option<usize>) -> Result<usize, Failed>
        ensures ok { IfOk result (λ p. place ≡ Some p) }
        ensures fails { IsErr result ↔ (Contains self.old.fails self.new.calls ⊎ (place ≡ None)) }
        ensures calls { self.new.calls ≡ counted self.old.calls 1 }
        ensures failed { IfOk result (λ _. self.new.failed ≡ self.old.failed) }
        ensures err_failed { OnErr result (self.new.failed ≡ counted self.old.failed 1) }
        ensures cause { HasCause self.old.failed self.new.failed result }
        ensures same { self.new.fails ≡ self.old.fails }
    {
        self.calls = self.calls.saturating_add(1);
        if !self.fails.as_slice().contains(&self.calls)
            && let Some(place) = place
        {
            return Ok(place);
        }
        self.failed = self.failed.saturating_add(1);
        Err(Failed)
    }
}

/// A host over a list of files, of which the first of a name counts. It gives at most so many bytes
/// a read, and fails at the calls of given numbers, counted from 1 over starts and reads together.
/// Each call on a name that is not listed fails as well.
///
/// Contracts see the files, the numbers of the calls that fail, the most bytes that one read gives,
/// the place of the started file, how many of its bytes were read, how many calls there were, and
/// how many failed, for all names together.
#[derive(Debug, Drop)]
pub struct ScriptHost {
    files: FileList,
    script: Script,
    piece: usize,
    // The place of the started file in the list.
    place: Option<usize>,
    at: usize,
}

impl Model for ScriptHost {
    ghost use Rattle.std.specs.Prelude.{◌≤◌, length};
    ghost use Rattle.bk_port.specs.Listed.{bytes_at};
    ghost use Rattle.bk_port.specs.Script.{ScriptFiles};

    ghost Value = { ScriptFiles };

    ghost view = { λ h. record { files = h.files; fails = h.script.fails; piece = h.piece; place = h.place; at = h.at; calls = h.script.calls; faults = h.script.failed } };

    ghost invariant = { λ h. (1 ≤ h.piece) × (h.at ≤ length (bytes_at h.files h.place)) };
}

impl ScriptHost {
    /// A host of these files, of which none is started, that gives at most `piece` bytes a read and
    /// fails at the calls of the numbers `fails`. It takes no memory.
    pub fn new(files: FileList, piece: usize, fails: NumberList) -> ScriptHost
        requires { 1 ≤ piece }
        ensures new { result ≡ record { files = files; fails = fails; piece = piece; place = None; at = 0; calls = 0; faults = 0 } }
        ensures holds { (n : List ℕ) → ⟦<ScriptHost as Host>⟧.holds result n ≡ Some (bytes_held files n) }
        ensures count { ⟦<ScriptHost as Host>⟧.count result ≡ 0 }
        ensures is_started { (n : List ℕ) → ¬ ⟦<ScriptHost as Host>⟧.is_started result n }
    {
        ScriptHost {
            files,
            script: Script {
                fails,
                calls: 0,
                failed: 0,
            },
            piece,
            place: None,
            at: 0,
        }
    }

    // What is left of the started file.
    fn rest(&self) -> &[u8]
        ensures fits { self.now.at + length result.now < 2 ^ 64 }
        ensures rest { result.now ≡ rest_of self.now }
    {
        &self.files.bytes(self.place)[self.at..]
    }
}

impl Host for ScriptHost {
    ghost holds = { λ h n. Some (bytes_held h.files n) };

    ghost left = { λ h. Some (rest_of h) };

    ghost count = { λ h. h.at };

    ghost is_started = { λ h _. IsSome h.place };

    ghost faults = { λ h _. h.faults };

    /// Starts the named file. It fails exactly where no file has the name or the script lists this
    /// call. It counts each call, and each that fails.
    fn start(&mut self, name: &Text) -> Result<(), Failed>
        ensures same { SameScript self.old self.new }
        ensures started { OnOk result (IsSome self.new.place) }
        ensures file { OnOk result (bytes_at self.new.files self.new.place ≡ bytes_held self.old.files name.now) }
        ensures at { OnOk result (self.new.at ≡ 0) }
        ensures err_place { OnErr result (self.new.place ≡ self.old.place) }
        ensures err_at { OnErr result (self.new.at ≡ self.old.at) }
        ensures cause { HasCause self.old.faults self.new.faults result }
        ensures calls { self.new.calls ≡ counted self.old.calls 1 }
        ensures fails { IsErr result ↔ CallFails self.old self.new.calls name.now }
        ensures faults { OnOk result (self.new.faults ≡ self.old.faults) }
        ensures err_faults { OnErr result (self.new.faults ≡ counted self.old.faults 1) }
    {
        self.place = Some(self.script.call(self.files.position(name))?);
        self.at = 0;
        Ok(())
    }

    /// Gives as many of the next bytes of the started file as `buf` has room for, and at most one
    /// piece. It fails exactly where no file has the name or the script lists this call. It counts
    /// each call, and each that fails.
    fn read(&mut self, name: &Text, buf: &mut [u8]) -> Result<usize, Failed>
        requires { IsSome self.old.place }
        ensures same { SameScript self.old self.new }
        ensures place { self.new.place ≡ self.old.place }
        ensures read { IfOk result (Reads (Some (rest_of self.old)) (Some (rest_of self.new)) self.old.at self.new.at buf.new) }
        ensures taken { IfOk result (λ n. n ≡ min (min (length (rest_of self.old)) (length buf.old)) self.old.piece) }
        ensures err_at { OnErr result (self.new.at ≡ self.old.at) }
        ensures cause { HasCause self.old.faults self.new.faults result }
        ensures calls { self.new.calls ≡ counted self.old.calls 1 }
        ensures fails { IsErr result ↔ CallFails self.old self.new.calls name.now }
        ensures faults { IfOk result (λ _. self.new.faults ≡ self.old.faults) }
        ensures err_faults { OnErr result (self.new.faults ≡ counted self.old.faults 1) }
    {
        self.script.call(self.files.position(name))?;
        let rest = self.rest();
        let count = rest.len().min(buf.len()).min(self.piece);
        buf[..count].copy_from_slice(&rest[..count]);
        self.at += count;
        Ok(count)
    }
}
