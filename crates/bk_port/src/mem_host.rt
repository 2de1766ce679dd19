//! A host whose files are in memory.

ghost use Rattle.std.specs.Prelude.{ℕ, ◌≡◌, ◌+◌, ◌^◌, ◌<◌, List, length, Some, IsTrue};
ghost use Rattle.bk_port.specs.Listed.{bytes_held, rest_at};

use crate::file_list::FileList;
use crate::host::{Failed, Host};
use bk_base::Text;
use std::marker::Model;

/// A host over a list of files, of which the first of a name counts. A name that is not listed holds
/// no bytes, so no call fails.
///
/// Contracts see the files, whether one is started, its place in the list, if it is listed, and how
/// many of its bytes were read.
#[derive(Debug, Drop)]
pub struct MemHost {
    files: FileList,
    is_started: bool,
    // The place of the started file in the list, if it is listed.
    place: Option<usize>,
    at: usize,
}

impl Model for MemHost {
    ghost use Rattle.std.specs.Prelude.{◌≤◌, length};
    ghost use Rattle.bk_port.specs.Listed.{bytes_at};
    ghost use Rattle.bk_port.specs.Store.{MemFiles};

    ghost Value = { MemFiles };

    ghost view = { λ h. record { files = h.files; is_started = h.is_started; place = h.place; at = h.at } };

    ghost invariant = { λ h. h.at ≤ length (bytes_at h.files h.place) };
}

impl MemHost {
    /// A host of these files, of which none is started. It takes no memory.
    pub fn new(files: FileList) -> MemHost
        ensures holds { (n : List ℕ) → ⟦<MemHost as Host>⟧.holds result n ≡ Some (bytes_held files n) }
        ensures count { ⟦<MemHost as Host>⟧.count result ≡ 0 }
        ensures is_started { (n : List ℕ) → ¬ ⟦<MemHost as Host>⟧.is_started result n }
    {
        MemHost {
            files,
            is_started: false,
            place: None,
            at: 0,
        }
    }

    // What is left of the started file.
    fn rest(&self) -> &[u8]
        ensures fits { self.now.at + length result.now < 2 ^ 64 }
        ensures rest { result.now ≡ rest_at self.now.files self.now.place self.now.at }
    {
        &self.files.bytes(self.place)[self.at..]
    }
}

impl Host for MemHost {
    ghost holds = { λ h n. Some (bytes_held h.files n) };

    ghost left = { λ h. Some (rest_at h.files h.place h.at) };

    ghost count = { λ h. h.at };

    ghost is_started = { λ h _. IsTrue h.is_started };

    ghost faults = { λ _ _. 0 };

    fn start(&mut self, name: &Text) -> Result<(), Failed> {
        self.place = self.files.position(name);
        self.at = 0;
        self.is_started = true;
        Ok(())
    }

    fn read(&mut self, _name: &Text, buf: &mut [u8]) -> Result<usize, Failed> {
        let rest = self.rest();
        let count = rest.len().min(buf.len());
        buf[..count].copy_from_slice(&rest[..count]);
        self.at += count;
        Ok(count)
    }
}
