//! Files in memory.

ghost use Rattle.bk_port.specs.Listed.{bytes_held, bytes_at, is_listed};
ghost use Rattle.std.specs.Option.{is_some};
ghost use Rattle.std.specs.Prelude.{◌≡◌, ◌↔◌, [], ◌∷◌, ◌++◌, length, slice_get, IsTrue, OnOk, OnErr, option_copied};

use bk_base::{ByteList, Bytes, ItemList, NoMemory, Text};
use std::alloc::Global;
use std::marker::Model;

/// Named files in order, which contracts see as the list of the names' and the files' bytes.
#[derive(Debug, Drop)]
pub struct FileList {
    files: ItemList<(Text, ByteList)>,
}

impl Model for FileList {
    ghost use Rattle.bk_port.specs.Listed.{bytes_held, bytes_at};
    ghost use Rattle.std.specs.Prelude.{ℕ, List};

    ghost Value = { List (List ℕ × List ℕ) };

    ghost view = { λ l. l.files };
}

impl FileList {
    /// No files, without memory taken.
    pub fn new(alloc: Global) -> FileList
        ensures { result ≡ [] }
    {
        FileList {
            files: ItemList::new(alloc),
        }
    }

    /// Puts a file at the end.
    pub fn push(&mut self, name: Text, bytes: Bytes) -> Result<(), NoMemory>
        ensures ok { OnOk result (self.new ≡ self.old ++ (name, bytes.items) ∷ []) }
        ensures err { OnErr result (self.new ≡ self.old) }
    {
        self.files.push((name, ByteList::from(bytes)))
    }

    /// File `i`, counted from 0: its name and its bytes.
    pub fn get(&self, i: usize) -> Option<&(Text, ByteList)>
        ensures { option_copied result ≡ slice_get self.now i }
    {
        self.files.get(i)
    }

    /// The place of the first file with this name.
    pub(crate) fn position(&self, name: &Text) -> Option<usize>
        ensures bytes { bytes_at self.now result ≡ bytes_held self.now name.now }
        ensures listed { is_some result ≡ is_listed self.now name.now }
    {
        for (place, (listed, _)) in self.files.as_slice().iter().enumerate() {
            if listed.as_bytes() == name.as_bytes() {
                return Some(place);
            }
        }
        None
    }

    /// The bytes of the file at this place, if there is one.
    pub(crate) fn bytes(&self, place: Option<usize>) -> &[u8]
        ensures { result.now ≡ bytes_at self.now place }
    {
        let Some(place) = place else {
            return &[];
        };
        match self.get(place) {
            Some((_, bytes)) => bytes.as_slice(),
            None => &[],
        }
    }

    /// How many files there are.
    pub fn len(&self) -> usize
        ensures { result ≡ length self.now }
    {
        self.files.len()
    }

    /// Whether there is none.
    pub fn is_empty(&self) -> bool
        ensures { IsTrue result ↔ (self.now ≡ []) }
    {
        self.files.is_empty()
    }
}
