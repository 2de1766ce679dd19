//! Writing the tables.

ghost use Rattle.std.specs.Prelude.{◌≡◌, ◌<◌, ◌^◌, ◌++◌, length, IfOk, OnOk};
ghost use Rattle.byteorder.specs.Endian.{big_bytes};
ghost use Rattle.index_tables.specs.Atoms.{FitsAtoms};
ghost use Rattle.index_tables.specs.Canonical.{canonical_atom, canonical_atoms, canonical_exports, canonical_funs, canonical_imports, canonical_table, canonical_words};

use crate::entry::Entry;
use crate::table::{Atoms, Exports, Funs, Imports};
use bk_base::{Bytes, ItemList, NoMemory};
use std::alloc::Global;

/// The payload of a table of atoms: their count as a word, and for each a byte with the length of its
/// name, and the name.
///
/// There are fewer than 4,294,967,296 atoms, and no name has more than 255 bytes. It fails only for
/// want of memory.
pub fn write_atoms(alloc: Global, t: &Atoms) -> Result<Bytes, NoMemory>
    requires { FitsAtoms t.now }
    ensures { IfOk result (λ payload. payload.items ≡ canonical_atoms t.now) }
{
    let mut payload = Bytes::new(alloc);
    put_count(&mut payload, t.len())?;
    for name in t.as_slice() {
        put_atom(&mut payload, name.as_bytes())?;
    }
    Ok(payload)
}

/// The payload of a table of imports: their count as a word, and the three words of each. There are
/// fewer than 4,294,967,296 of them. It fails only for want of memory.
pub fn write_imports(alloc: Global, t: &Imports) -> Result<Bytes, NoMemory>
    requires { length t.now < 2 ^ 32 }
    ensures { IfOk result (λ payload. payload.items ≡ canonical_imports t.now) }
{
    write_entries(alloc, t)
}

/// The payload of a table of exports or of local functions: their count as a word, and the three words
/// of each. There are fewer than 4,294,967,296 of them. It fails only for want of memory.
pub fn write_exports(alloc: Global, t: &Exports) -> Result<Bytes, NoMemory>
    requires { length t.now < 2 ^ 32 }
    ensures { IfOk result (λ payload. payload.items ≡ canonical_exports t.now) }
{
    write_entries(alloc, t)
}

/// The payload of a table of funs: their count as a word, and the six words of each. There are fewer
/// than 4,294,967,296 of them. It fails only for want of memory.
pub fn write_funs(alloc: Global, t: &Funs) -> Result<Bytes, NoMemory>
    requires { length t.now < 2 ^ 32 }
    ensures { IfOk result (λ payload. payload.items ≡ canonical_funs t.now) }
{
    write_entries(alloc, t)
}

/// The payload of a table of entries: their count as a word, and the words of each. There are fewer
/// than 4,294,967,296 of them. It fails only for want of memory.
pub fn write_entries<T: Entry>(alloc: Global, t: &ItemList<T>) -> Result<Bytes, NoMemory>
    requires { length t.now < 2 ^ 32 }
    ensures { IfOk result (λ payload. payload.items ≡ canonical_table T.shape.words t.now) }
{
    let mut payload = Bytes::new(alloc);
    put_count(&mut payload, t.len())?;
    for entry in t.as_slice() {
        entry.put(&mut payload)?;
    }
    Ok(payload)
}

/// Puts words at the end, each as four bytes, the highest first.
pub fn put_words(out: &mut Bytes, words: &[u32]) -> Result<(), NoMemory>
    ensures { OnOk result (out.new.items ≡ out.old.items ++ canonical_words words.now) }
{
    for word in words {
        put_word(out, *word)?;
    }
    Ok(())
}

fn put_count(out: &mut Bytes, count: usize) -> Result<(), NoMemory>
    requires { count < 2 ^ 32 }
    ensures { OnOk result (out.new.items ≡ out.old.items ++ big_bytes 4 count) }
{
    put_word(out, count as u32)
}

fn put_word(out: &mut Bytes, word: u32) -> Result<(), NoMemory>
    ensures { OnOk result (out.new.items ≡ out.old.items ++ big_bytes 4 word) }
{
    out.extend(&word.to_be_bytes())
}

fn put_atom(out: &mut Bytes, name: &[u8]) -> Result<(), NoMemory>
    requires { length name.now < 256 }
    ensures { OnOk result (out.new.items ≡ out.old.items ++ canonical_atom name.now) }
{
    out.push(name.len() as u8)?;
    out.extend(name)
}
