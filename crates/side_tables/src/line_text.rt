//! The table of lines as text.

ghost use Rattle.std.specs.Prelude.{◌≡◌, ◌++◌, IfOk, OnOk};
ghost use Rattle.bk_text.specs.Lines.{numbered_lines};
ghost use Rattle.side_tables.specs.LineText.{place_line, file_line, lines_text};

use crate::lines::Lines;
use bk_base::{Bytes, NoMemory};
use bk_text::{put_marked, put_number};
use ext_term::name_text;
use std::alloc::Global;

/// The text of a table: the line `instructions I`; a line `N FILE:LINE` for each line, counted from
/// 1; and a line `file N NAME` for each file name, counted from 1. Numbers are decimal.
pub fn lines_text(alloc: Global, l: &Lines) -> Result<Bytes, NoMemory>
    ensures { IfOk result (λ out. out.items ≡ lines_text l.now) }
{
    let mut out = Bytes::new(alloc);
    put_marked(&mut out, b"instructions ", l.instructions)?;
    out.push(b'\n')?;
    put_places(&mut out, l)?;
    put_files(&mut out, l)?;
    Ok(out)
}

// The lines of the places.
fn put_places(out: &mut Bytes, l: &Lines) -> Result<(), NoMemory>
    ensures { OnOk result (out.new.items ≡ out.old.items ++ numbered_lines 1 place_line l.now.lines) }
{
    for (i, place) in l.lines.as_slice().iter().enumerate() {
        put_place(out, i + 1, *place)?;
    }
    Ok(())
}

// A line `N FILE:LINE`.
fn put_place(out: &mut Bytes, number: usize, place: (u32, i128)) -> Result<(), NoMemory>
    ensures { OnOk result (out.new.items ≡ out.old.items ++ place_line number place) }
{
    put_number(out, number)?;
    put_marked(out, b" ", place.0)?;
    put_marked(out, b":", place.1)?;
    out.push(b'\n')
}

// The lines of the file names.
fn put_files(out: &mut Bytes, l: &Lines) -> Result<(), NoMemory>
    ensures { OnOk result (out.new.items ≡ out.old.items ++ numbered_lines 1 file_line l.now.files) }
{
    for (i, name) in l.files.as_slice().iter().enumerate() {
        put_file(out, i + 1, name.as_slice())?;
    }
    Ok(())
}

// A line `file N NAME`.
fn put_file(out: &mut Bytes, number: usize, name: &[u8]) -> Result<(), NoMemory>
    ensures { OnOk result (out.new.items ≡ out.old.items ++ file_line number name.now) }
{
    put_marked(out, b"file ", number)?;
    out.push(b' ')?;
    name_text(name, out)?;
    out.push(b'\n')
}
