//! The table of literals as text.

ghost use Rattle.std.specs.Prelude.{◌≡◌, ◌++◌, IfOk, OnOk};
ghost use Rattle.bk_text.specs.Lines.{numbered_lines};
ghost use Rattle.side_tables.specs.LiteralText.{term_or_bytes, literal_line, literals_text};

use crate::literal::{Literal, LiteralList};
use crate::literals::Literals;
use bk_base::{Bytes, NoMemory};
use bk_text::{put_hex, put_number};
use ext_term::put_term;
use std::alloc::Global;

/// The text of a table: for each literal, counted from 0, the line `N TERM` with its term
/// ([`ext_term::term_text`]), or `N bytes HEX` where it has none, with its bytes in lower-case
/// hexadecimal; for a packed table the one line `packed`.
pub fn literals_text(alloc: Global, l: &Literals<'_>) -> Result<Bytes, NoMemory>
    ensures { IfOk result (λ out. out.items ≡ literals_text l.now) }
{
    let mut out = Bytes::new(alloc);
    match l {
        Literals::Plain(literals) => put_literals(&mut out, literals)?,
        Literals::Packed => out.extend(b"packed\n")?,
    }
    Ok(out)
}

// The lines of the literals.
fn put_literals(out: &mut Bytes, literals: &LiteralList<'_>) -> Result<(), NoMemory>
    ensures { OnOk result (out.new.items ≡ out.old.items ++ numbered_lines 0 literal_line literals.now) }
{
    for (i, literal) in literals.as_slice().iter().enumerate() {
        put_literal(out, i, literal)?;
    }
    Ok(())
}

/// Puts a line `N TERM` or `N bytes HEX` at the end.
pub(crate) fn put_literal(
    out: &mut Bytes,
    number: usize,
    literal: &Literal<'_>,
) -> Result<(), NoMemory>
    ensures { OnOk result (out.new.items ≡ out.old.items ++ literal_line number literal.now) }
{
    put_number(out, number)?;
    out.push(b' ')?;
    put_term_or_bytes(out, literal)?;
    out.push(b'\n')
}

// What a line shows of a literal.
fn put_term_or_bytes(out: &mut Bytes, literal: &Literal<'_>) -> Result<(), NoMemory>
    ensures { OnOk result (out.new.items ≡ out.old.items ++ term_or_bytes literal.now.term literal.now.bytes) }
{
    match &literal.term {
        Some(term) => put_term(term, out),
        None => {
            out.extend(b"bytes ")?;
            put_hex(out, literal.bytes)
        }
    }
}
