//! The text of a payload of literals, with one term kept at a time.

ghost use Rattle.std.specs.Prelude.{◌≡◌, ◌++◌, IfErr};
ghost use Rattle.bk_codec.specs.Reading.{Gives, GivesAll, made_of, many_at};
ghost use Rattle.bk_text.specs.Lines.{numbered_lines};
ghost use Rattle.side_tables.specs.LiteralReading.{literal_at, literals_of};
ghost use Rattle.side_tables.specs.LiteralText.{literal_line, literals_shown};
ghost use Rattle.side_tables.specs.declared.refusal.SideRefusal.TheVariants as refusals;

use crate::literal_counting::pass_literals;
use crate::literal_reading::literal;
use crate::literal_text::put_literal;
use crate::refusal::SideRefusal;
use bk_base::{Bytes, Cursor};
use bk_codec::word;
use std::alloc::Global;

/// The text of the table of literals that the payload is: what [`crate::literals_text`] writes of what
/// [`crate::read_literals`] reads, and refused as that is.
///
/// The payload is passed over first, so that one which is no table is refused without memory. Then each
/// literal is read, written and dropped before the next: no more than one term is kept.
#[tactic(auto, unfolding(crate::specs::LiteralReading::literals_of, crate::specs::LiteralReading::literals_at))]
pub fn literals_shown(alloc: Global, s: &[u8]) -> Result<Bytes, SideRefusal>
    ensures shown { GivesAll refusals.NoMemory (λ out. out.items) result (literals_shown s.now) }

    // A payload that is no table is refused for that, even where memory is wanting.
    ensures refused { IfErr (literals_of s.now) (λ e. result ≡ Err e) }
{
    let mut out = Bytes::new(alloc);
    let mut cur = Cursor::new(s);
    if word(&mut cur, SideRefusal::Cut)? != 0 {
        out.extend(b"packed\n")?;
        return Ok(out);
    }
    let count = word(&mut cur, SideRefusal::Cut)?;
    pass_literals(cur.rest(), count)?;
    show_literals(alloc, &mut out, &mut cur, count)?;
    Ok(out)
}

// Reads so many literals, and puts the line of each at the end before it reads the next.
fn show_literals(
    alloc: Global,
    out: &mut Bytes,
    cur: &mut Cursor<'_>,
    count: u32,
) -> Result<(), SideRefusal>
    ensures { Gives refusals.NoMemory (λ _. out.new.items) cur.new.rest result
        (made_of (λ ls. out.old.items ++ numbered_lines 0 literal_line ls) (many_at literal_at count cur.old.rest)) }
{
    for number in 0..count {
        show_next(alloc, out, cur, number)?;
    }
    Ok(())
}

// Reads the next literal, and puts its line at the end.
fn show_next(
    alloc: Global,
    out: &mut Bytes,
    cur: &mut Cursor<'_>,
    number: u32,
) -> Result<(), SideRefusal>
    ensures { Gives refusals.NoMemory (λ _. out.new.items) cur.new.rest result
        (made_of (λ l. out.old.items ++ literal_line number l) (literal_at cur.old.rest)) }
{
    let literal = literal(alloc, cur)?;
    put_literal(out, number as usize, &literal)?;
    Ok(())
}
