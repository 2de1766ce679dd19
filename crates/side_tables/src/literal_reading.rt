//! Reading the table of literals.

ghost use Rattle.std.specs.Prelude.{◌≡◌, ◌⊎◌, IfOk};
ghost use Rattle.bk_codec.specs.Reading.{Gives, GivesAll, Reads, many_at};
ghost use Rattle.side_tables.specs.LiteralSpelling.{SpellsLiterals};
ghost use Rattle.side_tables.specs.LiteralReading.{term_in, sized_at, literal_at, literals_at, literals_of};
ghost use Rattle.side_tables.specs.declared.literals.Literals.{Literals};
ghost use Rattle.side_tables.specs.declared.refusal.SideRefusal.TheVariants as refusals;

use crate::literal::{Literal, LiteralList};
use crate::literals::Literals;
use crate::refusal::SideRefusal;
use bk_base::{Cursor, NoMemory};
use bk_codec::{end, word};
use ext_term::{Term, TermRefusal, read_term};
use std::alloc::Global;

/// Reads the payload of a table of literals, whole. The literals borrow it.
///
/// A table whose first word isn't 0 is `Packed`, whatever follows. Behind a first word 0 stand a word
/// with the number of the literals, and for each literal a word with the number of its bytes, and the
/// bytes. A literal has a term where its bytes are one, and else it is kept as its bytes.
///
/// It is refused with `Cut` where a word or bytes of a literal are missing, and with `Rest` where bytes
/// stand behind the last literal.
pub fn read_literals<'a>(alloc: Global, s: &'a [u8]) -> Result<Literals<'a>, SideRefusal>
    // What is read is spelled there.
    ensures found { IfOk result (λ l. SpellsLiterals l s.now) }

    // What is spelled there is read, unless memory is wanting.
    ensures only { (l : Literals) → SpellsLiterals l s.now →
        (result ≡ Ok l) ⊎ (result ≡ Err refusals.NoMemory) }

    // The same and the refusals, as a function of the payload.
    ensures exact { GivesAll refusals.NoMemory (λ l. l) result (literals_of s.now) }
{
    whole_table(alloc, s)
}

// The table that all of the bytes are.
#[tactic(auto, unfolding(crate::specs::LiteralReading::literals_of))]
fn whole_table<'a>(alloc: Global, s: &'a [u8]) -> Result<Literals<'a>, SideRefusal>
    ensures { GivesAll refusals.NoMemory (λ l. l) result (literals_of s.now) }
{
    let mut cur = Cursor::new(s);
    if word(&mut cur, SideRefusal::Cut)? != 0 {
        return Ok(Literals::Packed);
    }
    let literals = counted(alloc, &mut cur)?;
    end(&cur, SideRefusal::Rest)?;
    Ok(Literals::Plain(literals))
}

// Literals, as many as the next word says.
#[tactic(auto, unfolding(crate::specs::LiteralReading::literals_at))]
fn counted<'a>(alloc: Global, cur: &mut Cursor<'a>) -> Result<LiteralList<'a>, SideRefusal>
    ensures { Gives refusals.NoMemory (λ ls. ls) cur.new.rest result (literals_at cur.old.rest) }
{
    let count = word(cur, SideRefusal::Cut)?;
    many(alloc, cur, count)
}

// So many literals. No room is taken by their stated number.
fn many<'a>(alloc: Global, cur: &mut Cursor<'a>, count: u32) -> Result<LiteralList<'a>, SideRefusal>
    ensures { Gives refusals.NoMemory (λ ls. ls) cur.new.rest result
        (many_at literal_at count cur.old.rest) }
{
    let mut literals = LiteralList::new(alloc);
    for _ in 0..count {
        let literal = literal(alloc, cur)?;
        literals.push(literal)?;
    }
    Ok(literals)
}

/// The next literal.
pub(crate) fn literal<'a>(alloc: Global, cur: &mut Cursor<'a>) -> Result<Literal<'a>, SideRefusal>
    ensures { Gives refusals.NoMemory (λ l. l) cur.new.rest result (literal_at cur.old.rest) }
{
    let bytes = sized(cur)?;
    let term = term(alloc, bytes)?;
    Ok(Literal { bytes, term })
}

/// The bytes of the next literal.
pub(crate) fn sized<'a>(cur: &mut Cursor<'a>) -> Result<&'a [u8], SideRefusal>
    ensures { Reads (λ b. b.now) cur.new.rest result (sized_at cur.old.rest) }
{
    let size = word(cur, SideRefusal::Cut)?;
    cur.take(size as usize).ok_or(SideRefusal::Cut)
}

// The term that the bytes are, if they are one.
fn term(alloc: Global, bytes: &[u8]) -> Result<Option<Term>, NoMemory>
    ensures { IfOk result (λ t. t ≡ term_in bytes.now) }
{
    match read_term(alloc, bytes) {
        Ok(term) => Ok(Some(term)),
        Err(TermRefusal::NoMemory) => Err(NoMemory),
        Err(_) => Ok(None),
    }
}
