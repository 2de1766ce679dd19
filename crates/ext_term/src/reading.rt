//! Reading a term.

ghost use Rattle.std.specs.Prelude.{◌≡◌, ◌≤◌, ◌⊎◌, IfOk, OnOk, Ok, Err};
ghost use Rattle.bk_codec.specs.Reading.{Gives, GivesAll, many_at};
ghost use Rattle.ext_term.specs.Spelling.{SpellsTermFile};
ghost use Rattle.bk_base.specs.Place.{end_of};
ghost use Rattle.ext_term.specs.Reading.{tag_at, name_at, arity_at, export_at, pair_at, nested_at, tagged_at, term_at, term_of};
ghost use Rattle.ext_term.specs.declared.refusal.TermRefusal.TheVariants as refusals;

use crate::parts::{atom, flat, integer, number};
use crate::refusal::TermRefusal;
use crate::tags::{
    BINARY, BITS, EXPORT, INTEGER, LARGE_BIG, LARGE_TUPLE, LIST, LONG_ATOM, LONG_LATIN_ATOM, MAP,
    NIL, SHORT_ATOM, SHORT_LATIN_ATOM, SMALL_BIG, SMALL_INTEGER, SMALL_TUPLE, STRING, VERSION,
};
use crate::term::{Term, TermList, TermPairList};
use bk_base::{Cursor, Text};
use bk_codec::end;
use sqlite_items::Boxed;
use std::alloc::Global;

// How many terms may stand in one another.
const DEPTH: usize = 256;

// The tag of a term, where `levels` terms may stand in one another.
#[tactic(auto, unfolding(crate::specs::Reading::tag_at))]
fn tag(cur: &mut Cursor<'_>, levels: usize) -> Result<u8, TermRefusal>
    ensures read { Gives refusals.NoMemory (λ tag. tag) cur.new.rest result (tag_at (end_of cur.old) levels cur.old.rest) }
    ensures open { OnOk result (1 ≤ levels) }
    ensures end { end_of cur.new ≡ end_of cur.old }
{
    let at = cur.at();
    let tag = cur.byte().ok_or(TermRefusal::Cut)?;
    if levels == 0 {
        return Err(TermRefusal::Depth { at });
    }
    Ok(tag)
}

// A name in an external function.
#[tactic(auto, unfolding(crate::specs::Reading::name_at))]
fn name(alloc: Global, cur: &mut Cursor<'_>, levels: usize) -> Result<Text, TermRefusal>
    ensures read { Gives refusals.NoMemory (λ t. t) cur.new.rest result (name_at (end_of cur.old) levels cur.old.rest) }
    ensures end { end_of cur.new ≡ end_of cur.old }
{
    let at = cur.at();
    let tag = tag(cur, levels)?;
    match tag {
        LONG_LATIN_ATOM | SHORT_LATIN_ATOM | LONG_ATOM | SHORT_ATOM => atom(alloc, cur, at, tag),
        _ => Err(TermRefusal::Tag { tag, at }),
    }
}

// The arity of an external function.
#[tactic(auto, unfolding(crate::specs::Reading::arity_at))]
fn arity(cur: &mut Cursor<'_>, levels: usize) -> Result<u8, TermRefusal>
    ensures read { Gives refusals.NoMemory (λ n. n) cur.new.rest result (arity_at (end_of cur.old) levels cur.old.rest) }
    ensures end { end_of cur.new ≡ end_of cur.old }
{
    let at = cur.at();
    let tag = tag(cur, levels)?;
    if tag != SMALL_INTEGER {
        return Err(TermRefusal::Tag { tag, at });
    }
    Ok(cur.byte().ok_or(TermRefusal::Cut)?)
}

// An external function.
#[tactic(auto, unfolding(crate::specs::Reading::export_at))]
fn export(alloc: Global, cur: &mut Cursor<'_>, levels: usize) -> Result<Term, TermRefusal>
    ensures read { Gives refusals.NoMemory (λ t. t) cur.new.rest result (export_at (end_of cur.old) levels cur.old.rest) }
    ensures end { end_of cur.new ≡ end_of cur.old }
{
    let module = name(alloc, cur, levels)?;
    let function = name(alloc, cur, levels)?;
    let arity = arity(cur, levels)?;
    Ok(Term::Export(module, function, arity))
}

// Terms, as many as a count says. No room is taken by that count, and none is left behind the last.
#[cycle(reading)]
fn terms(
    alloc: Global,
    cur: &mut Cursor<'_>,
    levels: usize,
    count: u64,
) -> Result<TermList, TermRefusal>
    ensures read { Gives refusals.NoMemory (λ ts. ts) cur.new.rest result (many_at (term_at (end_of cur.old) levels) count cur.old.rest) }
    ensures end { end_of cur.new ≡ end_of cur.old }
{
    let mut items = Vec::new(alloc);
    for _ in 0..count {
        let t = term(alloc, cur, levels)?;
        items.push(t)?;
    }
    items.shrink_to_fit();
    Ok(TermList::from_vec(items))
}

// A key and its value.
#[cycle(reading)]
fn pair(alloc: Global, cur: &mut Cursor<'_>, levels: usize) -> Result<(Term, Term), TermRefusal>
    ensures read { Gives refusals.NoMemory (λ p. p) cur.new.rest result (pair_at (term_at (end_of cur.old) levels) cur.old.rest) }
    ensures end { end_of cur.new ≡ end_of cur.old }
{
    let key = term(alloc, cur, levels)?;
    let value = term(alloc, cur, levels)?;
    Ok((key, value))
}

// Keys and values, as many as a count says.
#[cycle(reading)]
fn pairs(
    alloc: Global,
    cur: &mut Cursor<'_>,
    levels: usize,
    count: u64,
) -> Result<TermPairList, TermRefusal>
    ensures read { Gives refusals.NoMemory (λ ps. ps) cur.new.rest result (many_at (pair_at (term_at (end_of cur.old) levels)) count cur.old.rest) }
    ensures end { end_of cur.new ≡ end_of cur.old }
{
    let mut pairs = Vec::new(alloc);
    for _ in 0..count {
        let p = pair(alloc, cur, levels)?;
        pairs.push(p)?;
    }
    pairs.shrink_to_fit();
    Ok(TermPairList::from_vec(pairs))
}

// What is behind a tag of terms that have terms in them, `levels` more in one another.
#[cycle(reading)]
#[tactic(auto, unfolding(crate::specs::Reading::nested_at))]
fn nested(alloc: Global, cur: &mut Cursor<'_>, levels: usize, tag: u8) -> Result<Term, TermRefusal>
    ensures read { Gives refusals.NoMemory (λ t. t) cur.new.rest result (nested_at (end_of cur.old) levels (term_at (end_of cur.old) levels) tag cur.old.rest) }
    ensures end { end_of cur.new ≡ end_of cur.old }
{
    match tag {
        SMALL_TUPLE => {
            let count = number(cur, 1)?;
            Ok(Term::Tuple(terms(alloc, cur, levels, count)?))
        }
        LARGE_TUPLE => {
            let count = number(cur, 4)?;
            Ok(Term::Tuple(terms(alloc, cur, levels, count)?))
        }
        LIST => {
            let count = number(cur, 4)?;
            let items = terms(alloc, cur, levels, count)?;
            let tail = term(alloc, cur, levels)?;
            Ok(Term::List(items, Boxed::new(alloc, tail)?))
        }
        EXPORT => export(alloc, cur, levels),
        _ => {
            let count = number(cur, 4)?;
            Ok(Term::Map(pairs(alloc, cur, levels, count)?))
        }
    }
}

// What is behind the tag at this offset.
#[cycle(reading)]
#[tactic(auto, unfolding(crate::specs::Reading::tagged_at))]
fn tagged(
    alloc: Global,
    cur: &mut Cursor<'_>,
    levels: usize,
    at: usize,
    tag: u8,
) -> Result<Term, TermRefusal>
    ensures read { Gives refusals.NoMemory (λ t. t) cur.new.rest result (tagged_at (end_of cur.old) levels (term_at (end_of cur.old) levels) at tag cur.old.rest) }
    ensures end { end_of cur.new ≡ end_of cur.old }
{
    match tag {
        SMALL_INTEGER | INTEGER | SMALL_BIG | LARGE_BIG => integer(alloc, cur, tag),
        LONG_LATIN_ATOM | SHORT_LATIN_ATOM | LONG_ATOM | SHORT_ATOM => Ok(Term::Atom(atom(
            alloc, cur, at, tag,
        )?)),
        NIL | STRING | BINARY | BITS => flat(alloc, cur, at, tag),
        SMALL_TUPLE | LARGE_TUPLE | LIST | EXPORT | MAP => nested(alloc, cur, levels, tag),
        _ => Err(TermRefusal::Tag { tag, at }),
    }
}

// A term, where `levels` terms may stand in one another, itself among them.
#[cycle(reading)]
fn term(alloc: Global, cur: &mut Cursor<'_>, levels: usize) -> Result<Term, TermRefusal>
    ensures read { Gives refusals.NoMemory (λ t. t) cur.new.rest result (term_at (end_of cur.old) levels cur.old.rest) }
    ensures end { end_of cur.new ≡ end_of cur.old }
{
    let at = cur.at();
    let tag = tag(cur, levels)?;
    tagged(alloc, cur, levels - 1, at, tag)
}

#[tactic(auto, unfolding(crate::specs::Reading::file_at))]
fn whole_term(alloc: Global, s: &[u8]) -> Result<Term, TermRefusal>
    ensures { GivesAll refusals.NoMemory (λ t. t) result (term_of s.now) }
{
    let mut cur = Cursor::new(s);
    let version = cur.byte().ok_or(TermRefusal::Cut)?;
    if version != VERSION {
        return Err(TermRefusal::Tag {
            tag: version,
            at: 0,
        });
    }
    let t = term(alloc, &mut cur, DEPTH)?;
    let rest = TermRefusal::Rest { at: cur.at() };
    end(&cur, rest)?;
    Ok(t)
}

/// Reads a term from all of the bytes: the version 131, and one term behind it (External Term Format).
///
/// Each tag that is known here is read, not only those that are written. Bytes that are no term are
/// refused by what is wrong with them first from the left: bytes of a field are there before its value
/// is looked at, and a tag that is too deep is refused before it is looked at. At most 256 terms may
/// stand in one another. No room is taken by a count that the bytes state.
pub fn read_term(alloc: Global, s: &[u8]) -> Result<Term, TermRefusal>
    // What was read is spelled there.
    ensures found { IfOk result (λ t. SpellsTermFile t s.now) }
    // What is spelled there is read, unless memory runs out.
    ensures only { (t : Term) → SpellsTermFile t s.now → (result ≡ Ok t) ⊎ (result ≡ Err refusals.NoMemory) }
    // Which refusal it is.
    ensures exact { GivesAll refusals.NoMemory (λ t. t) result (term_of s.now) }
{
    whole_term(alloc, s)
}
