//! Reading the parts of terms that have no terms in them.

ghost use Rattle.std.specs.Prelude.{◌≡◌, ◌≤◌, IfOk, length, map};
ghost use Rattle.std.specs.Str.{encode_utf8_all};
ghost use Rattle.byteorder.specs.Endian.{little_number, twos_complement};
ghost use Rattle.bk_codec.specs.Reading.{Gives, made_of, number_at};
ghost use Rattle.ext_term.specs.Integer.{int_of, big_of};
ghost use Rattle.ext_term.specs.Spelling.{byte_term};
ghost use Rattle.bk_base.specs.Place.{end_of};
ghost use Rattle.ext_term.specs.Reading.{sized_at, big_at, integer_at, latin_at, utf8_at, atom_at, string_at, bits_at, flat_at};
ghost use Rattle.ext_term.specs.declared.refusal.TermRefusal.TheVariants as refusals;

use crate::refusal::TermRefusal;
use crate::tags::{
    BINARY, INTEGER, LONG_ATOM, LONG_LATIN_ATOM, NIL, SHORT_LATIN_ATOM, SMALL_BIG, SMALL_INTEGER,
    STRING,
};
use crate::term::{Term, TermList};
use bk_base::{ByteList, Cursor, NoMemory, Text};
use bk_codec::{text, word};
use byteorder::{BigEndian, ByteOrder, LittleEndian};
use sqlite_items::Boxed;
use std::alloc::Global;

// How many bytes of magnitude an integer has at most that isn't kept as its bytes.
const MOST_BYTES: usize = 16;

/// The number in `n` bytes, the highest first.
pub(crate) fn number(cur: &mut Cursor<'_>, n: usize) -> Result<u64, TermRefusal>
    requires low { 1 ≤ n }
    requires high { n ≤ 4 }
    ensures read { Gives refusals.NoMemory (λ x. x) cur.new.rest result (number_at refusals.Cut n cur.old.rest) }
    ensures end { end_of cur.new ≡ end_of cur.old }
{
    let bytes = cur.take(n).ok_or(TermRefusal::Cut)?;
    Ok(BigEndian::read_uint(bytes, n))
}

// The number in four bytes, in two's complement.
fn signed(cur: &mut Cursor<'_>) -> Result<i32, TermRefusal>
    ensures read { Gives refusals.NoMemory (λ z. z) cur.new.rest result (made_of (twos_complement 4) (number_at refusals.Cut 4 cur.old.rest)) }
    ensures end { end_of cur.new ≡ end_of cur.old }
{
    let n = word(cur, TermRefusal::Cut)?;
    Ok(n.cast_signed())
}

// An integer of 32 bits.
fn int(z: i32) -> Term
    ensures { result ≡ int_of z }
{
    Term::Int {
        neg: z < 0,
        mag: u128::from(z.unsigned_abs()),
    }
}

// Bytes, as many as a number of `n` bytes says.
fn sized<'a>(cur: &mut Cursor<'a>, n: usize) -> Result<&'a [u8], TermRefusal>
    requires low { 1 ≤ n }
    requires high { n ≤ 4 }
    ensures read { Gives refusals.NoMemory (λ s. s.now) cur.new.rest result (sized_at n cur.old.rest) }
    ensures end { end_of cur.new ≡ end_of cur.old }
{
    let len = number(cur, n)?;
    let bytes = cur.take(len as usize).ok_or(TermRefusal::Cut)?;
    Ok(bytes)
}

// The number in at most 16 bytes, the lowest first.
fn magnitude(bytes: &[u8]) -> u128
    requires { length bytes.now ≤ 16 }
    ensures { result ≡ little_number (length bytes.now) bytes.now }
{
    if bytes.is_empty() {
        return 0;
    }
    LittleEndian::read_uint128(bytes, bytes.len())
}

// The integer of a sign byte and a magnitude.
#[tactic(auto, unfolding(crate::specs::Integer::big_of))]
fn big_integer(alloc: Global, sign: u8, mag: &[u8]) -> Result<Term, NoMemory>
    ensures { IfOk result (λ t. t ≡ big_of sign mag.now) }
{
    let neg = sign != 0;
    if mag.len() > MOST_BYTES {
        let mag = ByteList::from_slice(alloc, mag)?;
        return Ok(Term::Wide { neg, mag });
    }
    let mag = magnitude(mag);
    let neg = neg && mag != 0;
    Ok(Term::Int { neg, mag })
}

// An integer with the number of its magnitude's bytes in `n` bytes.
fn big(alloc: Global, cur: &mut Cursor<'_>, n: usize) -> Result<Term, TermRefusal>
    requires low { 1 ≤ n }
    requires high { n ≤ 4 }
    ensures read { Gives refusals.NoMemory (λ t. t) cur.new.rest result (big_at n cur.old.rest) }
    ensures end { end_of cur.new ≡ end_of cur.old }
{
    let len = number(cur, n)?;
    let sign = cur.byte().ok_or(TermRefusal::Cut)?;
    let mag = cur.take(len as usize).ok_or(TermRefusal::Cut)?;
    Ok(big_integer(alloc, sign, mag)?)
}

/// The integer behind the tag of one.
#[tactic(auto, unfolding(crate::specs::Reading::integer_at))]
pub(crate) fn integer(alloc: Global, cur: &mut Cursor<'_>, tag: u8) -> Result<Term, TermRefusal>
    ensures read { Gives refusals.NoMemory (λ t. t) cur.new.rest result (integer_at tag cur.old.rest) }
    ensures end { end_of cur.new ≡ end_of cur.old }
{
    match tag {
        SMALL_INTEGER => {
            let mag = number(cur, 1)?;
            Ok(Term::Int {
                neg: false,
                mag: u128::from(mag),
            })
        }
        INTEGER => {
            let z = signed(cur)?;
            Ok(int(z))
        }
        SMALL_BIG => big(alloc, cur, 1),
        _ => big(alloc, cur, 4),
    }
}

// The name that these bytes are, each of them a character.
#[tactic(auto, using(crate::proofs::Names::encodes_more))]
fn latin_text(alloc: Global, bytes: &[u8]) -> Result<Text, NoMemory>
    ensures { IfOk result (λ text. text ≡ encode_utf8_all bytes.now) }
{
    let mut name = String::new(alloc);
    for b in bytes {
        name.push(char::from(*b))?;
    }
    Ok(Text::from(name))
}

// A name in Latin-1, behind its length in `n` bytes.
fn latin(alloc: Global, cur: &mut Cursor<'_>, n: usize) -> Result<Text, TermRefusal>
    requires low { 1 ≤ n }
    requires high { n ≤ 4 }
    ensures read { Gives refusals.NoMemory (λ t. t) cur.new.rest result (latin_at n cur.old.rest) }
    ensures end { end_of cur.new ≡ end_of cur.old }
{
    let bytes = sized(cur, n)?;
    Ok(latin_text(alloc, bytes)?)
}

// The name of the atom whose tag is at this offset, in UTF-8, behind its length in `n` bytes.
fn utf8(alloc: Global, cur: &mut Cursor<'_>, at: usize, n: usize) -> Result<Text, TermRefusal>
    requires low { 1 ≤ n }
    requires high { n ≤ 4 }
    ensures read { Gives refusals.NoMemory (λ t. t) cur.new.rest result (utf8_at at n cur.old.rest) }
    ensures end { end_of cur.new ≡ end_of cur.old }
{
    let bytes = sized(cur, n)?;
    let bad = TermRefusal::AtomText { at };
    text(alloc, bytes, bad, TermRefusal::NoMemory)
}

/// The name behind the tag of an atom, which is at this offset.
#[tactic(auto, unfolding(crate::specs::Reading::atom_at))]
pub(crate) fn atom(
    alloc: Global,
    cur: &mut Cursor<'_>,
    at: usize,
    tag: u8,
) -> Result<Text, TermRefusal>
    ensures read { Gives refusals.NoMemory (λ t. t) cur.new.rest result (atom_at at tag cur.old.rest) }
    ensures end { end_of cur.new ≡ end_of cur.old }
{
    match tag {
        LONG_LATIN_ATOM => latin(alloc, cur, 2),
        SHORT_LATIN_ATOM => latin(alloc, cur, 1),
        LONG_ATOM => utf8(alloc, cur, at, 2),
        _ => utf8(alloc, cur, at, 1),
    }
}

// These bytes as integers.
fn byte_terms(alloc: Global, bytes: &[u8]) -> Result<TermList, NoMemory>
    ensures { IfOk result (λ items. items ≡ map byte_term bytes.now) }
{
    let mut items = Vec::with_capacity(alloc, bytes.len())?;
    for b in bytes {
        items.push(Term::Int {
            neg: false,
            mag: u128::from(*b),
        })?;
    }
    Ok(TermList::from_vec(items))
}

// A list of bytes.
fn string(alloc: Global, cur: &mut Cursor<'_>) -> Result<Term, TermRefusal>
    ensures read { Gives refusals.NoMemory (λ t. t) cur.new.rest result (string_at cur.old.rest) }
    ensures end { end_of cur.new ≡ end_of cur.old }
{
    let bytes = sized(cur, 2)?;
    let items = byte_terms(alloc, bytes)?;
    Ok(Term::List(items, Boxed::new(alloc, Term::Nil)?))
}

// A bit string, whose tag is at this offset.
#[tactic(auto, unfolding(crate::specs::Reading::bits_at))]
fn bits(alloc: Global, cur: &mut Cursor<'_>, at: usize) -> Result<Term, TermRefusal>
    ensures read { Gives refusals.NoMemory (λ t. t) cur.new.rest result (bits_at at cur.old.rest) }
    ensures end { end_of cur.new ≡ end_of cur.old }
{
    let len = number(cur, 4)?;
    let last = cur.byte().ok_or(TermRefusal::Cut)?;
    let bytes = cur.take(len as usize).ok_or(TermRefusal::Cut)?;
    if bytes.is_empty() || last < 1 || last > 8 {
        return Err(TermRefusal::BitTail { at });
    }
    let bytes = ByteList::from_slice(alloc, bytes)?;
    Ok(Term::Bits { bytes, last })
}

/// The empty list, a list of bytes, a binary or a bit string behind its tag, which is at this offset.
#[tactic(auto, unfolding(crate::specs::Reading::flat_at))]
pub(crate) fn flat(
    alloc: Global,
    cur: &mut Cursor<'_>,
    at: usize,
    tag: u8,
) -> Result<Term, TermRefusal>
    ensures read { Gives refusals.NoMemory (λ t. t) cur.new.rest result (flat_at at tag cur.old.rest) }
    ensures end { end_of cur.new ≡ end_of cur.old }
{
    match tag {
        NIL => Ok(Term::Nil),
        STRING => string(alloc, cur),
        BINARY => {
            let bytes = sized(cur, 4)?;
            Ok(Term::Binary(ByteList::from_slice(alloc, bytes)?))
        }
        _ => bits(alloc, cur, at),
    }
}
