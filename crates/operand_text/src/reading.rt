//! Reading the text of operands.

ghost use Rattle.std.specs.Prelude.{◌^◌, option_and_then};
ghost use Rattle.bk_parse.specs.Answer.{Answers};
ghost use Rattle.bk_parse.specs.HexBytes.{bytes_of};
ghost use Rattle.bk_parse.specs.Numbers.{number_of, signed_of};
ghost use Rattle.bk_parse.specs.Parts.{parts_at};
ghost use Rattle.operand_text.specs.Reading.{closed_by, label_or_float, members_of, operand_of, pair_of, plain_of, register_in, register_of, wide_of};

use bk_base::{ByteList, Bytes, ItemList};
use bk_parse::{Parts, TextRefusal, read_hex, read_i128, read_u32, read_u64};
use compact_term::{Integer128, Operand, Plain, Reg, WideInteger};
use std::alloc::Global;

/// The operand that a text is of. It is refused as `Wrong` exactly where it is the text of none, and
/// else for want of memory alone.
pub fn read_operand_text(alloc: Global, text: &[u8]) -> Result<Operand, TextRefusal>
    ensures { Answers (λ o. o) result (operand_of text.now) }
{
    let (mark, rest) = text.split_first().ok_or(TextRefusal::Wrong)?;
    match *mark {
        b'[' => Ok(Operand::List(members(alloc, closed(rest, b']')?)?)),
        b'{' => Ok(Operand::Alloc(members(alloc, closed(rest, b'}')?)?)),
        _ => Ok(Operand::One(plain(alloc, text)?)),
    }
}

// What stands before the last byte, which has to be this one.
fn closed(text: &[u8], last: u8) -> Result<&[u8], TextRefusal>
    ensures { Answers (λ inner. inner.now) result (closed_by last text.now) }
{
    let Some((b, inner)) = text.split_last() else {
        return Err(TextRefusal::Wrong);
    };
    if *b != last {
        return Err(TextRefusal::Wrong);
    }
    Ok(inner)
}

// A member of a list.
trait Member: Sized + Drop {
    ghost use Rattle.std.specs.Prelude.{ℕ, List, Option};

    ghost member_of: { List ℕ → Option Self };

    // The member that a text is of.
    fn read(alloc: Global, text: &[u8]) -> Result<Self, TextRefusal>
        ensures { Answers (λ x. x) result (member_of text.now) };
}

impl Member for Plain {
    ghost member_of = { plain_of };

    fn read(alloc: Global, text: &[u8]) -> Result<Plain, TextRefusal> {
        plain(alloc, text)
    }
}

impl Member for (u64, u64) {
    ghost member_of = { pair_of };

    fn read(_alloc: Global, text: &[u8]) -> Result<(u64, u64), TextRefusal> {
        pair(text)
    }
}

// The members of a list, with a comma between each two.
fn members<T: Member>(alloc: Global, inner: &[u8]) -> Result<ItemList<T>, TextRefusal>
    ensures { Answers (λ list. list) result (members_of T.member_of inner.now) }
{
    let mut list = ItemList::new(alloc);
    if inner.is_empty() {
        return Ok(list);
    }
    let mut parts = Parts::new(inner, b',');
    while let Some(part) = parts.next() {
        list.push(T::read(alloc, part)?)?;
    }
    Ok(list)
}

// A kind and an amount, with a colon between them.
fn pair(text: &[u8]) -> Result<(u64, u64), TextRefusal>
    ensures { Answers (λ p. p) result (pair_of text.now) }
{
    let mut parts = Parts::new(text, b':');
    let kind = parts.next().ok_or(TextRefusal::Wrong)?;
    let amount = parts.next().ok_or(TextRefusal::Wrong)?;
    if parts.next().is_some() {
        return Err(TextRefusal::Wrong);
    }
    Ok((long(kind)?, long(amount)?))
}

// An operand that holds no others.
fn plain(alloc: Global, text: &[u8]) -> Result<Plain, TextRefusal>
    ensures { Answers (λ p. p) result (plain_of text.now) }
{
    let (mark, rest) = text.split_first().ok_or(TextRefusal::Wrong)?;
    match *mark {
        b'u' => Ok(Plain::U(long(rest)?)),
        b'i' => Ok(Plain::I(Integer128::from(integer(rest)?))),
        b'w' => wide(alloc, rest),
        b'a' => Ok(Plain::A(word(rest)?)),
        b'f' => label_or_float(rest),
        b'h' => Ok(Plain::H(word(rest)?)),
        b'l' => Ok(Plain::Lit(long(rest)?)),
        _ => register_or_typed(text),
    }
}

// An integer of 17 bytes or more, by its digits.
fn wide(alloc: Global, digits: &[u8]) -> Result<Plain, TextRefusal>
    ensures { Answers (λ p. p) result (option_and_then wide_of (bytes_of digits.now)) }
{
    let mut bytes = Bytes::new(alloc);
    read_hex(&mut bytes, digits)?;
    if bytes.len() < 17 {
        return Err(TextRefusal::Wrong);
    }
    Ok(Plain::Wide(WideInteger::new(alloc, ByteList::from(bytes))?))
}

// A label, or a float register behind its second mark.
fn label_or_float(text: &[u8]) -> Result<Plain, TextRefusal>
    ensures { Answers (λ p. p) result (label_or_float text.now) }
{
    match text.strip_prefix(b"r") {
        Some(digits) => Ok(Plain::Fr(long(digits)?)),
        None => Ok(Plain::F(word(text)?)),
    }
}

// A register, alone or before the number of its type.
fn register_or_typed(text: &[u8]) -> Result<Plain, TextRefusal>
    ensures { Answers (λ p. p) result (register_in (parts_at 47 text.now)) }
{
    let mut parts = Parts::new(text, b'/');
    let register = register(parts.next().ok_or(TextRefusal::Wrong)?)?;
    let Some(number) = parts.next() else {
        return Ok(match register {
            Reg::X(n) => Plain::X(n),
            Reg::Y(n) => Plain::Y(n),
        });
    };
    if parts.next().is_some() {
        return Err(TextRefusal::Wrong);
    }
    Ok(Plain::Typed(register, long(number)?))
}

fn register(text: &[u8]) -> Result<Reg, TextRefusal>
    ensures { Answers (λ r. r) result (register_of text.now) }
{
    let (mark, digits) = text.split_first().ok_or(TextRefusal::Wrong)?;
    match *mark {
        b'x' => Ok(Reg::X(word(digits)?)),
        b'y' => Ok(Reg::Y(word(digits)?)),
        _ => Err(TextRefusal::Wrong),
    }
}

fn word(text: &[u8]) -> Result<u32, TextRefusal>
    ensures { Answers (λ n. n) result (number_of (2 ^ 32) text.now) }
{
    read_u32(text).ok_or(TextRefusal::Wrong)
}

fn long(text: &[u8]) -> Result<u64, TextRefusal>
    ensures { Answers (λ n. n) result (number_of (2 ^ 64) text.now) }
{
    read_u64(text).ok_or(TextRefusal::Wrong)
}

fn integer(text: &[u8]) -> Result<i128, TextRefusal>
    ensures { Answers (λ z. z) result (signed_of text.now) }
{
    read_i128(text).ok_or(TextRefusal::Wrong)
}
