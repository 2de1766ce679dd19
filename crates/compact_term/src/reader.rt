//! Reading an operand.

ghost use Rattle.std.specs.Prelude.{◌≡◌, ◌⊎◌, ℕ, pos, ◌<◌, ◌≤◌, ◌^◌, ◌%◌, ◌++◌, List, length, drop, Ok, Err, IfOk, IfErr, IfSome, OnErr};
ghost use Rattle.bk_base.specs.Place.{end_of};
ghost use Rattle.bk_codec.specs.Exact.{Begins};
ghost use Rattle.bk_codec.specs.Reading.{Gives, Fails, giving, many_at};
ghost use Rattle.compact_term.specs.declared.operand.Operand.{Operand};
ghost use Rattle.compact_term.specs.declared.reader.Head.TheVariants as heads;
ghost use Rattle.compact_term.specs.Spelling.{Spells};
ghost use Rattle.compact_term.specs.Operand.{MeetsType, IsProper};
ghost use Rattle.compact_term.specs.Reading.{short_at, below_at, integer_at, u_at, reg_at, extended_by, tagged, head_at, member_at, pair_at, operand_at};

use crate::integer::{Integer128, WideInteger};
use crate::list::{PairList, PlainList};
use crate::number::{LONG, MOST_BYTES, at_most, length, long, short};
use crate::operand::{Operand, Plain, Reg};
use crate::refusal::OperandRefusal;
use bk_base::{ByteList, Cursor};
use std::alloc::Global;

// What stands at the front: a whole plain operand, or the beginning of one with parts.
#[derive(Drop)]
pub(crate) enum Head {
    Plain(Plain),
    List,
    Alloc,
}

// An integer of any length.
#[tactic(auto, unfolding(crate::specs::Reading::integer_at, crate::specs::Reading::short_at))]
fn integer(alloc: Global, cur: &mut Cursor<'_>, first: u8) -> Result<Plain, OperandRefusal>
    ensures { Gives OperandRefusal.NoMemory (λ p. p) cur.new.rest result (integer_at first cur.old.rest) }
{
    if first / 8 % 2 == 0 {
        return Ok(Plain::I(Integer128::from(i128::from(first / 16))));
    }
    if first < LONG {
        let z = short(cur, first)?;
        return Ok(Plain::I(Integer128::from(i128::from(z))));
    }
    let n = length(cur)?;
    if n > MOST_BYTES {
        let bytes = cur.take(n as usize).ok_or(OperandRefusal::Cut)?;
        let list = ByteList::from_slice(alloc, bytes)?;
        return Ok(Plain::Wide(WideInteger::new(alloc, list)?));
    }
    let z = long(cur, n)?;
    Ok(Plain::I(Integer128::from(z)))
}

// A term of tag `u`.
#[tactic(auto, unfolding(crate::specs::Reading::u_at))]
fn unsigned(cur: &mut Cursor<'_>) -> Result<u64, OperandRefusal>
    ensures { Gives OperandRefusal.NoMemory (λ n. n) cur.new.rest result (u_at cur.old.rest) }
{
    let first = cur.byte().ok_or(OperandRefusal::Cut)?;
    if first % 8 != 0 {
        return Err(OperandRefusal::Inner);
    }
    at_most(cur, u64::MAX, first)
}

// A number of 32 bits.
fn at_most_32(cur: &mut Cursor<'_>, first: u8) -> Result<u32, OperandRefusal>
    ensures { Gives OperandRefusal.NoMemory (λ n. n) cur.new.rest result (below_at (2 ^ 32) first cur.old.rest) }
{
    let n = at_most(cur, u64::from(u32::MAX), first)?;
    Ok(n as u32)
}

// A term of tag `x` or `y`.
#[tactic(auto, unfolding(crate::specs::Reading::reg_at))]
fn register(cur: &mut Cursor<'_>) -> Result<Reg, OperandRefusal>
    ensures { Gives OperandRefusal.NoMemory (λ r. r) cur.new.rest result (reg_at cur.old.rest) }
{
    let first = cur.byte().ok_or(OperandRefusal::Cut)?;
    match first % 8 {
        3 => Ok(Reg::X(at_most_32(cur, first)?)),
        4 => Ok(Reg::Y(at_most_32(cur, first)?)),
        _ => Err(OperandRefusal::Inner),
    }
}

// What follows tag `z`, by its number.
#[tactic(auto, unfolding(crate::specs::Reading::extended_by))]
fn extended(cur: &mut Cursor<'_>, value: u64) -> Result<Head, OperandRefusal>
    ensures { Gives OperandRefusal.NoMemory (λ h. h) cur.new.rest result (extended_by value cur.old.rest) }
{
    match value {
        1 => Ok(Head::List),
        2 => Ok(Head::Plain(Plain::Fr(unsigned(cur)?))),
        3 => Ok(Head::Alloc),
        4 => Ok(Head::Plain(Plain::Lit(unsigned(cur)?))),
        5 => {
            let reg = register(cur)?;
            let type_number = unsigned(cur)?;
            Ok(Head::Plain(Plain::Typed(reg, type_number)))
        }
        _ => Err(OperandRefusal::Extended { value }),
    }
}

// What a first byte begins, by its tag: `u`, `i`, `a`, `x`, `y`, `f`, `h` and `z` in this order from 0.
#[tactic(auto, unfolding(crate::specs::Reading::tagged))]
fn by_tag(alloc: Global, cur: &mut Cursor<'_>, first: u8) -> Result<Head, OperandRefusal>
    ensures { Gives OperandRefusal.NoMemory (λ h. h) cur.new.rest result (tagged (first % 8) first cur.old.rest) }
{
    match first % 8 {
        0 => Ok(Head::Plain(Plain::U(at_most(cur, u64::MAX, first)?))),
        1 => Ok(Head::Plain(integer(alloc, cur, first)?)),
        2 => Ok(Head::Plain(Plain::A(at_most_32(cur, first)?))),
        3 => Ok(Head::Plain(Plain::X(at_most_32(cur, first)?))),
        4 => Ok(Head::Plain(Plain::Y(at_most_32(cur, first)?))),
        5 => Ok(Head::Plain(Plain::F(at_most_32(cur, first)?))),
        6 => Ok(Head::Plain(Plain::H(at_most_32(cur, first)?))),
        _ => {
            let value = at_most(cur, u64::MAX, first)?;
            extended(cur, value)
        }
    }
}

// What the bytes begin with.
#[tactic(auto, unfolding(crate::specs::Reading::head_at))]
fn beginning(alloc: Global, cur: &mut Cursor<'_>) -> Result<Head, OperandRefusal>
    ensures { Gives OperandRefusal.NoMemory (λ h. h) cur.new.rest result (head_at cur.old.rest) }
{
    let first = cur.byte().ok_or(OperandRefusal::Cut)?;
    by_tag(alloc, cur, first)
}

// A member of a list.
#[tactic(auto, unfolding(crate::specs::Reading::member_at))]
fn member(alloc: Global, cur: &mut Cursor<'_>) -> Result<Plain, OperandRefusal>
    ensures { Gives OperandRefusal.NoMemory (λ p. p) cur.new.rest result (member_at cur.old.rest) }
{
    match beginning(alloc, cur)? {
        Head::Plain(plain) => Ok(plain),
        Head::List | Head::Alloc => Err(OperandRefusal::Nested),
    }
}

// The members of a list, as many as it states. No room is taken by their stated number.
fn members(alloc: Global, cur: &mut Cursor<'_>, count: u64) -> Result<PlainList, OperandRefusal>
    ensures { Gives OperandRefusal.NoMemory (λ ps. ps) cur.new.rest result (many_at member_at count cur.old.rest) }
{
    let mut list = PlainList::new(alloc);
    for _ in 0..count {
        let plain = member(alloc, cur)?;
        list.push(plain)?;
    }
    Ok(list)
}

// A kind and an amount.
#[tactic(auto, unfolding(crate::specs::Reading::pair_at))]
fn pair(cur: &mut Cursor<'_>) -> Result<(u64, u64), OperandRefusal>
    ensures { Gives OperandRefusal.NoMemory (λ p. p) cur.new.rest result (pair_at cur.old.rest) }
{
    let kind = unsigned(cur)?;
    let amount = unsigned(cur)?;
    Ok((kind, amount))
}

// The pairs of an allocation list, in the same way.
fn pairs(alloc: Global, cur: &mut Cursor<'_>, count: u64) -> Result<PairList, OperandRefusal>
    ensures { Gives OperandRefusal.NoMemory (λ ps. ps) cur.new.rest result (many_at pair_at count cur.old.rest) }
{
    let mut list = PairList::new(alloc);
    for _ in 0..count {
        let pair = pair(cur)?;
        list.push(pair)?;
    }
    Ok(list)
}

// An operand with all its parts.
#[tactic(auto, unfolding(crate::specs::Reading::operand_at))]
fn whole_operand(alloc: Global, cur: &mut Cursor<'_>) -> Result<Operand, OperandRefusal>
    ensures { Gives OperandRefusal.NoMemory (λ o. o) cur.new.rest result (operand_at cur.old.rest) }
{
    match beginning(alloc, cur)? {
        Head::Plain(plain) => Ok(Operand::One(plain)),
        Head::List => {
            let count = unsigned(cur)?;
            Ok(Operand::List(members(alloc, cur, count)?))
        }
        Head::Alloc => {
            let count = unsigned(cur)?;
            Ok(Operand::Alloc(pairs(alloc, cur, count)?))
        }
    }
}

// The operand at the front of the bytes, and how many of them spell it. It stands apart, so that
// operands of one or two bytes don't pay for its room.
#[inline(never)]
fn front(alloc: Global, bytes: &[u8]) -> Result<(Operand, usize), OperandRefusal>
    ensures found { IfOk result (λ r. Begins (Spells r.0) bytes.now (drop r.1 bytes.now)) }
    ensures within { IfOk result (λ r. r.1 ≤ length bytes.now) }
    ensures proper { IfOk result (λ r. IsProper r.0) }
    ensures meets_type { IfOk result (λ r. MeetsType r.0) }
    ensures read { IfOk result (λ r. operand_at bytes.now ≡ Ok (r.0, drop r.1 bytes.now)) }
    ensures refused { IfErr result (λ e. Fails OperandRefusal.NoMemory e (operand_at bytes.now)) }
{
    let mut cur = Cursor::new(bytes);
    let operand = whole_operand(alloc, &mut cur)?;
    let len = bytes.len() - cur.rest().len();
    Ok((operand, len))
}

// The plain operand that a first byte begins whose number is `n`, unless more follows by its tag.
#[tactic(auto, using(crate::proofs::Small::short_below, crate::proofs::Small::short_integer), unfolding(crate::specs::Reading::tagged))]
fn plain_of(first: u8, n: u32) -> Option<Plain>
    requires { first < 248 }
    ensures { IfSome result (λ p. (bytes rest : List ℕ) → short_at first bytes ≡ giving (pos n) rest → tagged (first % 8) first bytes ≡ giving (heads.Plain p) rest) }
{
    match first % 8 {
        0 => Some(Plain::U(u64::from(n))),
        1 => Some(Plain::I(Integer128::from(i128::from(n)))),
        2 => Some(Plain::A(n)),
        3 => Some(Plain::X(n)),
        4 => Some(Plain::Y(n)),
        5 => Some(Plain::F(n)),
        6 => Some(Plain::H(n)),
        _ => None,
    }
}

// The number in the forms of one and of two bytes, and how many of these stand behind the first.
#[tactic(auto, unfolding(crate::specs::Reading::short_at))]
fn small_number(first: u8, rest: &[u8]) -> Option<(u32, usize)>
    ensures read { IfSome result (λ r. short_at first rest.now ≡ giving (pos r.0) (drop r.1 rest.now)) }
    ensures within { IfSome result (λ r. r.1 ≤ length rest.now) }
    ensures short { IfSome result (λ _. first < 248) }
{
    if first / 8 % 2 == 0 {
        return Some((u32::from(first / 16), 0));
    }
    if first / 16 % 2 != 0 {
        return None;
    }
    let low = *rest.first()?;
    Some((256 * u32::from(first / 32) + u32::from(low), 1))
}

// The operand at the front of the bytes, where one or two of them spell it, and how many do.
#[tactic(auto, unfolding(crate::specs::Reading::head_at, crate::specs::Reading::operand_at))]
fn small_front(bytes: &[u8]) -> Option<(Operand, usize)>
    ensures found { IfSome result (λ r. Begins (Spells r.0) bytes.now (drop r.1 bytes.now)) }
    ensures within { IfSome result (λ r. r.1 ≤ length bytes.now) }
    ensures proper { IfSome result (λ r. IsProper r.0) }
    ensures meets_type { IfSome result (λ r. MeetsType r.0) }
    ensures read { IfSome result (λ r. operand_at bytes.now ≡ Ok (r.0, drop r.1 bytes.now)) }
{
    let [first, rest @ ..] = bytes else {
        return None;
    };
    let (n, more) = small_number(*first, rest)?;
    let plain = plain_of(*first, n)?;
    Some((Operand::One(plain), 1 + more))
}

/// The operand at the front of what is left. The cursor moves past just its bytes, and stays after a
/// refusal.
///
/// Every spelling is read, not only the shortest. Bytes that begin no operand are refused by what is
/// wrong with them first from the left, in this order: a tag is looked at before its number, a length
/// of more than 16 bytes under another tag than `i` before these bytes, and the bound of a number
/// after its bytes.
#[inline]
pub fn read_operand(alloc: Global, cur: &mut Cursor<'_>) -> Result<Operand, OperandRefusal>
    // What was read is spelled there, and the cursor is just behind it.
    ensures found { IfOk result (λ o. Begins (Spells o) cur.old.rest cur.new.rest) }
    ensures end { end_of cur.new ≡ end_of cur.old }
    ensures proper { IfOk result IsProper }
    ensures meets_type { IfOk result MeetsType }

    // What is spelled there is read, unless memory runs out.
    ensures only { (o : Operand) (text more : List ℕ) → Spells o text → cur.old.rest ≡ text ++ more
        → (result ≡ Ok o) ⊎ (result ≡ Err OperandRefusal.NoMemory) }

    // What it reads from the left, which refusal it is, and what that leaves.
    ensures read { Gives OperandRefusal.NoMemory (λ o. o) cur.new.rest result (operand_at cur.old.rest) }
    ensures unmoved { OnErr result (cur.new ≡ cur.old) }
{
    let bytes = cur.rest();
    if let Some((operand, len)) = small_front(bytes) {
        let _ = cur.take(len);
        return Ok(operand);
    }
    let (operand, len) = front(alloc, bytes)?;
    let _ = cur.take(len);
    Ok(operand)
}
