//! Numbers in compact form, behind their first byte.

ghost use Rattle.std.specs.Prelude.{◌≡◌, ◌+◌, ◌<◌, ◌≤◌, ◌%◌, IfOk};
ghost use Rattle.byteorder.specs.Endian.{twos_complement};
ghost use Rattle.bk_codec.specs.Reading.{Gives, made_of, number_at};
ghost use Rattle.compact_term.specs.Reading.{short_at, natural, length_at, whole_at, below_at};

use crate::refusal::OperandRefusal;
use bk_base::Cursor;
use byteorder::{BigEndian, ByteOrder};

/// The least first byte of the form that states how many bytes it has.
pub(crate) const LONG: u8 = 248;

/// The most bytes of an integer that is kept as a number.
pub(crate) const MOST_BYTES: u64 = 16;

/// The number in the forms of up to eight bytes.
#[tactic(auto, unfolding(crate::specs::Reading::short_at))]
pub(crate) fn short(cur: &mut Cursor<'_>, first: u8) -> Result<i64, OperandRefusal>
    requires { first < 248 }
    ensures { Gives OperandRefusal.NoMemory (λ z. z) cur.new.rest result (short_at first cur.old.rest) }
{
    if first / 8 % 2 == 0 {
        return Ok(i64::from(first / 16));
    }
    if first / 16 % 2 == 0 {
        let low = cur.byte().ok_or(OperandRefusal::Cut)?;
        return Ok(i64::from(first / 32) * 256 + i64::from(low));
    }
    let n = usize::from(first / 32) + 2;
    let bytes = cur.take(n).ok_or(OperandRefusal::Cut)?;
    Ok(BigEndian::read_int(bytes, n))
}

/// The number, where it is not negative and at most `max`.
pub(crate) fn natural_of(max: u64, tag: u8, z: i128) -> Result<u64, OperandRefusal>
    ensures value { result ≡ natural (max + 1) tag z }
    ensures within { IfOk result (λ n. n ≤ max) }
{
    if z < 0 {
        return Err(OperandRefusal::Negative { tag });
    }
    if z > i128::from(max) {
        return Err(OperandRefusal::Wide { tag });
    }
    Ok(z as u64)
}

/// How many bytes the longest form has: nine or more.
#[tactic(auto, unfolding(crate::specs::Reading::length_at))]
pub(crate) fn length(cur: &mut Cursor<'_>) -> Result<u64, OperandRefusal>
    ensures value { Gives OperandRefusal.NoMemory (λ n. n) cur.new.rest result (length_at cur.old.rest) }
    ensures least { IfOk result (λ n. 9 ≤ n) }
{
    let first = cur.byte().ok_or(OperandRefusal::Cut)?;
    if first % 8 != 0 {
        return Err(OperandRefusal::Inner);
    }
    if first >= LONG {
        return Err(OperandRefusal::Wide { tag: 0 });
    }
    let z = short(cur, first)?;
    let more = natural_of(u64::MAX, 0, i128::from(z))?;
    Ok(more + 9)
}

/// The number in 9 to 16 bytes.
pub(crate) fn long(cur: &mut Cursor<'_>, n: u64) -> Result<i128, OperandRefusal>
    requires few { n ≤ 16 }
    requires least { 9 ≤ n }
    ensures { Gives OperandRefusal.NoMemory (λ z. z) cur.new.rest result (made_of (twos_complement n) (number_at OperandRefusal.Cut n cur.old.rest)) }
{
    let n = n as usize;
    let bytes = cur.take(n).ok_or(OperandRefusal::Cut)?;
    Ok(BigEndian::read_int128(bytes, n))
}

/// The number of up to 16 bytes.
#[tactic(auto, unfolding(crate::specs::Reading::whole_at))]
pub(crate) fn whole(cur: &mut Cursor<'_>, first: u8) -> Result<i128, OperandRefusal>
    ensures { Gives OperandRefusal.NoMemory (λ z. z) cur.new.rest result (whole_at first cur.old.rest) }
{
    if first < LONG {
        return Ok(i128::from(short(cur, first)?));
    }
    let n = length(cur)?;
    if n > MOST_BYTES {
        return Err(OperandRefusal::Wide { tag: first % 8 });
    }
    long(cur, n)
}

// The number behind its first byte, where it is not negative and at most `max`.
#[tactic(auto, unfolding(crate::specs::Reading::below_at))]
fn bounded(cur: &mut Cursor<'_>, max: u64, first: u8) -> Result<u64, OperandRefusal>
    ensures value { Gives OperandRefusal.NoMemory (λ n. n) cur.new.rest result (below_at (max + 1) first cur.old.rest) }
    ensures within { IfOk result (λ n. n ≤ max) }
{
    let z = whole(cur, first)?;
    natural_of(max, first % 8, z)
}

/// The number behind its first byte, where it is not negative and at most `max`. Most numbers stand
/// in the first byte itself.
#[inline]
#[tactic(auto, unfolding(crate::specs::Reading::below_at, crate::specs::Reading::whole_at, crate::specs::Reading::short_at))]
pub(crate) fn at_most(cur: &mut Cursor<'_>, max: u64, first: u8) -> Result<u64, OperandRefusal>
    requires { 15 ≤ max }
    ensures value { Gives OperandRefusal.NoMemory (λ n. n) cur.new.rest result (below_at (max + 1) first cur.old.rest) }
    ensures within { IfOk result (λ n. n ≤ max) }
{
    if first / 8 % 2 == 0 {
        return Ok(u64::from(first / 16));
    }
    bounded(cur, max, first)
}
