//! Writing numbers in compact form.

ghost use Rattle.std.specs.Prelude.{◌≡◌, ℕ, ◌+◌, ◌<◌, ◌≤◌, ◌++◌, pos, false, length, OnOk, OnErr};
ghost use Rattle.compact_term.specs.Canonical.{magnitude, fewest, is_natural_below, canonical_number};

use crate::number::LONG;
use bk_base::{Bytes, NoMemory};
use byteorder::{BigEndian, ByteOrder};

// The numbers below these stand in four bits, and in eleven.
const FOUR_BITS: u64 = 16;

const ELEVEN_BITS: u64 = 2048;

// The most bytes that a number takes: 16, and what stands before them.
const MOST: usize = 18;

// The number, or one less than its size where it is negative.
fn magnitude(z: i128) -> u128
    ensures value { result ≡ magnitude z }
{
    if z < 0 { -(z + 1) as u128 } else { z as u128 }
}

// In how many bytes a number stands: the fewest that hold it, and two at least.
#[tactic(auto, using(crate::proofs::Written::fewest_by_zeros, crate::proofs::Written::fewest_most))]
fn fewest(z: i128) -> usize
    ensures value { result ≡ fewest z }
    ensures least { 2 ≤ result }
    ensures most { result ≤ 16 }
{
    let zeros = magnitude(z).leading_zeros() as usize;
    ((136 - zeros) / 8).max(2)
}

/// How many bytes the canonical form of a number takes, under any tag.
#[inline]
#[tactic(auto, using(crate::proofs::Written::in_four_bits, crate::proofs::Written::in_eleven_bits))]
pub(crate) fn natural_len(n: u64) -> usize
    ensures value { (tag : ℕ) → length (canonical_number tag (pos n)) ≡ result }
    ensures most { result ≤ 18 }
{
    if n < FOUR_BITS {
        1
    } else if n < ELEVEN_BITS {
        2
    } else {
        len_in_bytes(i128::from(n))
    }
}

/// How many bytes the canonical form of an integer takes, under any tag.
pub(crate) fn integer_len(z: i128) -> usize
    ensures value { (tag : ℕ) → length (canonical_number tag z) ≡ result }
    ensures most { result ≤ 18 }
{
    if 0 <= z && z < i128::from(ELEVEN_BITS) {
        natural_len(z as u64)
    } else {
        len_in_bytes(z)
    }
}

// How many bytes a number takes that stands in two bytes or more behind the first one.
#[tactic(auto, using(crate::proofs::Written::in_few_bytes, crate::proofs::Written::in_many_bytes, crate::proofs::Written::bytes_of_length))]
fn len_in_bytes(z: i128) -> usize
    requires { is_natural_below 2048 z ≡ false }
    ensures value { (tag : ℕ) → length (canonical_number tag z) ≡ result }
    ensures most { result ≤ 18 }
{
    let n = fewest(z);
    if n <= 8 { n + 1 } else { n + 2 }
}

/// Puts a number that is not negative at the end, in its canonical form. It is refused only where the
/// room is smaller.
#[inline]
#[tactic(auto, using(crate::proofs::Written::in_four_bits, crate::proofs::Written::in_eleven_bits))]
pub(crate) fn put_natural(tag: u8, n: u64, out: &mut Bytes) -> Result<(), NoMemory>
    requires { tag < 8 }
    ensures ok { OnOk result (out.new.items ≡ out.old.items ++ canonical_number tag (pos n)) }
    ensures reserved { OnErr result (out.old.room < length (canonical_number tag (pos n))) }
    ensures room { out.old.room ≤ out.new.room + length (canonical_number tag (pos n)) }
{
    if n < FOUR_BITS {
        out.push(16 * n as u8 + tag)
    } else if n < ELEVEN_BITS {
        out.extend(&[32 * (n / 256) as u8 + 8 + tag, (n % 256) as u8])
    } else {
        put_in_bytes(tag, i128::from(n), out)
    }
}

/// Puts an integer at the end, in the same way.
pub(crate) fn put_integer(tag: u8, z: i128, out: &mut Bytes) -> Result<(), NoMemory>
    requires { tag < 8 }
    ensures ok { OnOk result (out.new.items ≡ out.old.items ++ canonical_number tag z) }
    ensures reserved { OnErr result (out.old.room < length (canonical_number tag z)) }
    ensures room { out.old.room ≤ out.new.room + length (canonical_number tag z) }
{
    if 0 <= z && z < i128::from(ELEVEN_BITS) {
        put_natural(tag, z as u64, out)
    } else {
        put_in_bytes(tag, z, out)
    }
}

// Puts a number in two bytes or more behind the first one, which says how many they are up to eight;
// above, a byte of its own does.
fn put_in_bytes(tag: u8, z: i128, out: &mut Bytes) -> Result<(), NoMemory>
    requires tag { tag < 8 }
    requires wide { is_natural_below 2048 z ≡ false }
    ensures ok { OnOk result (out.new.items ≡ out.old.items ++ canonical_number tag z) }
    ensures reserved { OnErr result (out.old.room < length (canonical_number tag z)) }
    ensures room { out.old.room ≤ out.new.room + length (canonical_number tag z) }
{
    let n = fewest(z);
    let mut spelled = [0; MOST];
    if n <= 8 {
        spelled[0] = 32 * (n - 2) as u8 + 24 + tag;
        BigEndian::write_int128(&mut spelled[1..], z, n);
        return out.extend(&spelled[..n + 1]);
    }
    spelled[0] = LONG + tag;
    spelled[1] = 16 * (n - 9) as u8;
    BigEndian::write_int128(&mut spelled[2..], z, n);
    out.extend(&spelled[..n + 2])
}
