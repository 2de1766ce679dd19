//! Writing an operand.

ghost use Rattle.std.specs.Prelude.{◌≡◌, ℕ, ◌+◌, ◌<◌, ◌≤◌, ◌^◌, List, ◌++◌, pos, length, All, OnOk, OnErr};
ghost use Rattle.std.specs.List.{flat_map};
ghost use Rattle.compact_term.specs.Canonical.{canonical_short, in_many_bytes, canonical_u, canonical_z, canonical_reg, canonical_plain, canonical_pair, canonical};
ghost use Rattle.compact_term.specs.Operand.{PlainIsProper, IsProper};

use crate::number::LONG;
use crate::number_writing::{integer_len, natural_len, put_integer, put_natural};
use crate::operand::{Operand, Plain, Reg};
use crate::tags::{A, ALLOC, F, FLOAT, H, I, LIST, LITERAL, TYPED, U, X, Y, Z};
use bk_base::{Bytes, NoMemory};

/// How many bytes the canonical spelling of an operand has. It takes no memory.
pub fn spelled_len(op: &Operand) -> usize
    requires proper { IsProper op.now }
    requires fits { length (canonical op.now) < 2 ^ 63 }
    ensures { result ≡ length (canonical op.now) }
{
    match op {
        Operand::One(plain) => plain_len(plain),
        Operand::List(list) => natural_len(LIST)
            + natural_len(list.len() as u64)
            + members_len(list.as_slice()),
        Operand::Alloc(list) => natural_len(ALLOC)
            + natural_len(list.len() as u64)
            + pairs_len(list.as_slice()),
    }
}

// How many bytes the members of a list take.
#[tactic(auto, using(crate::proofs::Written::members_within))]
fn members_len(members: &[Plain]) -> usize
    requires proper { All PlainIsProper members.now }
    requires fits { length (flat_map canonical_plain members.now) < 2 ^ 63 }
    ensures { result ≡ length (flat_map canonical_plain members.now) }
{
    let mut len = 0;
    for plain in members {
        len += plain_len(plain);
    }
    len
}

// How many bytes the pairs of an allocation list take.
#[tactic(auto, using(crate::proofs::Written::pairs_within))]
fn pairs_len(pairs: &[(u64, u64)]) -> usize
    requires fits { length (flat_map canonical_pair pairs.now) < 2 ^ 63 }
    ensures { result ≡ length (flat_map canonical_pair pairs.now) }
{
    let mut len = 0;
    for (kind, amount) in pairs {
        len += natural_len(*kind) + natural_len(*amount);
    }
    len
}

// How many bytes an operand takes that holds no others.
fn plain_len(plain: &Plain) -> usize
    requires proper { PlainIsProper plain.now }
    requires fits { length (canonical_plain plain.now) < 2 ^ 63 }
    ensures { result ≡ length (canonical_plain plain.now) }
{
    match plain {
        Plain::U(n) => natural_len(*n),
        Plain::I(z) => integer_len(z.value()),
        Plain::Wide(w) => wide_len(w.as_slice()),
        Plain::A(n) | Plain::X(n) | Plain::Y(n) | Plain::F(n) | Plain::H(n) => {
            natural_len(u64::from(*n))
        }
        Plain::Fr(n) => natural_len(FLOAT) + natural_len(*n),
        Plain::Lit(n) => natural_len(LITERAL) + natural_len(*n),
        Plain::Typed(reg, type_number) => natural_len(TYPED)
            + reg_len(*reg)
            + natural_len(*type_number),
    }
}

// How many bytes a register takes.
fn reg_len(reg: Reg) -> usize
    ensures value { result ≡ length (canonical_reg reg) }
    ensures most { result ≤ 18 }
{
    match reg {
        Reg::X(n) | Reg::Y(n) => natural_len(u64::from(n)),
    }
}

// How many bytes an integer of 17 bytes or more takes.
fn wide_len(number: &[u8]) -> usize
    requires least { 17 ≤ length number.now }
    requires most { length number.now < 2 ^ 63 }
    ensures { result ≡ length (in_many_bytes 1 number.now) }
{
    1 + count_len((number.len() - 9) as u64) + number.len()
}

// How many bytes the count takes that stands before the bytes of an integer.
#[tactic(auto, using(crate::proofs::Written::count_form))]
fn count_len(n: u64) -> usize
    requires { n < 2 ^ 63 }
    ensures value { result ≡ length (canonical_short 0 (pos n)) }
    ensures most { result ≤ 18 }
{
    natural_len(n)
}

/// Puts the canonical spelling of an operand at the end: each number in the first form that holds it,
/// in the fewest bytes. It is refused for want of memory alone, and then no byte was put; with room
/// for [`spelled_len`] bytes it is not refused.
pub fn write_operand(op: &Operand, out: &mut Bytes) -> Result<(), NoMemory>
    requires proper { IsProper op.now }
    requires fits { length (canonical op.now) < 2 ^ 63 }
    ensures ok { OnOk result (out.new.items ≡ out.old.items ++ canonical op.now) }
    ensures err { OnErr result (out.new.items ≡ out.old.items) }
    ensures reserved { OnErr result (out.old.room < length (canonical op.now)) }
    ensures err_room { OnErr result (out.old.room ≤ out.new.room) }
    ensures room { out.old.room ≤ out.new.room + length (canonical op.now) }
{
    out.reserve(spelled_len(op))?;
    put_operand(op, out)
}

// The spelling of an operand.
fn put_operand(op: &Operand, out: &mut Bytes) -> Result<(), NoMemory>
    requires proper { IsProper op.now }
    requires fits { length (canonical op.now) < 2 ^ 63 }
    ensures ok { OnOk result (out.new.items ≡ out.old.items ++ canonical op.now) }
    ensures reserved { OnErr result (out.old.room < length (canonical op.now)) }
    ensures room { out.old.room ≤ out.new.room + length (canonical op.now) }
{
    match op {
        Operand::One(plain) => put_plain(plain, out),
        Operand::List(list) => {
            put_natural(Z, LIST, out)?;
            put_natural(U, list.len() as u64, out)?;
            put_members(list.as_slice(), out)
        }
        Operand::Alloc(list) => {
            put_natural(Z, ALLOC, out)?;
            put_natural(U, list.len() as u64, out)?;
            put_pairs(list.as_slice(), out)
        }
    }
}

// The spellings of the members of a list, one after another.
#[tactic(auto, using(crate::proofs::Written::members_within))]
fn put_members(members: &[Plain], out: &mut Bytes) -> Result<(), NoMemory>
    requires proper { All PlainIsProper members.now }
    requires fits { length (flat_map canonical_plain members.now) < 2 ^ 63 }
    ensures ok { OnOk result (out.new.items ≡ out.old.items ++ flat_map canonical_plain members.now) }
    ensures reserved { OnErr result (out.old.room < length (flat_map canonical_plain members.now)) }
    ensures room { out.old.room ≤ out.new.room + length (flat_map canonical_plain members.now) }
{
    for plain in members {
        put_plain(plain, out)?;
    }
    Ok(())
}

// The spellings of pairs, one after another.
#[tactic(auto, using(crate::proofs::Written::pairs_within))]
fn put_pairs(pairs: &[(u64, u64)], out: &mut Bytes) -> Result<(), NoMemory>
    ensures ok { OnOk result (out.new.items ≡ out.old.items ++ flat_map canonical_pair pairs.now) }
    ensures reserved { OnErr result (out.old.room < length (flat_map canonical_pair pairs.now)) }
    ensures room { out.old.room ≤ out.new.room + length (flat_map canonical_pair pairs.now) }
{
    for (kind, amount) in pairs {
        put_natural(U, *kind, out)?;
        put_natural(U, *amount, out)?;
    }
    Ok(())
}

// The spelling of an operand that holds no others.
fn put_plain(plain: &Plain, out: &mut Bytes) -> Result<(), NoMemory>
    requires proper { PlainIsProper plain.now }
    requires fits { length (canonical_plain plain.now) < 2 ^ 63 }
    ensures ok { OnOk result (out.new.items ≡ out.old.items ++ canonical_plain plain.now) }
    ensures reserved { OnErr result (out.old.room < length (canonical_plain plain.now)) }
    ensures room { out.old.room ≤ out.new.room + length (canonical_plain plain.now) }
{
    match plain {
        Plain::U(n) => put_natural(U, *n, out),
        Plain::I(z) => put_integer(I, z.value(), out),
        Plain::Wide(w) => put_wide(w.as_slice(), out),
        Plain::A(n) => put_natural(A, u64::from(*n), out),
        Plain::X(n) => put_reg(Reg::X(*n), out),
        Plain::Y(n) => put_reg(Reg::Y(*n), out),
        Plain::F(n) => put_natural(F, u64::from(*n), out),
        Plain::H(n) => put_natural(H, u64::from(*n), out),
        Plain::Fr(n) => put_extended(FLOAT, *n, out),
        Plain::Lit(n) => put_extended(LITERAL, *n, out),
        Plain::Typed(reg, type_number) => {
            put_natural(Z, TYPED, out)?;
            put_reg(*reg, out)?;
            put_natural(U, *type_number, out)
        }
    }
}

// A number behind what tag `z` says.
fn put_extended(z: u64, n: u64, out: &mut Bytes) -> Result<(), NoMemory>
    ensures ok { OnOk result (out.new.items ≡ out.old.items ++ (canonical_z z ++ canonical_u n)) }
    ensures reserved { OnErr result (out.old.room < length (canonical_z z ++ canonical_u n)) }
    ensures room { out.old.room ≤ out.new.room + length (canonical_z z ++ canonical_u n) }
{
    put_natural(Z, z, out)?;
    put_natural(U, n, out)
}

// The spelling of a register.
fn put_reg(reg: Reg, out: &mut Bytes) -> Result<(), NoMemory>
    ensures ok { OnOk result (out.new.items ≡ out.old.items ++ canonical_reg reg) }
    ensures reserved { OnErr result (out.old.room < length (canonical_reg reg)) }
    ensures room { out.old.room ≤ out.new.room + length (canonical_reg reg) }
{
    match reg {
        Reg::X(n) => put_natural(X, u64::from(n), out),
        Reg::Y(n) => put_natural(Y, u64::from(n), out),
    }
}

// An integer of 17 bytes or more, as it is: how many bytes it has, less nine, and the bytes.
fn put_wide(number: &[u8], out: &mut Bytes) -> Result<(), NoMemory>
    requires least { 17 ≤ length number.now }
    requires most { length number.now < 2 ^ 63 }
    ensures ok { OnOk result (out.new.items ≡ out.old.items ++ in_many_bytes 1 number.now) }
    ensures reserved { OnErr result (out.old.room < length (in_many_bytes 1 number.now)) }
    ensures room { out.old.room ≤ out.new.room + length (in_many_bytes 1 number.now) }
{
    out.push(LONG + I)?;
    put_count((number.len() - 9) as u64, out)?;
    out.extend(number)
}

// The count that stands before the bytes of an integer. It takes a form of up to eight bytes.
#[tactic(auto, using(crate::proofs::Written::count_form))]
fn put_count(count: u64, out: &mut Bytes) -> Result<(), NoMemory>
    requires { count < 2 ^ 63 }
    ensures ok { OnOk result (out.new.items ≡ out.old.items ++ canonical_short 0 (pos count)) }
    ensures reserved { OnErr result (out.old.room < length (canonical_short 0 (pos count))) }
    ensures room { out.old.room ≤ out.new.room + length (canonical_short 0 (pos count)) }
{
    put_natural(U, count, out)
}
