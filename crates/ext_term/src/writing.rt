//! Writing terms.

ghost use Rattle.std.specs.Prelude.{◌≡◌, ◌<◌, ◌≤◌, ◌^◌, ◌++◌, length, map, is_some, All, IfOk, OnOk};
ghost use Rattle.std.specs.List.{flat_map, list_all};
ghost use Rattle.byteorder.specs.Endian.{big_bytes};
ghost use Rattle.ext_term.specs.Writing.{IsWritable, CanBeWritten, term_written, spelling, file_spelling, pair_bytes, integer_written, has_32_bits, bits_32, significant, big_bytes_of, atom_bytes, is_string, string_bytes, tuple_head, binary_bytes, bits_bytes, export_bytes};

use crate::tags::{
    BINARY, BITS, EXPORT, INTEGER, LARGE_BIG, LARGE_TUPLE, LIST, LONG_ATOM, MAP, NIL, SHORT_ATOM,
    SMALL_BIG, SMALL_INTEGER, SMALL_TUPLE, STRING, VERSION,
};
use crate::term::Term;
use bk_base::{Bytes, NoMemory};
use std::alloc::Global;

/// The file that holds a term: the version, 131, and one spelling of the term.
///
/// An integer takes one byte from 0 to 255, four bytes where it has 32 bits in two's complement, and
/// else as many as its magnitude has without zeros at its top. A [`Term::Wide`] keeps all bytes of its
/// magnitude. A length stands in one byte where that holds it and the tag has such a form, and else in
/// two or four. A proper list of 1 to 65,535 integers from 0 to 255 is written as bytes.
///
/// A term can be written where zero isn't negative, a [`Term::Wide`] has 17 bytes or more, a bit string
/// has a byte and 1 to 8 bits in its last one, a name has less than 65,536 bytes, all else less than
/// 4,294,967,296 bytes, items or pairs, and at most 256 terms stand in one another: the parts of an
/// external function count there, and the integers of a list that is written as bytes don't. These are
/// just the terms that the file spells ([`crate::canonical`]). It fails only for want of memory.
pub fn write_term(alloc: Global, t: &Term) -> Result<Bytes, NoMemory>
    requires { IsWritable 256 t.now }
    ensures { IfOk result (λ out. out.items ≡ file_spelling t.now) }
{
    let mut out = Bytes::new(alloc);
    out.push(VERSION)?;
    put_term(t, &mut out)?;
    Ok(out)
}

// The spelling of a term.
#[cycle(writing)]
#[tactic(auto, using(crate::proofs::Written::spellings))]
fn put_term(t: &Term, out: &mut Bytes) -> Result<(), NoMemory>
    requires { CanBeWritten t.now }
    ensures { OnOk result (out.new.items ≡ out.old.items ++ spelling t.now) }
{
    match t {
        Term::Int { neg, mag } => put_integer(*neg, *mag, out),
        Term::Wide { neg, mag } => put_big(*neg, mag.as_slice(), out),
        Term::Atom(name) => put_atom(name.as_bytes(), out),
        Term::Tuple(items) => {
            put_tuple_head(items.len(), out)?;
            put_terms(items.as_slice(), out)
        }
        Term::Nil => out.push(NIL),
        Term::List(items, tail) => {
            let items = items.as_slice();
            let tail = tail.get();
            if is_string(items, tail) {
                return put_string(items, out);
            }
            out.push(LIST)?;
            put_count(items.len(), out)?;
            put_terms(items, out)?;
            put_term(tail, out)
        }
        Term::Binary(bytes) => put_binary(bytes.as_slice(), out),
        Term::Bits { bytes, last } => put_bits(bytes.as_slice(), *last, out),
        Term::Map(pairs) => {
            out.push(MAP)?;
            put_count(pairs.len(), out)?;
            put_pairs(pairs.as_slice(), out)
        }
        Term::Export(owner, name, arity) => {
            put_export(owner.as_bytes(), name.as_bytes(), *arity, out)
        }
    }
}

// The spellings of terms, one after another.
#[cycle(writing)]
fn put_terms(items: &[Term], out: &mut Bytes) -> Result<(), NoMemory>
    requires { All CanBeWritten items.now }
    ensures { OnOk result (out.new.items ≡ out.old.items ++ flat_map spelling items.now) }
{
    for t in items {
        put_term(t, out)?;
    }
    Ok(())
}

// The spellings of keys, each with that of its value behind it.
#[cycle(writing)]
fn put_pairs(pairs: &[(Term, Term)], out: &mut Bytes) -> Result<(), NoMemory>
    requires { All (λ pair. CanBeWritten pair.0 × CanBeWritten pair.1) pairs.now }
    ensures { OnOk result (out.new.items ≡ out.old.items ++ flat_map pair_bytes pairs.now) }
{
    for (key, value) in pairs {
        put_term(key, out)?;
        put_term(value, out)?;
    }
    Ok(())
}

// An integer of at most 16 bytes.
#[tactic(auto, unfolding(crate::specs::Writing::integer_written))]
fn put_integer(neg: bool, mag: u128, out: &mut Bytes) -> Result<(), NoMemory>
    ensures { OnOk result (out.new.items ≡ out.old.items ++ (integer_written neg mag).bytes) }
{
    if !neg && mag < 256 {
        return out.extend(&[SMALL_INTEGER, mag as u8]);
    }
    if has_32_bits(neg, mag) {
        out.push(INTEGER)?;
        return out.extend(&bits_32(neg, mag as u32).to_be_bytes());
    }
    put_significant(neg, mag, out)
}

// Whether an integer has 32 bits in two's complement.
fn has_32_bits(neg: bool, mag: u128) -> bool
    ensures { result ≡ has_32_bits neg mag }
{
    if neg { mag <= 1 << 31 } else { mag < 1 << 31 }
}

// These bits.
fn bits_32(neg: bool, mag: u32) -> u32
    ensures { big_bytes 4 result ≡ big_bytes 4 (bits_32 neg mag) }
{
    if neg { mag.wrapping_neg() } else { mag }
}

// An integer by the bytes of its magnitude, without zeros at their top.
fn put_significant(neg: bool, mag: u128, out: &mut Bytes) -> Result<(), NoMemory>
    ensures { OnOk result (out.new.items ≡ out.old.items ++ big_bytes_of neg (significant 16 mag)) }
{
    let bytes = mag.to_le_bytes();
    put_big(neg, &bytes[..significant_len(mag)], out)
}

// How many bytes a magnitude has without zeros at its top.
#[tactic(auto, using(crate::proofs::Magnitude::significant_length, crate::proofs::Magnitude::significant_few))]
fn significant_len(mag: u128) -> usize
    ensures value { result ≡ length (significant 16 mag) }
    ensures most { result ≤ 16 }
{
    16 - mag.leading_zeros() as usize / 8
}

// An integer by the bytes of its magnitude, the lowest first.
fn put_big(neg: bool, mag: &[u8], out: &mut Bytes) -> Result<(), NoMemory>
    requires { length mag.now < 2 ^ 32 }
    ensures { OnOk result (out.new.items ≡ out.old.items ++ big_bytes_of neg mag.now) }
{
    let len = mag.len();
    if len < 256 {
        out.extend(&[SMALL_BIG, len as u8])?;
    } else {
        out.push(LARGE_BIG)?;
        put_count(len, out)?;
    }
    out.push(u8::from(neg))?;
    out.extend(mag)
}

// A number in four bytes, the highest first.
fn put_count(n: usize, out: &mut Bytes) -> Result<(), NoMemory>
    requires { n < 2 ^ 32 }
    ensures { OnOk result (out.new.items ≡ out.old.items ++ big_bytes 4 n) }
{
    out.extend(&(n as u32).to_be_bytes())
}

// An atom by its name.
#[tactic(auto, unfolding(crate::specs::Writing::atom_bytes))]
fn put_atom(name: &[u8], out: &mut Bytes) -> Result<(), NoMemory>
    requires { length name.now < 65536 }
    ensures { OnOk result (out.new.items ≡ out.old.items ++ atom_bytes name.now) }
{
    let len = name.len();
    if len < 256 {
        out.extend(&[SHORT_ATOM, len as u8])?;
    } else {
        out.push(LONG_ATOM)?;
        out.extend(&(len as u16).to_be_bytes())?;
    }
    out.extend(name)
}

// The tag of a tuple, and how many terms it has.
fn put_tuple_head(n: usize, out: &mut Bytes) -> Result<(), NoMemory>
    requires { n < 2 ^ 32 }
    ensures { OnOk result (out.new.items ≡ out.old.items ++ tuple_head n) }
{
    if n < 256 {
        return out.extend(&[SMALL_TUPLE, n as u8]);
    }
    out.push(LARGE_TUPLE)?;
    put_count(n, out)
}

// Whether a list is written as bytes.
#[tactic(auto, using(crate::proofs::Written::mapped))]
fn is_string(items: &[Term], tail: &Term) -> bool
    ensures { result ≡ is_string (map term_written items.now) (term_written tail.now) }
{
    is_nil(tail) && !items.is_empty() && items.len() < 65536 && are_bytes(items)
}

// Whether a term is the empty list.
#[tactic(auto, unfolding(crate::specs::Writing::term_written, crate::specs::Writing::integer_written))]
fn is_nil(t: &Term) -> bool
    ensures { result ≡ (term_written t.now).is_nil }
{
    matches!(t, Term::Nil)
}

// Whether all terms are integers from 0 to 255.
fn are_bytes(items: &[Term]) -> bool
    ensures { result ≡ list_all (λ t. is_some (term_written t).byte) items.now }
{
    items.iter().all(|t| byte_of(t).is_some())
}

// The number of an integer from 0 to 255.
#[tactic(auto, unfolding(crate::specs::Writing::term_written, crate::specs::Writing::integer_written))]
fn byte_of(t: &Term) -> Option<u8>
    ensures { result ≡ (term_written t.now).byte }
{
    match t {
        Term::Int { neg: false, mag } if *mag < 256 => Some(*mag as u8),
        _ => None,
    }
}

// A list as bytes: those of its terms.
fn put_string(items: &[Term], out: &mut Bytes) -> Result<(), NoMemory>
    requires { length items.now < 65536 }
    ensures { OnOk result (out.new.items ≡ out.old.items ++ string_bytes (map term_written items.now)) }
{
    out.push(STRING)?;
    out.extend(&(items.len() as u16).to_be_bytes())?;
    for t in items {
        if let Some(byte) = byte_of(t) {
            out.push(byte)?;
        }
    }
    Ok(())
}

// A binary.
fn put_binary(bytes: &[u8], out: &mut Bytes) -> Result<(), NoMemory>
    requires { length bytes.now < 2 ^ 32 }
    ensures { OnOk result (out.new.items ≡ out.old.items ++ binary_bytes bytes.now) }
{
    out.push(BINARY)?;
    put_count(bytes.len(), out)?;
    out.extend(bytes)
}

// A bit string: its bytes, and how many bits of the last one belong to it.
fn put_bits(bytes: &[u8], last: u8, out: &mut Bytes) -> Result<(), NoMemory>
    requires { length bytes.now < 2 ^ 32 }
    ensures { OnOk result (out.new.items ≡ out.old.items ++ bits_bytes bytes.now last) }
{
    out.push(BITS)?;
    put_count(bytes.len(), out)?;
    out.push(last)?;
    out.extend(bytes)
}

// An external function, by the names of its module and of itself.
fn put_export(owner: &[u8], name: &[u8], arity: u8, out: &mut Bytes) -> Result<(), NoMemory>
    requires owner { length owner.now < 65536 }
    requires name { length name.now < 65536 }
    ensures { OnOk result (out.new.items ≡ out.old.items ++ export_bytes owner.now name.now arity) }
{
    out.push(EXPORT)?;
    put_atom(owner, out)?;
    put_atom(name, out)?;
    out.extend(&[SMALL_INTEGER, arity])
}
