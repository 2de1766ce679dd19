//! The text of a term.

ghost use Rattle.std.specs.Prelude.{◌≡◌, ◌++◌, ◌+◌, ◌*◌, ◌-◌, ◌==◌, if◌then◌else◌, [], codes, decimal, length, IfOk, OnOk};
ghost use Rattle.hex.specs.Hex.{encode_lower};
ghost use Rattle.ext_term.specs.Name.{name_text};
ghost use Rattle.ext_term.specs.Text.{commas, sign, term_texts, term_text, pair_text};

use crate::name::name_text;
use crate::term::Term;
use bk_base::{Bytes, NoMemory};
use bk_text::{put_hex, put_hex_backwards, put_number};
use std::alloc::Global;

/// The text of a term, on one line.
///
/// An integer stands in decimal, and one of more than 16 bytes as `16#` and all of its bytes in
/// hexadecimal, either behind a `-` where it is below zero. An atom stands as its name does
/// ([`name_text`]), and the others as `{a,b}`, `[]`, `[a,b]`, `[a,b|tail]`, `<<0a0b>>`, `<<a0/3>>`
/// with the number of all bits, `#{key=>value}` and `fun module:name/arity`. A list of bytes is
/// shown as the list that it is. It fails only where no memory is found.
pub fn term_text(alloc: Global, t: &Term) -> Result<Bytes, NoMemory>
    ensures { IfOk result (λ out. out.items ≡ term_text t.now) }
{
    let mut out = Bytes::new(alloc);
    put_term(t, &mut out)?;
    Ok(out)
}

/// Appends the text of a term to `out`, as [`term_text`] has it.
#[cycle(text)]
#[tactic(auto, unfolding(crate::specs::Text::term_text, crate::specs::Text::term_texts))]
pub fn put_term(t: &Term, out: &mut Bytes) -> Result<(), NoMemory>
    ensures { OnOk result (out.new.items ≡ out.old.items ++ term_text t.now) }
{
    match t {
        Term::Int { neg, mag } => {
            put_sign(out, *neg)?;
            put_number(out, *mag)
        }
        Term::Wide { neg, mag } => {
            put_sign(out, *neg)?;
            out.extend(b"16#")?;
            put_hex_backwards(out, mag.as_slice())
        }
        Term::Atom(name) => name_text(name.as_bytes(), out),
        Term::Tuple(items) => {
            out.push(b'{')?;
            put_items(out, items.as_slice())?;
            out.push(b'}')
        }
        Term::Nil => out.extend(b"[]"),
        Term::List(items, tail) => {
            out.push(b'[')?;
            put_items(out, items.as_slice())?;
            put_tail(out, tail.get())?;
            out.push(b']')
        }
        Term::Binary(bytes) => put_binary(out, bytes.as_slice()),
        Term::Bits { bytes, last } => put_bits(out, bytes.as_slice(), *last),
        Term::Map(pairs) => {
            out.extend(b"#{")?;
            put_pairs(out, pairs.as_slice())?;
            out.push(b'}')
        }
        Term::Export(module, name, arity) => {
            put_export(out, module.as_bytes(), name.as_bytes(), *arity)
        }
    }
}

// Puts the texts of terms at the end, with commas between them.
#[cycle(text)]
fn put_items(out: &mut Bytes, items: &[Term]) -> Result<(), NoMemory>
    ensures { OnOk result (out.new.items ≡ out.old.items ++ commas term_text items.now) }
{
    for (i, t) in items.iter().enumerate() {
        put_comma(out, i)?;
        put_term(t, out)?;
    }
    Ok(())
}

// Puts what stands behind the items of a list at the end: nothing where the tail is the empty list.
#[cycle(text)]
#[tactic(auto, unfolding(crate::specs::Text::term_text, crate::specs::Text::term_texts))]
fn put_tail(out: &mut Bytes, tail: &Term) -> Result<(), NoMemory>
    ensures { OnOk result (out.new.items ≡ out.old.items ++ (term_texts tail.now).as_tail) }
{
    if let Term::Nil = tail {
        return Ok(());
    }
    out.push(b'|')?;
    put_term(tail, out)
}

// Puts the texts of keys and their values at the end, with commas between them.
#[cycle(text)]
fn put_pairs(out: &mut Bytes, pairs: &[(Term, Term)]) -> Result<(), NoMemory>
    ensures { OnOk result (out.new.items ≡ out.old.items ++ commas pair_text pairs.now) }
{
    for (i, pair) in pairs.iter().enumerate() {
        put_comma(out, i)?;
        put_term(&pair.0, out)?;
        out.extend(b"=>")?;
        put_term(&pair.1, out)?;
    }
    Ok(())
}

// Puts what stands before the value of index `i` among those with commas between them.
fn put_comma(out: &mut Bytes, i: usize) -> Result<(), NoMemory>
    ensures { OnOk result (out.new.items ≡ out.old.items ++ (if i == 0 then [] else codes ",")) }
{
    if i == 0 { Ok(()) } else { out.push(b',') }
}

// Puts the text of a binary at the end.
fn put_binary(out: &mut Bytes, bytes: &[u8]) -> Result<(), NoMemory>
    ensures { OnOk result (out.new.items ≡ out.old.items ++ (codes "<<" ++ encode_lower bytes.now ++ codes ">>")) }
{
    out.extend(b"<<")?;
    put_hex(out, bytes)?;
    out.extend(b">>")
}

// Puts the text of a bit string at the end, with the number of all of its bits.
fn put_bits(out: &mut Bytes, bytes: &[u8], last: u8) -> Result<(), NoMemory>
    ensures { OnOk result (out.new.items ≡ out.old.items ++ (codes "<<" ++ encode_lower bytes.now ++ codes "/" ++ decimal (8 * length bytes.now + last - 8) ++ codes ">>")) }
{
    let bits = (8 * bytes.len() as u128 + u128::from(last)).saturating_sub(8);
    out.extend(b"<<")?;
    put_hex(out, bytes)?;
    out.push(b'/')?;
    put_number(out, bits)?;
    out.extend(b">>")
}

// Puts the text of an external function at the end.
fn put_export(out: &mut Bytes, home: &[u8], name: &[u8], arity: u8) -> Result<(), NoMemory>
    ensures { OnOk result (out.new.items ≡ out.old.items ++ (codes "fun " ++ name_text home.now ++ codes ":" ++ name_text name.now ++ codes "/" ++ decimal arity)) }
{
    out.extend(b"fun ")?;
    name_text(home, out)?;
    out.push(b':')?;
    name_text(name, out)?;
    out.push(b'/')?;
    put_number(out, arity)
}

// Puts a minus at the end where a number is below zero.
fn put_sign(out: &mut Bytes, neg: bool) -> Result<(), NoMemory>
    ensures { OnOk result (out.new.items ≡ out.old.items ++ sign neg) }
{
    if neg { out.push(b'-') } else { Ok(()) }
}
