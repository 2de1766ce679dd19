ghost use Rattle.std.specs.Prelude.{◌≡◌, ◌≤◌, ℕ, suc, length, All, IfOk};
ghost use Rattle.ext_term.specs.Writing.{IsWritable};

use super::*;
use bk_base::{ByteList, Bytes, Text};
use sqlite_items::Boxed;
use std::alloc::Global;
use std::process::Abort;
use std::test::Fail;

#[test]
fn names_are_quoted_where_they_are_not_bare(rt: HostRuntime) -> Result<(), Fail> {
    let cases: [(&[u8], &[u8]); 9] = [
        (b"m", b"m"),
        (b"get_module_info@2X", b"get_module_info@2X"),
        (b"", b"''"),
        (b"Elixir.Enum", b"'Elixir.Enum'"),
        (b"_a", b"'_a'"),
        (b"it's", b"'it\\'s'"),
        (b"a\\b", b"'a\\\\b'"),
        (b"\x00a\x1f\x7f", b"'\\x00a\\x1f\\x7f'"),
        (b"\xc3\xa5 ", b"'\xc3\xa5 '"),
    ];
    for (name, text) in cases {
        let mut out = Bytes::new(rt.alloc());
        out.push(b'>')?;
        name_text(name, &mut out)?;
        assert_eq!(rt; &out.as_slice()[1..], text, "{name:?}");
    }
    Ok(())
}

fn natural(mag: u128) -> Term {
    Term::Int { neg: false, mag }
}

fn atom(alloc: Global, name: &[u8]) -> Result<Term, Fail> {
    Ok(Term::Atom(Text::from_bytes(alloc, name)?))
}

fn terms<const N: usize>(alloc: Global, items: [Term; N]) -> Result<TermList, Fail>
    requires { N ≤ 2 }
{
    let mut list = TermList::new(alloc);
    for t in items {
        list.push(t)?;
    }
    Ok(list)
}

fn list<const N: usize>(alloc: Global, items: [Term; N], tail: Term) -> Result<Term, Fail>
    requires { N ≤ 2 }
{
    Ok(Term::List(terms(alloc, items)?, Boxed::new(alloc, tail)?))
}

#[test]
fn terms_are_shown(rt: HostRuntime) -> Result<(), Fail> {
    let alloc = rt.alloc();
    let mut wide = [0; 17];
    wide[0] = 0x0a;
    wide[15] = 0xff;
    let mag = ByteList::from_slice(alloc, &wide)?;
    let bytes = ByteList::from_slice(alloc, &[0x0a, 0x0b])?;
    let bits = ByteList::from_slice(alloc, &[0xa0])?;
    let mut pairs = TermPairList::new(alloc);
    pairs.push((atom(alloc, b"k")?, natural(1)))?;
    let two = list(alloc, [natural(2)], Term::Nil)?;
    let pair = [atom(alloc, b"a")?, atom(alloc, b"B")?];
    let export = Term::Export(
        Text::from_bytes(alloc, b"m")?,
        Text::from_bytes(alloc, b"f")?,
        1,
    );
    let cases: [(Term, &[u8]); 13] = [
        (
            natural(340282366920938463463374607431768211455),
            b"340282366920938463463374607431768211455",
        ),
        (Term::Int { neg: true, mag: 1 }, b"-1"),
        (
            Term::Wide { neg: true, mag },
            b"-16#00ff00000000000000000000000000000a",
        ),
        (Term::Tuple(terms(alloc, pair)?), b"{a,'B'}"),
        (Term::Nil, b"[]"),
        (
            list(alloc, [natural(104), natural(105)], Term::Nil)?,
            b"[104,105]",
        ),
        (list(alloc, [natural(1)], natural(2))?, b"[1|2]"),
        (list(alloc, [], atom(alloc, b"x")?)?, b"[|x]"),
        (list(alloc, [natural(1)], two)?, b"[1|[2]]"),
        (Term::Binary(bytes), b"<<0a0b>>"),
        (
            Term::Bits {
                bytes: bits,
                last: 3,
            },
            b"<<a0/3>>",
        ),
        (Term::Map(pairs), b"#{k=>1}"),
        (export, b"fun m:f/1"),
    ];
    for (t, text) in cases {
        let shown = term_text(alloc, &t)?;
        assert_eq!(rt; shown.as_slice(), text, "{t:?}");
    }
    Ok(())
}

// The text of the term that the bytes are, or their refusal.
fn told(alloc: Global, bytes: &[u8]) -> Result<String, Fail> {
    let mut text = String::new(alloc);
    match read_term(alloc, bytes) {
        Ok(t) => text.push_str(std::str::from_utf8(term_text(alloc, &t)?.as_slice())?)?,
        Err(refusal) => write!(text, "{refusal:?}")?,
    }
    Ok(text)
}

#[test]
fn terms_are_read_or_refused(rt: HostRuntime) -> Result<(), Fail> {
    one_term();
    reading_is_exact();
    refusals_stand();
    fronts_are_cut();
    bytes_behind_are_refused();
    let alloc = rt.alloc();
    for (bytes, text) in [
        (b"\x83a\x05".as_slice(), "5"),
        (b"\x83k\0\x02hi", "[104,105]"),
        (b"\x83l\0\0\0\x01a\x01a\x02", "[1|2]"),
        (b"\x83M\0\0\0\x01\x03\xa0", "<<a0/3>>"),
        (b"\x83b\xff\xff\xff\xff", "-1"),
        (b"\x83n\x01\x01\x07", "-7"),
        (b"\x83n\x01\x05\0", "0"),
        (b"\x83o\0\0\0\0\0", "0"),
        (
            b"\x83n\x10\x01\0\0\0\0\0\0\0\0\0\0\0\0\0\0\0\x80",
            "-170141183460469231731687303715884105728",
        ),
        (
            b"\x83n\x11\0\0\0\0\0\0\0\0\0\0\0\0\0\0\0\0\0\0",
            "16#0000000000000000000000000000000000",
        ),
        (b"\x83s\x01\xe5", "'\u{e5}'"),
        (b"\x83d\0\x01a", "a"),
        (b"\x83v\0\x02ok", "ok"),
        (b"\x83h\x01w\x01a", "{a}"),
        (b"\x83i\0\0\0\0", "{}"),
        (b"\x83k\0\0", "[]"),
        (b"\x83m\0\0\0\x01\x0a", "<<0a>>"),
        (b"\x83t\0\0\0\x01w\x01ka\x01", "#{k=>1}"),
        (b"\x83qw\x01mw\x01fa\x01", "fun m:f/1"),
        (b"", "Cut"),
        (b"\x83", "Cut"),
        (b"\x83a", "Cut"),
        (b"\x83h\xff", "Cut"),
        (b"\x83l\xff\xff\xff\xff", "Cut"),
        (b"\x83i\xff\xff\xff\xffa\x01", "Cut"),
        (b"\x83t\xff\xff\xff\xffa\x01a\x02", "Cut"),
        (b"\x83n\xff\0", "Cut"),
        (b"\x82a\x05", "Tag { tag: 130, at: 0 }"),
        (b"\x83P", "Tag { tag: 80, at: 1 }"),
        (b"\x83h\x01F", "Tag { tag: 70, at: 3 }"),
        (b"\x83qa\x01", "Tag { tag: 97, at: 2 }"),
        (b"\x83qw\x01mw\x01fb", "Tag { tag: 98, at: 8 }"),
        (b"\x83w\x02\xff", "Cut"),
        (b"\x83h\x01w\x01\xff", "AtomText { at: 3 }"),
        (b"\x83M\0\0\0\0\x01", "BitTail { at: 1 }"),
        (b"\x83M\0\0\0\x01\x09\xa0", "BitTail { at: 1 }"),
        (b"\x83jj", "Rest { at: 2 }"),
    ] {
        assert_eq!(rt; told(alloc, bytes)?.as_str(), text, "{bytes:?}");
    }
    Ok(())
}

// The version, so many tuples of one term in one another, and these bytes.
fn nested(alloc: Global, tuples: usize, last: &[u8]) -> Result<Vec<u8>, Fail> {
    let mut bytes = Vec::new(alloc);
    bytes.push(131)?;
    for _ in 0..tuples {
        bytes.extend_from_slice(b"h\x01")?;
    }
    bytes.extend_from_slice(last)?;
    Ok(bytes)
}

#[test]
fn only_256_terms_stand_in_one_another(rt: HostRuntime) -> Result<(), Fail> {
    let alloc = rt.alloc();
    let deep = nested(alloc, 255, b"j")?;
    assert!(rt; read_term(alloc, deep.as_slice()).is_ok());
    for (tuples, last, refusal) in [
        (256, b"j".as_slice(), "Depth { at: 513 }"),
        (256, b"F", "Depth { at: 513 }"),
        (256, b"", "Cut"),
        (255, b"qw\x01m", "Depth { at: 512 }"),
    ] {
        let bytes = nested(alloc, tuples, last)?;
        assert_eq!(rt; told(alloc, bytes.as_slice())?.as_str(), refusal);
    }
    Ok(())
}

// The integer of this value.
fn int(value: i128) -> Term
    ensures { (levels : ℕ) → IsWritable (suc levels) result }
{
    Term::Int {
        neg: value < 0,
        mag: value.unsigned_abs(),
    }
}

// The integers of these values.
fn ints(alloc: Global, values: &[i128]) -> Result<TermList, Fail>
    ensures each { IfOk result (λ items. (levels : ℕ) → All (IsWritable (suc levels)) items) }
    ensures len { IfOk result (λ items. length items ≡ length values.now) }
{
    let mut items = TermList::new(alloc);
    for value in values {
        items.push(int(*value))?;
    }
    Ok(items)
}

// Compares what is written of a term with this file.
fn writes(rt: &(impl Abort + AllocGlobal), t: &Term, file: &[u8]) -> Result<(), Fail>
    requires { IsWritable 256 t.now }
{
    let written = write_term(rt.alloc(), t)?;
    assert_eq!(rt; written.as_slice(), file, "{t:?}");
    Ok(())
}

#[test]
fn integers_are_written(rt: HostRuntime) -> Result<(), Fail> {
    let cases: [(i128, &[u8]); 8] = [
        (0, b"\x83\x61\0"),
        (5, b"\x83\x61\x05"),
        (255, b"\x83\x61\xff"),
        (256, b"\x83\x62\0\0\x01\0"),
        (-1, b"\x83\x62\xff\xff\xff\xff"),
        (-2147483648, b"\x83\x62\x80\0\0\0"),
        (2147483648, b"\x83\x6e\x04\0\0\0\0\x80"),
        (-2147483649, b"\x83\x6e\x04\x01\x01\0\0\x80"),
    ];
    for (value, file) in cases {
        writes(&rt, &int(value), file)?;
    }
    Ok(())
}

#[test]
fn terms_are_written(rt: HostRuntime) -> Result<(), Fail> {
    canonical();
    spelled_terms_meet_their_type();
    let alloc = rt.alloc();
    writes(&rt, &Term::Nil, b"\x83\x6a")?;
    writes(
        &rt,
        &Term::Atom(Text::from_bytes(alloc, b"ok")?),
        b"\x83\x77\x02ok",
    )?;
    writes(&rt, &Term::Tuple(TermList::new(alloc)), b"\x83\x68\0")?;
    let bits = Term::Bits {
        bytes: ByteList::from_slice(alloc, &[0xa0])?,
        last: 3,
    };
    writes(&rt, &bits, b"\x83\x4d\0\0\0\x01\x03\xa0")?;
    let bytes = Term::List(ints(alloc, &[104, 105])?, Boxed::new(alloc, Term::Nil)?);
    writes(&rt, &bytes, b"\x83\x6b\0\x02hi")?;
    let open = Term::List(ints(alloc, &[1])?, Boxed::new(alloc, int(2))?);
    writes(&rt, &open, b"\x83\x6c\0\0\0\x01\x61\x01\x61\x02")?;
    let function = Term::Export(
        Text::from_bytes(alloc, b"m")?,
        Text::from_bytes(alloc, b"f")?,
        1,
    );
    writes(&rt, &function, b"\x83\x71\x77\x01m\x77\x01f\x61\x01")?;
    let mut pairs = TermPairList::new(alloc);
    pairs.push((int(1), int(2)))?;
    writes(
        &rt,
        &Term::Map(pairs),
        b"\x83\x74\0\0\0\x01\x61\x01\x61\x02",
    )
}

// So many bytes, all alike.
fn alike(alloc: Global, byte: u8, n: usize) -> Result<Vec<u8>, Fail>
    ensures { IfOk result (λ bytes. length bytes.items ≡ n) }
{
    Ok(vec![in alloc; byte; n]?)
}

// The same as a value.
fn alike_list(alloc: Global, byte: u8, n: usize) -> Result<ByteList, Fail>
    ensures { IfOk result (λ bytes. length bytes ≡ n) }
{
    let bytes = alike(alloc, byte, n)?;
    Ok(ByteList::from_slice(alloc, bytes.as_slice())?)
}

// So many empty lists.
fn nils(alloc: Global, n: usize) -> Result<TermList, Fail>
    ensures each { IfOk result (λ items. (levels : ℕ) → All (IsWritable (suc levels)) items) }
    ensures len { IfOk result (λ items. length items ≡ n) }
{
    let mut items = TermList::new(alloc);
    for _ in 0..n {
        items.push(Term::Nil)?;
    }
    Ok(items)
}

// Compares what is written of a term with a front and so many bytes behind it, all alike.
fn writes_long(
    rt: &(impl Abort + AllocGlobal),
    t: &Term,
    front: &[u8],
    byte: u8,
    n: usize,
) -> Result<(), Fail>
    requires { IsWritable 256 t.now }
{
    let mut file = Vec::new(rt.alloc());
    file.extend_from_slice(front)?;
    file.extend_from_slice(alike(rt.alloc(), byte, n)?.as_slice())?;
    writes(rt, t, file.as_slice())
}

#[test]
fn long_terms_are_written(rt: HostRuntime) -> Result<(), Fail> {
    let alloc = rt.alloc();
    let bytes = alike_list(alloc, 10, 300)?;
    writes_long(&rt, &Term::Binary(bytes), b"\x83\x6d\0\0\x01\x2c", 10, 300)?;
    let mag = alike_list(alloc, 7, 17)?;
    let wide = Term::Wide { neg: true, mag };
    writes_long(&rt, &wide, b"\x83\x6e\x11\x01", 7, 17)?;
    let mag = alike_list(alloc, 7, 300)?;
    let wide = Term::Wide { neg: false, mag };
    writes_long(&rt, &wide, b"\x83\x6f\0\0\x01\x2c\0", 7, 300)?;
    let name = Text::from_bytes(alloc, alike(alloc, b'a', 300)?.as_slice())?;
    writes_long(&rt, &Term::Atom(name), b"\x83\x76\x01\x2c", b'a', 300)?;
    let items = nils(alloc, 300)?;
    writes_long(&rt, &Term::Tuple(items), b"\x83\x69\0\0\x01\x2c", b'j', 300)
}
