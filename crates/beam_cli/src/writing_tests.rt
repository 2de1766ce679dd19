use crate::module_payloads::{ATOMS, ATTRIBUTES, CODE, EXPORTS, IMPORTS, LINES};
use crate::tests::{SAMPLE, call, call_on, form, moving};
use std::alloc::Global;
use std::process::Abort;
use std::test::Fail;

// The sample file with other bytes in its padding.
const PADDED: &[u8] = b"FOR1\0\0\0\x3cBEAM\
AtU8\0\0\0\x06\0\0\0\x01\x01m\xff\xff\
Code\0\0\0\x15\0\0\0\x10\0\0\0\0\0\0\0\x03\0\0\0\x01\0\0\0\0\x03\xff\0\xff\
StrT\0\0\0\0";

// The module's code, in which some operands have longer spellings than they need.
const LONG_CODE: &[u8] = b"\0\0\0\x10\0\0\0\0\0\0\0\x99\0\0\0\x07\0\0\0\x03\
\x01\x08\x01\x99\x10\x02\x12\x22\x18\x00\x01\x01\x20\x0c\x10\x10\x40\x03\x04\x99\x20\x04\x00\x45\
\x10\x20\x10\x45\x04\x03\x03\x12\x10\x13\x01\x30\x99\x00\x02\x12\x42\x00\x01\x40\x40\x12\x03\x4e\
\x10\x00\x01\x50\x99\x00\x02\x12\x42\x10\x01\x60\x40\x03\x0b\x01\x40\x12\x03\x4e\x20\x10\x03";

// The lines of the module, of which the second is another.
const MOVED_LINES: &[u8] = b"\0\0\0\0\0\0\0\0\0\0\0\x04\0\0\0\x02\0\0\0\01Q";

// A module of three functions, with this code and these lines.
pub(crate) fn module_with<'x>(
    alloc: Global,
    code: &'x [u8],
    lines: &'x [u8],
) -> Result<Vec<u8>, Fail> {
    form(
        alloc,
        &[
            (b"AtU8", ATOMS),
            (b"Code", code),
            (b"StrT", b""),
            (b"ImpT", IMPORTS),
            (b"ExpT", EXPORTS),
            (b"LocT", b"\0\0\0\0"),
            (b"Attr", ATTRIBUTES),
            (b"Line", lines),
        ],
    )
}

// The canonical file of this module.
fn module(alloc: Global) -> Result<Vec<u8>, Fail> {
    let file = module_with(alloc, LONG_CODE, LINES)?;
    let canonical = call(alloc, &["canon", "F"], file.as_slice(), 1000)?;
    let mut bytes = Vec::new(alloc);
    bytes.extend_from_slice(canonical.out.written())?;
    Ok(bytes)
}

#[test]
fn files_are_written_in_their_canonical_spelling(rt: HostRuntime) -> Result<(), Fail> {
    let file = module(rt.alloc())?;
    let expected = module_with(rt.alloc(), CODE, LINES)?;
    assert_eq!(rt; file.as_slice(), expected.as_slice());
    assert_eq!(rt; file.len(), 344);
    let told = call(rt.alloc(), &["info", "F"], file.as_slice(), 1000)?;
    let sizes = "form 336\nAtU8 44\nCode 87\nStrT 0\nImpT 28\nExpT 40\nLocT 4\nAttr 39\nLine 22\n";
    assert_eq!(rt; told.out.written(), sizes.as_bytes());
    for (name, own, canonical) in [
        ("canonical", file.as_slice(), file.as_slice()),
        ("padded", PADDED, SAMPLE),
        ("empty", b"FOR1\0\0\0\x04BEAM", b"FOR1\0\0\0\x04BEAM"),
    ] {
        let found = call(rt.alloc(), &["canon", "F"], own, 1000)?;
        assert_eq!(rt; found.status.code(), 0, "at {name}");
        assert_eq!(rt; found.out.written(), canonical, "at {name}");
    }
    let refused = call(
        rt.alloc(),
        &["canon", "F"],
        b"FOR1\0\0\0\x0cBEAMCode\0\0\0\0",
        1000,
    )?;
    assert_eq!(rt; refused.status.code(), 3);
    assert_eq!(rt;
        refused.err.written(),
        b"beamkit: F: Code: header\n".as_slice()
    );
    Ok(())
}

#[test]
fn operands_are_written_in_their_shortest_spelling(rt: HostRuntime) -> Result<(), Fail> {
    let wide = b"\xf9\x80\x01\x02\x03\x04\x05\x06\x07\x08\x09\x0a\x0b\x0c\x0d\x0e\x0f\x10\x11\x03";
    for (own, canonical) in [
        (b"\xf1\x03".as_slice(), b"\xf1\x03".as_slice()),
        (b"\x09\x0f\x03", b"\xf1\x03"),
        (b"\x19\x00\x10\x03", b"\x09\x10\x03"),
        (b"\x39\x00\x07\xff\x03", b"\xe9\xff\x03"),
        (b"\x39\x00\x08\x00\x03", b"\x19\x08\x00\x03"),
        (b"\x39\xff\xff\xff\x03", b"\x19\xff\xff\x03"),
        (b"\x19\x80\x00\x03", b"\x19\x80\x00\x03"),
        (b"\x59\xff\xff\x7f\xff\x03", b"\x39\xff\x7f\xff\x03"),
        (b"\x03\x0b\x01", b"\x03\x13"),
        (wide, wide),
        (
            b"\xf9\x08\x08\x01\x02\x03\x04\x05\x06\x07\x08\x09\x0a\x0b\x0c\x0d\x0e\x0f\x10\x11\x03",
            wide,
        ),
    ] {
        let own = moving(rt.alloc(), own)?;
        let canonical = moving(rt.alloc(), canonical)?;
        let file = form(rt.alloc(), &[(b"Code", own.as_slice())])?;
        let expected = form(rt.alloc(), &[(b"Code", canonical.as_slice())])?;
        let found = call(rt.alloc(), &["canon", "F"], file.as_slice(), 1000)?;
        assert_eq!(rt; found.out.written(), expected.as_slice(), "at {own:?}");
    }
    Ok(())
}

// Two files, and the status, the output and the message of `cmp` on them.
type Pair<'a> = (&'a [u8], &'a [u8], u8, &'a str, &'a str);

// Compares what `cmp` says of two files with what is expected.
fn differs(rt: &(impl Abort + AllocGlobal), pairs: &[Pair<'_>]) -> Result<(), Fail> {
    for (first, second, status, output, message) in pairs {
        let found = call_on(rt.alloc(), &["cmp", "F", "G"], &[*first, *second], 100)?;
        assert_eq!(rt; found.status.code(), *status, "at {output} {message}");
        assert_eq!(rt; found.out.written(), output.as_bytes());
        assert_eq!(rt; found.err.written(), message.as_bytes());
    }
    Ok(())
}

// The form of the atom table of one atom and these chunks.
fn named(alloc: Global, chunks: &[(&[u8], &[u8])]) -> Result<Vec<u8>, Fail> {
    let mut all = Vec::new(alloc);
    all.extend_from_slice(chunks)?;
    all.push((b"AtU8".as_slice(), b"\0\0\0\x01\x01m".as_slice()))?;
    form(alloc, all.as_slice())
}

#[test]
fn stripped_modules_differ(rt: HostRuntime) -> Result<(), Fail> {
    let alloc = rt.alloc();
    let file = module(alloc)?;
    let own = file.as_slice();
    let stripped = call(alloc, &["strip", "F"], own, 1000)?;
    let bytes = stripped.out.written();
    let told = call(alloc, &["info", "F"], bytes, 1000)?;
    let kept = "form 276\nAtU8 44\nCode 87\nStrT 0\nImpT 28\nExpT 40\nLine 22\n";
    assert_eq!(rt; told.out.written(), kept.as_bytes());
    let moved = module_with(alloc, LONG_CODE, MOVED_LINES)?;
    let moved = call(alloc, &["canon", "F"], moved.as_slice(), 1000)?;
    differs(
        &rt,
        &[
            (bytes, own, 1, "different ids: Attr\n", ""),
            (own, bytes, 1, "different ids: Attr\n", ""),
            (own, own, 0, "same\n", ""),
            (own, moved.out.written(), 1, "different chunk: Line\n", ""),
        ],
    )
}

#[test]
fn what_differs_is_told(rt: HostRuntime) -> Result<(), Fail> {
    let alloc = rt.alloc();
    let first = named(alloc, &[(b"CInf", b"a"), (b"Zzzz", b"1"), (b"Abcd", b"1")])?;
    let second = named(alloc, &[(b"Abcd", b"2"), (b"CInf", b"b"), (b"Zzzz", b"2")])?;
    let third = named(alloc, &[(b"Zzzz", b"1"), (b"Abcd", b"1")])?;
    let fourth = named(alloc, &[(b"Zzzz", b"1"), (b"Abcd", b"1"), (b"CInf", b"b")])?;
    let (first, second) = (first.as_slice(), second.as_slice());
    differs(
        &rt,
        &[
            (first, third.as_slice(), 0, "same\n", ""),
            (first, fourth.as_slice(), 0, "same\n", ""),
            (first, second, 1, "different chunk: Abcd\n", ""),
            (first, SAMPLE, 1, "different ids: Abcd\n", ""),
        ],
    )
}

#[test]
fn the_first_file_is_refused_before_the_second(rt: HostRuntime) -> Result<(), Fail> {
    let alloc = rt.alloc();
    let none = form(alloc, &[(b"StrT", b"")])?;
    let nameless = form(alloc, &[(b"AtU8", b"\0\0\0\0")])?;
    let other = form(alloc, &[(b"AtU8", b"\0\0\0\x01\x01n")])?;
    let large = vec![in alloc; 0u8; 16_777_217]?;
    let (bad, none, large) = (b"".as_slice(), none.as_slice(), large.as_slice());
    differs(
        &rt,
        &[
            (SAMPLE, other.as_slice(), 1, "different module names\n", ""),
            (bad, none, 3, "", "beamkit: F: not a BEAM file\n"),
            (none, bad, 3, "", "beamkit: F: no chunk AtU8\n"),
            (
                nameless.as_slice(),
                bad,
                3,
                "",
                "beamkit: F: no chunk AtU8\n",
            ),
            (SAMPLE, bad, 3, "", "beamkit: G: not a BEAM file\n"),
            (bad, large, 6, "", "beamkit: G: more than 16777216 bytes\n"),
            (
                large,
                large,
                6,
                "",
                "beamkit: F: more than 16777216 bytes\n",
            ),
        ],
    )
}
