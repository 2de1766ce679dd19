use super::*;
use crate::module_payloads::{ATOMS, ATTRIBUTES, EXPORTS, IMPORTS, LINES};
use bk_base::Bytes;
use bk_port::{FileList, Host, MemHost, MemSink, NumberList, ScriptHost, ScriptSink, Sink};
use std::process::Abort;
use std::test::Fail;

const USAGE: &str =
    "beamkit: usage: info F, show WHAT F, disasm F, asm F, strip F, canon F, cmp F G, validate F, gen N\n";

pub(crate) const SAMPLE: &[u8] = b"FOR1\0\0\0\x3cBEAM\
AtU8\0\0\0\x06\0\0\0\x01\x01m\0\0\
Code\0\0\0\x15\0\0\0\x10\0\0\0\0\0\0\0\x03\0\0\0\x01\0\0\0\0\x03\0\0\0\
StrT\0\0\0\0";

// What a call answered and wrote.
#[derive(Drop)]
pub(crate) struct Outcome {
    pub(crate) status: Status,
    pub(crate) out: MemSink,
    pub(crate) err: MemSink,
}

// A list of these words.
fn words_of(alloc: Global, words: &[&str]) -> Result<WordList, Fail> {
    let mut list = WordList::new(alloc);
    for word in words {
        list.push(Text::from_bytes(alloc, word.as_bytes())?)?;
    }
    Ok(list)
}

// The files of these bytes, named `F`, `G` and so on.
fn files_of(alloc: Global, files: &[&[u8]]) -> Result<FileList, Fail> {
    let mut list = FileList::new(alloc);
    for (name, file) in (b'F'..=b'Z').zip(files) {
        let mut bytes = Bytes::new(alloc);
        bytes.extend(file)?;
        list.push(Text::from_bytes(alloc, &[name])?, bytes)?;
    }
    Ok(list)
}

// Calls the program over this host and this output, and gives the status and the message.
fn call_over<H: Host, O: Sink>(
    alloc: Global,
    words: &[&str],
    host: &mut H,
    out: &mut O,
) -> Result<(Status, MemSink), Fail> {
    let words = words_of(alloc, words)?;
    let mut err = MemSink::new(alloc, 1000)?;
    let status = run(alloc, &words, host, out, &mut err);
    Ok((status, err))
}

// Calls the program with these words and files, with room for so many bytes of output.
pub(crate) fn call_on(
    alloc: Global,
    words: &[&str],
    files: &[&[u8]],
    room: usize,
) -> Result<Outcome, Fail> {
    let mut host = MemHost::new(files_of(alloc, files)?);
    let mut out = MemSink::new(alloc, room)?;
    let (status, err) = call_over(alloc, words, &mut host, &mut out)?;
    Ok(Outcome { status, out, err })
}

// Calls the program with these words and the file `F`, with room for so many bytes of output.
pub(crate) fn call(
    alloc: Global,
    words: &[&str],
    file: &[u8],
    room: usize,
) -> Result<Outcome, Fail> {
    call_on(alloc, words, &[file], room)
}

#[test]
fn forms_are_told_or_refused(rt: HostRuntime) -> Result<(), Fail> {
    let told = "form 60\nAtU8 6\nCode 21\nStrT 0\n";
    let twice = b"FOR1\0\0\0\x14BEAMStrT\0\0\0\0StrT\0\0\0\0";
    let odd = b"FOR1\0\0\0\x14BEAM\0a-1\0\0\0\x01*123";
    let mut more_stated = Vec::new(rt.alloc());
    more_stated.extend_from_slice(b"FOR1\0\0\0\x3d")?;
    more_stated.extend_from_slice(&SAMPLE[8..])?;
    let mut more_found = Vec::new(rt.alloc());
    more_found.extend_from_slice(SAMPLE)?;
    more_found.push(0)?;
    for (file, status, output, message) in [
        (SAMPLE, 0, told, ""),
        (b"FOR1\0\0\0\x04BEAM".as_slice(), 0, "form 4\n", ""),
        (odd.as_slice(), 3, "", "beamkit: F: size 20, found 16\n"),
        (
            b"FOR1\0\0\0\x10BEAM\0a-1\0\0\0\x01*123".as_slice(),
            0,
            "form 16\n#00612d31 1\n",
            "",
        ),
        (
            more_stated.as_slice(),
            3,
            "",
            "beamkit: F: size 61, found 60\n",
        ),
        (
            more_found.as_slice(),
            3,
            "",
            "beamkit: F: size 60, found 61\n",
        ),
        (b"", 3, "", "beamkit: F: not a BEAM file\n"),
        (
            b"FOR1\0\0\0\x3cBE".as_slice(),
            3,
            "",
            "beamkit: F: not a BEAM file\n",
        ),
        (
            b"FOR2\0\0\0\x04BEAM".as_slice(),
            3,
            "",
            "beamkit: F: not a BEAM file\n",
        ),
        (b"\x1f\x8b".as_slice(), 3, "", "beamkit: F: gzip file\n"),
        (
            b"FOR1\0\0\0\x0cBEAMAtU8\0\0\0\x01".as_slice(),
            3,
            "",
            "beamkit: F: chunk cut at 12\n",
        ),
        (
            twice.as_slice(),
            3,
            "",
            "beamkit: F: chunk StrT twice at 20\n",
        ),
    ] {
        let found = call(rt.alloc(), &["info", "F"], file, 1000)?;
        assert_eq!(rt; found.status.code(), status, "at {file:?}");
        assert_eq!(rt; found.out.written(), output.as_bytes(), "at {file:?}");
        assert_eq!(rt; found.err.written(), message.as_bytes(), "at {file:?}");
    }
    Ok(())
}

#[test]
fn words_outside_the_grammar_are_refused(rt: HostRuntime) -> Result<(), Fail> {
    for words in [
        [].as_slice(),
        &["info"],
        &["info", ""],
        &["info", "-x"],
        &["info", "F", "F"],
        &["Info", "F"],
        &["show", "F"],
        &["show", "all", "F"],
        &["show", "atoms", "-x"],
        &["cmp", "-", "-"],
        &["cmp", "F"],
        &["cmp", "F", "-x"],
        &["cmp", "F", "F", "F"],
        &["canon", "F", "F"],
        &["strip"],
        &["gen"],
        &["gen", "0"],
        &["gen", "2001"],
        &["gen", "01"],
        &["gen", "+1"],
        &["gen", "1 "],
        &["gen", "4294967297"],
        &["gen", "F"],
        &["gen", "1", "1"],
        &["--help"],
    ] {
        let found = call(rt.alloc(), words, SAMPLE, 1000)?;
        assert_eq!(rt; found.status, Status::Usage, "at {words:?}");
        assert_eq!(rt; found.out.written(), b"".as_slice());
        assert_eq!(rt; found.err.written(), USAGE.as_bytes());
    }
    Ok(())
}

// The form of these chunks, with zero padding.
pub(crate) fn form(alloc: Global, chunks: &[(&[u8], &[u8])]) -> Result<Vec<u8>, Fail> {
    let mut body = Vec::new(alloc);
    body.extend_from_slice(b"BEAM")?;
    for (id, payload) in chunks {
        body.extend_from_slice(id)?;
        body.extend_from_slice(&u32::try_from(payload.len())?.to_be_bytes())?;
        body.extend_from_slice(payload)?;
        body.extend_from_slice(&[0, 0, 0][..(4 - payload.len() % 4) % 4])?;
    }
    let mut file = Vec::new(alloc);
    file.extend_from_slice(b"FOR1")?;
    file.extend_from_slice(&u32::try_from(body.len())?.to_be_bytes())?;
    file.extend_from_slice(body.as_slice())?;
    Ok(file)
}

// Shows a table of the form of these chunks, and compares the status, the output and the message.
fn shows(
    rt: &(impl Abort + AllocGlobal),
    what: &str,
    chunks: &[(&[u8], &[u8])],
    status: u8,
    output: &str,
    message: &str,
) -> Result<(), Fail> {
    let file = form(rt.alloc(), chunks)?;
    let found = call(rt.alloc(), &["show", what, "F"], file.as_slice(), 1000)?;
    assert_eq!(rt; found.status.code(), status, "at {what}: {message}");
    assert_eq!(rt; found.out.written(), output.as_bytes(), "at {what}");
    let mut line = String::new(rt.alloc());
    if status != 0 {
        write!(line, "beamkit: F: {message}\n")?;
    }
    assert_eq!(rt; found.err.written(), line.as_bytes(), "at {what}");
    Ok(())
}

#[test]
fn tables_are_shown_or_refused(rt: HostRuntime) -> Result<(), Fail> {
    let atoms = (b"AtU8".as_slice(), ATOMS);
    let huge = b"\xff\xff\xff\xff".as_slice();
    let imports = (b"ImpT".as_slice(), IMPORTS);
    let exports = (b"ExpT".as_slice(), EXPORTS);
    let locals = (b"LocT".as_slice(), b"\0\0\0\0".as_slice());
    let one = b"\0\0\0\x01\0\0\0\x02\0\0\0\x01\0\0\0\x02\0\0\0\0\0\0\0\0\0\0\0\0".as_slice();
    let funs = (b"FunT".as_slice(), one);
    let zero = b"\0\0\0\x01\0\0\0\0\0\0\0\x01\0\0\0\x01".as_slice();
    let all = "1 m\n2 go\n3 erlang\n4 module_info\n5 get_module_info\n";
    shows(&rt, "atoms", &[atoms], 0, all, "")?;
    shows(
        &rt,
        "imports",
        &[imports, atoms],
        0,
        "0 erlang:get_module_info/1\n1 erlang:get_module_info/2\n",
        "",
    )?;
    shows(
        &rt,
        "exports",
        &[atoms, exports],
        0,
        "module_info/1 6\nmodule_info/0 4\ngo/1 2\n",
        "",
    )?;
    shows(&rt, "locals", &[atoms, exports, locals], 0, "", "")?;
    shows(
        &rt,
        "funs",
        &[atoms, funs],
        0,
        "0 go/1 label 2 index 0 free 0 unique 0\n",
        "",
    )?;
    shows(
        &rt,
        "funs",
        &[atoms, exports, locals],
        3,
        "",
        "no chunk FunT",
    )?;
    shows(&rt, "imports", &[imports], 3, "", "no chunk AtU8")?;
    shows(&rt, "imports", &[], 3, "", "no chunk AtU8")?;
    shows(&rt, "atoms", &[(b"AtU8", huge)], 3, "", "AtU8: cut")?;
    shows(&rt, "imports", &[(b"AtU8", huge)], 3, "", "AtU8: cut")?;
    shows(
        &rt,
        "imports",
        &[atoms, (b"ImpT", huge)],
        3,
        "",
        "ImpT: cut",
    )?;
    shows(
        &rt,
        "atoms",
        &[(b"AtU8", b"\0\0\0\x01\x01\xff")],
        3,
        "",
        "AtU8: atom 1 is not UTF-8",
    )?;
    shows(
        &rt,
        "locals",
        &[atoms, (b"LocT", zero)],
        3,
        "",
        "LocT: atom number in entry 0",
    )?;
    shows(
        &rt,
        "atoms",
        &[(b"AtU8", b"\0\0\0\0a")],
        3,
        "",
        "AtU8: rest",
    )
}

#[test]
fn literals_lines_and_terms_are_shown_or_refused(rt: HostRuntime) -> Result<(), Fail> {
    let mut deep = Vec::new(rt.alloc());
    deep.push(131)?;
    for _ in 0..256 {
        deep.extend_from_slice(b"h\x01")?;
    }
    deep.push(b'j')?;
    for (what, id, payload, status, output, message) in [
        (
            "literals",
            b"LitT".as_slice(),
            b"\0\0\0\x09\0".as_slice(),
            0,
            "packed\n",
            "",
        ),
        (
            "literals",
            b"LitT",
            b"\0\0\0\0\0\0\0\x02\0\0\0\x03\x83a\x05\0\0\0\x02\x83F",
            0,
            "0 5\n1 bytes 8346\n",
            "",
        ),
        ("literals", b"LitT", b"\0\0\0", 3, "", "LitT: cut"),
        (
            "literals",
            b"LitT",
            b"\0\0\0\0\xff\xff\xff\xff",
            3,
            "",
            "LitT: cut",
        ),
        (
            "literals",
            b"LitT",
            b"\0\0\0\0\0\0\0\0a",
            3,
            "",
            "LitT: rest",
        ),
        ("literals", b"Line", b"", 3, "", "no chunk LitT"),
        (
            "lines",
            b"Line",
            LINES,
            0,
            "instructions 4\n1 0:3\n2 0:4\n",
            "",
        ),
        (
            "lines",
            b"Line",
            b"\0\0\0\0\0\0\0\0\0\0\0\x01\0\0\0\x01\0\0\0\x01\x121\0\x01a",
            0,
            "instructions 1\n1 1:3\nfile 1 a\n",
            "",
        ),
        (
            "lines",
            b"Line",
            b"\0\0\0\0\0\0\0\0\0\0\0\x01\0\0\0\x02\0\0\0\x01\x121A\0\x01a",
            0,
            "instructions 1\n1 1:3\n2 1:4\nfile 1 a\n",
            "",
        ),
        ("lines", b"Line", b"\0\0\0\x01", 3, "", "Line: version"),
        (
            "lines",
            b"Line",
            b"\0\0\0\0\0\0\0\0\0\0\0\0\xff\xff\xff\xff\0\0\0\0",
            3,
            "",
            "Line: cut",
        ),
        (
            "lines",
            b"Line",
            b"\0\0\0\0\0\0\0\0\0\0\0\0\0\0\0\0\xff\xff\xff\xff",
            3,
            "",
            "Line: cut",
        ),
        (
            "lines",
            b"Line",
            b"\0\0\0\0\0\0\0\0\0\0\0\0\0\0\0\x02\0\0\0\x001\x10",
            3,
            "",
            "Line: item 1",
        ),
        (
            "lines",
            b"Line",
            b"\0\0\0\0\0\0\0\0\0\0\0\0\0\0\0\x01\0\0\0\x01\x12\x22",
            3,
            "",
            "Line: file in item 1",
        ),
        (
            "lines",
            b"Line",
            b"\0\0\0\0\0\0\0\0\0\0\0\0\0\0\0\0\0\0\0\0a",
            3,
            "",
            "Line: rest",
        ),
        ("lines", b"LitT", b"", 3, "", "no chunk Line"),
        (
            "attributes",
            b"Attr".as_slice(),
            ATTRIBUTES,
            0,
            "[{vsn,[1329227995784915872903807060280344577]}]\n",
            "",
        ),
        ("compile", b"CInf", b"\x83j", 0, "[]\n", ""),
        ("attributes", b"Attr", b"", 3, "", "Attr: cut"),
        ("attributes", b"Attr", b"\x82j", 3, "", "Attr: tag 130 at 0"),
        ("compile", b"CInf", b"\x83P", 3, "", "CInf: tag 80 at 1"),
        (
            "attributes",
            b"Attr",
            deep.as_slice(),
            3,
            "",
            "Attr: depth at 513",
        ),
        (
            "attributes",
            b"Attr",
            b"\x83w\x01\xff",
            3,
            "",
            "Attr: atom text at 1",
        ),
        (
            "compile",
            b"CInf",
            b"\x83M\0\0\0\0\x01",
            3,
            "",
            "CInf: bit tail at 1",
        ),
        ("compile", b"CInf", b"\x83jj", 3, "", "CInf: rest at 2"),
        ("attributes", b"CInf", b"\x83j", 3, "", "no chunk Attr"),
        ("compile", b"Attr", b"\x83j", 3, "", "no chunk CInf"),
    ] {
        shows(&rt, what, &[(id, payload)], status, output, message)?;
    }
    Ok(())
}

// Lists the form of one chunk of code, and compares the status, the output and the message.
fn lists(
    rt: &(impl Abort + AllocGlobal),
    code: &[u8],
    status: u8,
    output: &str,
    message: &str,
) -> Result<(), Fail> {
    let file = form(rt.alloc(), &[(b"Code", code)])?;
    let found = call(rt.alloc(), &["disasm", "F"], file.as_slice(), 1000)?;
    assert_eq!(rt; found.status.code(), status, "at {message}");
    assert_eq!(rt; found.out.written(), output.as_bytes(), "at {message}");
    let mut line = String::new(rt.alloc());
    if status != 0 {
        write!(line, "beamkit: F: {message}\n")?;
    }
    assert_eq!(rt; found.err.written(), line.as_bytes(), "at {message}");
    Ok(())
}

#[test]
fn code_is_listed_or_refused(rt: HostRuntime) -> Result<(), Fail> {
    let whole = call(rt.alloc(), &["disasm", "F"], SAMPLE, 1000)?;
    let listing = "beam 1\nchunk AtU8\n  00000001016d\ncode 3 1 0 -\n  int_code_end\nchunk StrT\n";
    assert_eq!(rt; whole.out.written(), listing.as_bytes());
    let head = b"\0\0\0\x10\0\0\0\0\0\0\0\x03\0\0\0\x01\0\0\0\0";
    let mut code = Vec::new(rt.alloc());
    code.extend_from_slice(head)?;
    code.extend_from_slice(b"\x40\x03\x0b\x01\x40\xf9\x80")?;
    code.extend_from_slice(
        b"\x01\x02\x03\x04\x05\x06\x07\x08\x09\x0a\x0b\x0c\x0d\x0e\x0f\x10\x11\x57\x03\x70",
    )?;
    let moves =
        "beam 1\ncode 3 1 0 -\n  move x0 x1\n  move w0102030405060708090a0b0c0d0e0f1011 x0/7\n";
    lists(&rt, code.as_slice(), 0, moves, "")?;
    lists(&rt, b"", 3, "", "Code: header")?;
    for (op, message) in [(183, "Code: opcode 183 at 20"), (0, "Code: opcode 0 at 20")] {
        code.truncate(20);
        code.push(op)?;
        lists(&rt, code.as_slice(), 3, "", message)?;
    }
    code.truncate(20);
    code.extend_from_slice(b"\x40\x03\x18\xff\xff")?;
    lists(
        &rt,
        code.as_slice(),
        3,
        "",
        "Code: operand at 22: negative, tag 0",
    )
}

#[test]
fn code_that_is_not_judged_is_listed(rt: HostRuntime) -> Result<(), Fail> {
    let code =
        b"\0\0\0\x10\0\0\0\0\0\0\0\xb6\0\0\0\x03\0\0\0\x01\x01\x10\x02\x12\x22\0\x01 ^@\x02\x03\x13\x03";
    let listing =
        "beam 1\ncode 182 3 1 -\n  label u1\n  func_info a1 a2 u0\n  label u2\n  fclearerror\n  move a0 x0\n  return\n  int_code_end\n";
    lists(&rt, code, 0, listing, "")
}

// A payload of code whose one instruction is `move` with these bytes behind its opcode.
pub(crate) fn moving(alloc: Global, operands: &[u8]) -> Result<Vec<u8>, Fail> {
    let mut code = Vec::new(alloc);
    code.extend_from_slice(b"\0\0\0\x10\0\0\0\0\0\0\0\x03\0\0\0\x01\0\0\0\0\x40")?;
    code.extend_from_slice(operands)?;
    Ok(code)
}

#[test]
fn operands_are_listed_or_refused(rt: HostRuntime) -> Result<(), Fail> {
    for (operands, text) in [
        (b"\xf1\x03".as_slice(), "i15"),
        (b"\x09\x10\x03", "i16"),
        (b"\xe9\xff\x03", "i2047"),
        (b"\x19\x08\x00\x03", "i2048"),
        (b"\x19\xff\xff\x03", "i-1"),
        (b"\x19\x80\x00\x03", "i-32768"),
        (b"\x39\xff\x7f\xff\x03", "i-32769"),
        (
            b"\xf9\x70\x7f\xff\xff\xff\xff\xff\xff\xff\xff\xff\xff\xff\xff\xff\xff\xff\x03",
            "i170141183460469231731687303715884105727",
        ),
        (b"\x57\x03\x70\x03", "x0/7"),
        (b"\x37\x20\x00\x50\x20\x10\x03", "{0:5,2:1}"),
    ] {
        let code = moving(rt.alloc(), operands)?;
        let mut listing = String::new(rt.alloc());
        write!(listing, "beam 1\ncode 3 1 0 -\n  move {text} x0\n")?;
        lists(&rt, code.as_slice(), 0, listing.as_str(), "")?;
    }
    for (operands, why) in [
        (b"".as_slice(), "cut"),
        (b"\x07", "extended 0"),
        (b"\x18\xff\xff", "negative, tag 0"),
        (b"\x17\x10\x17\x00", "nested"),
        (b"\x47\x01", "inner"),
        (b"\xf8\xf8", "too wide, tag 0"),
        (b"\x17\xf8\0\0\xff\xff\xff\xff\xff\xff\xff\xff", "cut"),
    ] {
        let code = moving(rt.alloc(), operands)?;
        let mut message = String::new(rt.alloc());
        write!(message, "Code: operand at 21: {why}")?;
        lists(&rt, code.as_slice(), 3, "", message.as_str())?;
    }
    Ok(())
}

#[test]
fn faults_and_limits_have_their_status(rt: HostRuntime) -> Result<(), Fail> {
    let alloc = rt.alloc();
    let full = call(alloc, &["info", "F"], SAMPLE, 5)?;
    assert_eq!(rt; full.status, Status::WriteFault);
    assert_eq!(rt; full.out.written(), b"form ".as_slice());
    assert_eq!(rt; full.err.written(), b"beamkit: write fault\n".as_slice());
    let large = vec![in alloc; 0u8; 16_777_217]?;
    let refused = call(alloc, &["info", "F"], large.as_slice(), 1000)?;
    assert_eq!(rt; refused.status, Status::TooLarge);
    assert_eq!(rt;
        refused.err.written(),
        b"beamkit: F: more than 16777216 bytes\n".as_slice()
    );
    let mut out = MemSink::new(alloc, 100)?;
    let mut host = FileHost::new(rt, rt.stdin());
    let (status, err) = call_over(alloc, &["info", "no such file"], &mut host, &mut out)?;
    assert_eq!(rt; status, Status::ReadFault);
    assert_eq!(rt;
        err.written(),
        b"beamkit: no such file: read fault\n".as_slice()
    );
    Ok(())
}

#[test]
fn a_read_that_fails_has_its_status(rt: HostRuntime) -> Result<(), Fail> {
    let alloc = rt.alloc();
    let mut fails = NumberList::new(alloc);
    fails.push(3)?;
    let mut host = ScriptHost::new(files_of(alloc, &[SAMPLE])?, 20, fails);
    let mut out = MemSink::new(alloc, 100)?;
    let (status, err) = call_over(alloc, &["info", "F"], &mut host, &mut out)?;
    assert_eq!(rt; status, Status::ReadFault);
    assert_eq!(rt; out.written(), b"".as_slice());
    assert_eq!(rt; err.written(), b"beamkit: F: read fault\n".as_slice());
    Ok(())
}

#[test]
fn a_write_that_fails_has_its_status(rt: HostRuntime) -> Result<(), Fail> {
    let alloc = rt.alloc();
    let mut host = MemHost::new(files_of(alloc, &[SAMPLE])?);
    let mut out = ScriptSink::new(alloc, 100, 5, 2)?;
    let (status, err) = call_over(alloc, &["info", "F"], &mut host, &mut out)?;
    assert_eq!(rt; status, Status::WriteFault);
    assert_eq!(rt; out.written(), b"form ".as_slice());
    assert_eq!(rt; err.written(), b"beamkit: write fault\n".as_slice());
    Ok(())
}
