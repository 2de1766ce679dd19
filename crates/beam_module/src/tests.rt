use super::*;
use bk_base::{Bytes, Text};
use code_chunk::CodeRefusal;
use iff_form::{FormRefusal, Id, put_head, read_form};
use index_tables::TableRefusal;
use side_tables::SideRefusal;
use std::test::Fail;

const SAMPLE: &[u8] = b"FOR1\0\0\0\x3cBEAM\
AtU8\0\0\0\x06\0\0\0\x01\x01m\0\0\
Code\0\0\0\x15\0\0\0\x10\0\0\0\0\0\0\0\x03\0\0\0\x01\0\0\0\0\x03\0\0\0\
StrT\0\0\0\0";

#[test]
fn files_are_read_or_refused(rt: HostRuntime) -> Result<(), Fail> {
    let value = read_file(rt.alloc(), SAMPLE)?;
    assert_eq!(rt; value.len(), 3);
    let mut seen = (false, false);
    if let Some((id, ChunkVal::Raw(payload))) = value.get(0) {
        seen.0 = *id == Id(*b"AtU8") && payload.as_slice() == b"\0\0\0\x01\x01m".as_slice();
    }
    if let Some((id, ChunkVal::Code(code))) = value.get(1) {
        seen.1 = *id == Id(*b"Code") && code.max_op == 3 && code.labels == 1;
    }
    assert_eq!(rt; seen, (true, true));
    assert!(rt; value.get(3).is_none());
    let cut = ModuleRefusal::Form(FormRefusal::ChunkCut { at: 12 });
    let header = ModuleRefusal::Code(CodeRefusal::Header);
    for (bytes, refusal) in [
        (b"FOR1\0\0\0\x0cBEAMCode\0\0\0\x01".as_slice(), cut),
        (b"FOR1\0\0\0\x0cBEAMCode\0\0\0\0".as_slice(), header),
    ] {
        assert_eq!(rt; read_file(rt.alloc(), bytes).err(), Some(refusal));
    }
    reading_is_exact();
    one_file();
    Ok(())
}

#[test]
fn canonical_files_are_written(rt: HostRuntime) -> Result<(), Fail> {
    for (bytes, file) in [
        (
            b"FOR1\0\0\0\x3cBEAM\
AtU8\0\0\0\x06\0\0\0\x01\x01m\xff\xff\
Code\0\0\0\x15\0\0\0\x10\0\0\0\0\0\0\0\x03\0\0\0\x01\0\0\0\0\x03\xff\xff\xff\
StrT\0\0\0\0"
                .as_slice(),
            SAMPLE,
        ),
        // x1 in two bytes, which is written in one
        (
            b"FOR1\0\0\0\x28BEAMCode\0\0\0\x19\
\0\0\0\x10\0\0\0\0\0\0\0\x03\0\0\0\x01\0\0\0\0\x40\x03\x0b\x01\x03\0\0\0"
                .as_slice(),
            b"FOR1\0\0\0\x24BEAMCode\0\0\0\x18\
\0\0\0\x10\0\0\0\0\0\0\0\x03\0\0\0\x01\0\0\0\0\x40\x03\x13\x03"
                .as_slice(),
        ),
    ] {
        let value = read_file(rt.alloc(), bytes)?;
        let found = canon(rt.alloc(), &value)?;
        assert_eq!(rt; found.as_slice(), file);
    }
    canon_is_a_file();
    canon_is_shortest();
    a_file_meets_its_type();
    a_file_has_a_canon();
    Ok(())
}

#[test]
fn modules_are_named_and_stripped(rt: HostRuntime) -> Result<(), Fail> {
    let bytes =
        b"FOR1\0\0\04BEAMLocT\0\0\0\x01a\xff\xff\xffAtU8\0\0\0\x06\0\0\0\x01\x01m\xff\xffAttr\0\0\0\0Meta\0\0\0\x01b\0\0\0";
    let form = read_form(rt.alloc(), bytes)?;
    assert_eq!(rt; module_name(rt.alloc(), &form)?.as_bytes(), b"m".as_slice());
    let stripped = strip(rt.alloc(), &form)?;
    let kept = b"FOR1\0\0\0 BEAMAtU8\0\0\0\x06\0\0\0\x01\x01m\0\0Meta\0\0\0\x01b\0\0\0";
    assert_eq!(rt; stripped.as_slice(), kept.as_slice());
    let id = Id(*b"AtU8");
    let why = TableWhy::Index(TableRefusal::Cut);
    for (bytes, refusal) in [
        (
            b"FOR1\0\0\0\x10BEAMMeta\0\0\0\x01b\0\0\0".as_slice(),
            ModuleRefusal::Missing { id },
        ),
        (
            b"FOR1\0\0\0\x10BEAMAtU8\0\0\0\x04\0\0\0\0".as_slice(),
            ModuleRefusal::Missing { id },
        ),
        (
            b"FOR1\0\0\0\x10BEAMAtU8\0\0\0\x03\0\0\0\0".as_slice(),
            ModuleRefusal::Table { id, why },
        ),
    ] {
        let form = read_form(rt.alloc(), bytes)?;
        assert_eq!(rt; module_name(rt.alloc(), &form).err(), Some(refusal));
    }
    Ok(())
}

#[test]
fn modules_are_compared(rt: HostRuntime) -> Result<(), Fail> {
    let name = Text::from_bytes(rt.alloc(), b"m")?;
    let bytes = b"FOR1\0\0\0(BEAMStrT\0\0\0\x01a\0\0\0Line\0\0\0\x01b\0\0\0CInf\0\0\0\x01c\0\0\0";
    let form = read_form(rt.alloc(), bytes)?;
    for (bytes, other_name, answer) in [
        (
            b"FOR1\0\0\0(BEAMStrT\0\0\0\x01a\0\0\0Line\0\0\0\x01b\0\0\0CInf\0\0\0\x01d\0\0\0".as_slice(),
            b"m".as_slice(),
            Compared::Same,
        ),
        (
            b"FOR1\0\0\0\x1cBEAMLine\0\0\0\x01b\0\0\0StrT\0\0\0\x01a\0\0\0".as_slice(),
            b"m".as_slice(),
            Compared::Same,
        ),
        (
            b"FOR1\0\0\0\x10BEAMStrT\0\0\0\x01a\0\0\0".as_slice(),
            b"n".as_slice(),
            Compared::Modules,
        ),
        (
            b"FOR1\0\0\0 BEAMLine\0\0\0\x01d\0\0\0Zzzz\0\0\0\0Attr\0\0\0\0".as_slice(),
            b"m".as_slice(),
            Compared::Ids { id: Id(*b"Attr") },
        ),
        (
            b"FOR1\0\0\0(BEAMStrT\0\0\0\x01d\0\0\0Line\0\0\0\x01d\0\0\0CInf\0\0\0\x01c\0\0\0".as_slice(),
            b"m".as_slice(),
            Compared::Chunk { id: Id(*b"Line") },
        ),
    ] {
        let other = read_form(rt.alloc(), bytes)?;
        let other_name = Text::from_bytes(rt.alloc(), other_name)?;
        assert_eq!(rt;
            compare(rt.alloc(), &form, &name, &other, &other_name)?,
            answer
        );
    }
    names_are_exact();
    comparison_tells_what_differs();
    one_comparison();
    Ok(())
}

// Chunks, each with its padding: atoms `m` and `f`, and a function `f/1` that returns.
const ATOMS: &[u8] = b"AtU8\0\0\0\x08\0\0\0\x02\x01m\x01f";

const CODE: &[u8] = b"Code\0\0\0\x1e\0\0\0\x10\0\0\0\0\0\0\0\x13\0\0\0\x03\0\0\0\x01\
\x01\x10\x02\x12\x22\x10\x01\x20\x13\x03\0\0";

const IMPORTS: &[u8] = b"ImpT\0\0\0\x10\0\0\0\x01\0\0\0\x01\0\0\0\x02\0\0\0\x03";

const FUNS: &[u8] =
    b"FunT\0\0\0\x1c\0\0\0\x01\0\0\0\x02\0\0\0\x01\0\0\0\x02\0\0\0\0\0\0\0\0\0\0\0\0";

const TWO_LITERALS: &[u8] =
    b"LitT\0\0\0\x15\0\0\0\0\0\0\0\x02\0\0\0\x03\x83\x61\x05\0\0\0\x02\x83\x46\0\0\0";

const PACKED: &[u8] = b"LitT\0\0\0\x05\0\0\0\x09\0\0\0\0";

// The same, each with something wrong: no atom, and code that is one `return`.
const NO_ATOM: &[u8] = b"AtU8\0\0\0\x04\0\0\0\0";

const RETURN: &[u8] = b"Code\0\0\0\x15\0\0\0\x10\0\0\0\0\0\0\0\x13\0\0\0\x01\0\0\0\0\x13\0\0\0";

const CUT_CHUNK: &[u8] = b"AtU8\0\0\0\x05";

const CUT_ATOMS: &[u8] = b"AtU8\0\0\0\0";

const CUT_CODE: &[u8] = b"Code\0\0\0\0";

const CUT_IMPORTS: &[u8] = b"ImpT\0\0\0\0";

const CUT_EXPORTS: &[u8] = b"ExpT\0\0\0\0";

const CUT_LOCALS: &[u8] = b"LocT\0\0\0\0";

const CUT_FUNS: &[u8] = b"FunT\0\0\0\0";

const CUT_LITERALS: &[u8] = b"LitT\0\0\0\0";

// The form of these chunks.
fn form_of(rt: &impl AllocGlobal, chunks: &[&[u8]]) -> Result<Bytes, Fail> {
    let mut body = Bytes::new(rt.alloc());
    for chunk in chunks {
        body.extend(chunk)?;
    }
    let size = u32::try_from(body.len()).unwrap_or(0);
    let mut file = Bytes::new(rt.alloc());
    put_head(&mut file, size.saturating_add(4))?;
    file.extend(body.as_slice())?;
    Ok(file)
}

// That a table is cut.
fn cut_table(id: &[u8; 4]) -> ModuleRefusal {
    ModuleRefusal::Table {
        id: Id(*id),
        why: TableWhy::Index(TableRefusal::Cut),
    }
}

#[test]
fn modules_are_refused_in_order(rt: HostRuntime) -> Result<(), Fail> {
    let side = TableWhy::Side(SideRefusal::Cut);
    let literals = Id(*b"LitT");
    let atoms = Id(*b"AtU8");
    let code = Id(*b"Code");
    // each with two things wrong, but for the last
    for (chunks, refusal) in [
        (
            [CUT_CHUNK].as_slice(),
            ModuleRefusal::Form(FormRefusal::ChunkCut { at: 12 }),
        ),
        ([].as_slice(), ModuleRefusal::Missing { id: atoms }),
        ([CUT_ATOMS].as_slice(), ModuleRefusal::Missing { id: code }),
        ([CUT_CODE, CUT_ATOMS].as_slice(), cut_table(b"AtU8")),
        (
            [CUT_CODE, NO_ATOM].as_slice(),
            ModuleRefusal::Missing { id: atoms },
        ),
        (
            [CUT_IMPORTS, CUT_CODE, ATOMS].as_slice(),
            ModuleRefusal::Code(CodeRefusal::Header),
        ),
        (
            [CUT_EXPORTS, CUT_IMPORTS, CODE, ATOMS].as_slice(),
            cut_table(b"ImpT"),
        ),
        (
            [CUT_LOCALS, CUT_EXPORTS, CODE, ATOMS].as_slice(),
            cut_table(b"ExpT"),
        ),
        (
            [CUT_FUNS, CUT_LOCALS, CODE, ATOMS].as_slice(),
            cut_table(b"LocT"),
        ),
        (
            [CUT_LITERALS, CUT_FUNS, CODE, ATOMS].as_slice(),
            cut_table(b"FunT"),
        ),
        (
            [CUT_LITERALS, RETURN, ATOMS].as_slice(),
            ModuleRefusal::Table {
                id: literals,
                why: side,
            },
        ),
        (
            [RETURN, ATOMS].as_slice(),
            ModuleRefusal::Functions {
                at: 0,
                why: FunctionWhy::Start,
            },
        ),
    ] {
        let file = form_of(&rt, chunks)?;
        assert_eq!(rt;
            open_module(rt.alloc(), file.as_slice()).err(),
            Some(refusal)
        );
    }
    opening_is_exact();
    one_module();
    Ok(())
}

// Whether a function is the one of the module below.
fn is_its_function(function: &Function<'_>) -> bool {
    function.first() == 0
        && function.entry() == 2
        && function.arity() == 1
        && function.name() == 2
        && function.instrs().len() == 4
        && function.place_of(2) == Some(2)
        && function.place_of(3).is_none()
}

fn has_its_function(module: &Module<'_>) -> bool {
    match module.function(0) {
        Some(function) => is_its_function(&function),
        None => false,
    }
}

fn has_its_tables(module: &Module<'_>) -> bool {
    module.form().chunks().len() == 5
        && module.atoms().len() == 2
        && module.imports().len() == 1
        && module.funs().len() == 1
}

#[test]
fn modules_are_opened(rt: HostRuntime) -> Result<(), Fail> {
    let file = form_of(&rt, &[PACKED, FUNS, IMPORTS, CODE, ATOMS])?;
    let module = open_module(rt.alloc(), file.as_slice())?;
    assert!(rt; has_its_tables(&module) && has_its_function(&module));
    assert!(rt; module.functions() == 1 && module.function(1).is_none());
    assert!(rt; module.entry_of(2) == Some(1) && module.entry_of(1).is_none());
    Ok(())
}

#[test]
fn literals_of_a_module_are_counted(rt: HostRuntime) -> Result<(), Fail> {
    for (chunks, count) in [
        ([CODE, ATOMS].as_slice(), Some(0)),
        ([TWO_LITERALS, CODE, ATOMS].as_slice(), Some(2)),
        ([PACKED, CODE, ATOMS].as_slice(), None),
    ] {
        let file = form_of(&rt, chunks)?;
        let module = open_module(rt.alloc(), file.as_slice())?;
        assert_eq!(rt; module.literals(), count);
    }
    Ok(())
}
