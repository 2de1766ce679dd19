use crate::module_payloads::{CODE, LINES};
use crate::tests::{SAMPLE, call, form, moving};
use crate::writing_tests::module_with;
use std::alloc::Global;
use std::test::Fail;

// The listing of the module with this code.
const LISTING: &str = "beam 1
chunk AtU8
  00000005016d02676f0665726c616e670b6d6f64756c655f696e666f0f676574
  5f6d6f64756c655f696e666f
code 153 7 3 -
  label u1
  line u1
  func_info a1 a2 u1  ; m go
  label u2
  allocate u1 u1
  move x0 y0
  line u2
  call u0 f4
  test_heap u2 u1
  put_list y0 x0 x0
  deallocate u1
  return
  label u3
  line u0
  func_info a1 a4 u0  ; m module_info
  label u4
  move a1 x0  ; m
  call_ext_only u1 u0  ; erlang:get_module_info/1
  label u5
  line u0
  func_info a1 a4 u1  ; m module_info
  label u6
  move x0 x1
  move a1 x0  ; m
  call_ext_only u2 u1  ; erlang:get_module_info/2
  int_code_end
chunk StrT
chunk ImpT
  00000002000000030000000500000001000000030000000500000002
chunk ExpT
  0000000300000004000000010000000600000004000000000000000400000002
  0000000100000002
chunk LocT
  00000000
chunk Attr
  836c000000016802770376736e6c000000016e10000100000000000000000000
  00000000016a6a
chunk Line
  00000000000000000000000400000002000000003141
";

const SAMPLE_LISTING: &str =
    "beam 1\nchunk AtU8\n  00000001016d\ncode 3 1 0 -\n  int_code_end\nchunk StrT\n";

// The same with comments, spaces at ends, empty lines, and no newline at the end.
const EDITED: &str = "; a module\n\nbeam 1   \nchunk AtU8;the atoms; of it\n  00000001016d  ; m\n \
\ncode 3 1 0 -\n  int_code_end ; the end\n   ;\nchunk StrT";

// A file whose one instruction is `move` with these operands, and with packed literals.
fn moving_file(alloc: Global, operands: &[u8]) -> Result<Vec<u8>, Fail> {
    let code = moving(alloc, operands)?;
    form(
        alloc,
        &[(b"Code", code.as_slice()), (b"LitT", b"\0\0\0\x09\0")],
    )
}

// Its listing, with this text of the operands.
fn moving_listing(alloc: Global, text: &str) -> Result<String, Fail> {
    let mut listing = String::new(alloc);
    write!(
        listing,
        "beam 1\ncode 3 1 0 -\n  move {text}\nchunk LitT\n  0000000900\n"
    )?;
    Ok(listing)
}

#[test]
fn operands_are_assembled_in_their_shortest_spelling(rt: HostRuntime) -> Result<(), Fail> {
    let wide = b"\xf9\x80\x01\x02\x03\x04\x05\x06\x07\x08\x09\x0a\x0b\x0c\x0d\x0e\x0f\x10\x11\x03";
    for (operands, text, shortest) in [
        (
            b"\x47\x70\x03".as_slice(),
            "l7 x0",
            b"\x47\x70\x03".as_slice(),
        ),
        (b"\x03\x0b\x01", "x0 x1", b"\x03\x13"),
        (wide, "w0102030405060708090a0b0c0d0e0f1011 x0", wide),
        (
            b"\x59\xff\xff\x7f\xff\x57\x03\x70",
            "i-32769 x0/7",
            b"\x39\xff\x7f\xff\x57\x03\x70",
        ),
    ] {
        let file = moving_file(rt.alloc(), operands)?;
        let canonical = moving_file(rt.alloc(), shortest)?;
        let listing = moving_listing(rt.alloc(), text)?;
        let listed = call(rt.alloc(), &["disasm", "F"], file.as_slice(), 1000)?;
        assert_eq!(rt; listed.out.written(), listing.as_bytes());
        let assembled = call(rt.alloc(), &["asm", "F"], listing.as_bytes(), 1000)?;
        assert_eq!(rt; assembled.out.written(), canonical.as_slice());
    }
    Ok(())
}

#[test]
fn files_are_listed(rt: HostRuntime) -> Result<(), Fail> {
    let module = module_with(rt.alloc(), CODE, LINES)?;
    for (file, listing) in [
        (module.as_slice(), LISTING),
        (SAMPLE, SAMPLE_LISTING),
        (b"FOR1\0\0\0\x04BEAM", "beam 1\n"),
    ] {
        let listed = call(rt.alloc(), &["disasm", "F"], file, 2000)?;
        assert_eq!(rt; listed.out.written(), listing.as_bytes());
    }
    Ok(())
}

#[test]
fn listings_are_assembled(rt: HostRuntime) -> Result<(), Fail> {
    let module = module_with(rt.alloc(), CODE, LINES)?;
    for (listing, file) in [
        (LISTING, module.as_slice()),
        (SAMPLE_LISTING, SAMPLE),
        (EDITED, SAMPLE),
        ("beam 1", b"FOR1\0\0\0\x04BEAM"),
    ] {
        let assembled = call(rt.alloc(), &["asm", "F"], listing.as_bytes(), 1000)?;
        assert_eq!(rt; assembled.status.code(), 0);
        assert_eq!(rt; assembled.out.written(), file);
    }
    Ok(())
}

#[test]
fn texts_that_are_no_listings_are_refused(rt: HostRuntime) -> Result<(), Fail> {
    for (text, said) in [
        (b"beam 1\nchunk AtU8\n  0\n".as_slice(), "line 3: hex"),
        (b"beam 1\ncode 3 1 0 -\n  foo\n", "line 3: op"),
        (
            b"beam 1\nchunk StrT\nchunk StrT\n",
            "line 3: chunk StrT twice",
        ),
        (b"", "line 1: head"),
        (b"; x", "line 1: head"),
        (b"\n;\nbeam 2\n", "line 3: head"),
        (
            b"beam 1\nchunk #00612d31\nchunk #00612d31",
            "line 3: chunk #00612d31 twice",
        ),
        (b"beam 1\n  00\n", "line 2: keyword"),
        (b"beam 1\nchunk Code\n", "line 2: id"),
        (b"beam 1\ncode 3 1 0\n", "line 2: number"),
        (b"beam 1\nchunk StrT\n  00\n  00\n", "line 4: short"),
        (b"beam 1\ncode 3 1 0 -\n  move x0\n", "line 3: operands"),
    ] {
        let found = call(rt.alloc(), &["asm", "F"], text, 1000)?;
        assert_eq!(rt; found.status.code(), 3, "at {said}");
        assert_eq!(rt; found.out.written(), b"".as_slice());
        let mut message = String::new(rt.alloc());
        write!(message, "beamkit: F: {said}\n")?;
        assert_eq!(rt; found.err.written(), message.as_bytes());
    }
    Ok(())
}
