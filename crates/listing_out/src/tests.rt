use super::*;
use crate::code::put_code;
use crate::names::Names;
use crate::payload::put_payload;
use beam_module::{ChunkVal, FileVal, ModuleRefusal};
use bk_base::{ByteList, Bytes, ItemList};
use code_chunk::{CodeRefusal, read_code};
use iff_form::Id;
use std::alloc::Global;
use std::test::Fail;

#[test]
fn a_file_is_listed(rt: HostRuntime) -> Result<(), Fail> {
    let alloc = rt.alloc();
    let atoms = ByteList::from_slice(alloc, &[0, 0, 0, 1, 1, b'm'])?;
    let code = [
        0, 0, 0, 16, 0, 0, 0, 0, 0, 0, 0, 3, 0, 0, 0, 1, 0, 0, 0, 0, 3,
    ];
    let mut file = FileVal::new(alloc);
    file.push(Id(*b"AtU8"), ChunkVal::Raw(atoms))?;
    file.push(Id(*b"Code"), ChunkVal::Code(read_code(alloc, &code)?))?;
    file.push(Id(*b"StrT"), ChunkVal::Raw(ByteList::new(alloc)))?;
    let text = listing(alloc, &file)?;
    let lines = b"beam 1\nchunk AtU8\n  00000001016d\ncode 3 1 0 -\n  int_code_end\nchunk StrT\n";
    assert_eq!(rt; text.as_slice(), lines.as_slice());
    a_file_is_listable();
    listing_is_of_its_file();
    Ok(())
}

#[test]
fn a_file_is_listed_as_it_is_read(rt: HostRuntime) -> Result<(), Fail> {
    let alloc = rt.alloc();
    let mut file =
        *b"FOR1\0\0\0\x3cBEAMAtU8\0\0\0\x06\0\0\0\x01\x01m\0\0Code\0\0\0\x18\0\0\0\x10\0\0\0\0\
\0\0\0\x03\0\0\0\x01\0\0\0\x01\x02\x12\0\x03StrT\0\0\0\0";
    let text = file_listing(alloc, &file)?;
    let lines =
        b"beam 1\nchunk AtU8\n  00000001016d\ncode 3 1 1 -\n  func_info a1 u0 x0  ; m\nchunk StrT\n";
    assert_eq!(rt; text.as_slice(), lines.as_slice());
    // an opcode that is none, and a form that is cut
    file[56] = 0;
    let refusal = file_listing(alloc, &file).err();
    let wanted = CodeRefusal::Opcode { at: 20, op: 0 };
    assert!(rt; matches!(refusal, Some(ModuleRefusal::Code(found)) if found == wanted));
    assert!(rt;
        matches!(
            file_listing(alloc, &file[..60]),
            Err(ModuleRefusal::Form(_))
        )
    );
    Ok(())
}

// These names, as they stand in comments.
fn names_of(alloc: Global, names: &[&str]) -> Result<ItemList<ByteList>, Fail> {
    let mut list = ItemList::new(alloc);
    for name in names {
        list.push(ByteList::from_slice(alloc, name.as_bytes())?)?;
    }
    Ok(list)
}

#[test]
fn code_has_a_line_for_each_instruction(rt: HostRuntime) -> Result<(), Fail> {
    let code = [
        0, 0, 0, 17, 0, 0, 0, 0, 0, 0, 0, 64, 0, 0, 0, 1, 0, 0, 0, 2, 0xff, 0x40, 0x03, 0x0b, 0x01,
        0x40, 0x47, 0x70, 0x03, 0x02, 0x12, 0x22, 0x00, 0x40, 0x02, 0x03, 0x07, 0x10, 0x00, 0x7c,
        0x05, 0x10, 0x00, 0x03, 0x03, 0x3b, 0x03, 0x35, 0x17, 0x20, 0x12, 0x25, 0x40, 0x32, 0x03,
        3,
    ];
    let names = Names {
        atoms: names_of(rt.alloc(), &["m", "'a b'"])?,
        imports: names_of(rt.alloc(), &["erlang:f/1"])?,
    };
    let mut out = Bytes::new(rt.alloc());
    put_code(&mut out, &names, &read_code(rt.alloc(), &code)?)?;
    let lines = b"code 64 1 2 ff\n  move x0 x1\n  move l7 x0\n  func_info a1 a2 u0  ; m 'a b'\n\
\x20 move a0 x0\n  call_ext u1 u0  ; erlang:f/1\n  gc_bif1 f0 u1 u0 x0 x0  ; erlang:f/1\n\
\x20 select_val x0 f3 [a1,f2]  ; m\n  move a3 x0\n  int_code_end\n";
    assert_eq!(rt; out.as_slice(), lines.as_slice());
    Ok(())
}

#[test]
fn names_in_comments_keep_to_their_line(rt: HostRuntime) -> Result<(), Fail> {
    let alloc = rt.alloc();
    let atoms = ByteList::from_slice(alloc, b"\0\0\0\x02\x01m\x06a\n; b ")?;
    let code = [
        0, 0, 0, 16, 0, 0, 0, 0, 0, 0, 0, 3, 0, 0, 0, 1, 0, 0, 0, 1, 2, 0x12, 0x22, 0x00, 3,
    ];
    let mut file = FileVal::new(alloc);
    file.push(Id(*b"AtU8"), ChunkVal::Raw(atoms))?;
    file.push(Id(*b"Code"), ChunkVal::Code(read_code(alloc, &code)?))?;
    let text = listing(alloc, &file)?;
    let lines = b"beam 1\nchunk AtU8\n  00000002016d06610a3b206220\ncode 3 1 1 -\n\
\x20 func_info a1 a2 u0  ; m 'a\\x0a; b '\n  int_code_end\n";
    assert_eq!(rt; text.as_slice(), lines.as_slice());
    Ok(())
}

#[test]
fn payloads_stand_in_lines_of_32_bytes(rt: HostRuntime) -> Result<(), Fail> {
    let payload: [u8; 33] = [0xab; 33];
    let line = b"  abababababababababababababababababababababababababababababababab\n";
    let short = b"  ab\n";
    for (count, full, rest) in [(0, 0, 0), (1, 0, 1), (32, 1, 0), (33, 1, 1)] {
        let mut out = Bytes::new(rt.alloc());
        put_payload(&mut out, &payload[..count])?;
        let mut expected = Bytes::new(rt.alloc());
        expected.extend(&line[..full * line.len()])?;
        expected.extend(&short[..rest * short.len()])?;
        assert_eq!(rt; out.as_slice(), expected.as_slice());
    }
    Ok(())
}
