use super::*;
use crate::refusal::ListingWhy::{Head, Hex, Id as BadId, Keyword, Number, Op, Operands, Short};
use iff_form::Id;
use listing_out::listing;
use std::alloc::Global;
use std::test::Fail;

// The line at which a text stops being a listing, and what is wrong with it.
fn wrong_line(alloc: Global, text: &[u8]) -> Option<(usize, ListingWhy)> {
    match read_listing(alloc, text) {
        Err(ListingRefusal::Line { number, why }) => Some((number, why)),
        _ => None,
    }
}

#[test]
fn heads_are_refused(rt: HostRuntime) -> Result<(), Fail> {
    let texts: [(&[u8], usize); 8] = [
        (b"", 1),
        (b"\n\n", 1),
        (b"; x", 1),
        (b"; x\n  ; y\n", 1),
        (b"beam 2\n", 1),
        (b" beam 1\n", 1),
        (b"; x\n\nbeam  1\n", 3),
        (b"beam 1\tx\n", 1),
    ];
    for (text, number) in texts {
        assert_eq!(rt; wrong_line(rt.alloc(), text), Some((number, Head)));
    }
    Ok(())
}

#[test]
fn keywords_are_refused(rt: HostRuntime) -> Result<(), Fail> {
    let texts: [(&[u8], usize, ListingWhy); 17] = [
        (b"beam 1\nbeam 1\n", 2, Keyword),
        (b"beam 1\n chunk StrT\n", 2, Keyword),
        (b"beam 1\nchunks StrT\n", 2, Keyword),
        (b"beam 1\n; x\n  00\n", 3, Keyword),
        (b"beam 1\nchunk\tStrT\n", 2, Keyword),
        (b"beam 1\nchunk\n", 2, BadId),
        (b"beam 1\nchunk  StrT\n", 2, BadId),
        (b"beam 1\nchunk StrT x\n", 2, BadId),
        (b"beam 1\nchunk Str\n", 2, BadId),
        (b"beam 1\nchunk St:T\n", 2, BadId),
        (b"beam 1\nchunk #53747254\n", 2, BadId),
        (b"beam 1\nchunk #0000000A\n", 2, BadId),
        (b"beam 1\nchunk #000000\n", 2, BadId),
        (b"beam 1\nchunk Code\n", 2, BadId),
        (b"beam 1\n\nchunk #436f6465\n", 3, BadId),
        (b"beam 1\nchunk StrT\nchunk Code ; x\n", 3, BadId),
        (b"beam 1\nchunk StrT\r\n", 2, BadId),
    ];
    for (text, number, why) in texts {
        assert_eq!(rt; wrong_line(rt.alloc(), text), Some((number, why)));
    }
    Ok(())
}

#[test]
fn headers_of_code_are_refused(rt: HostRuntime) -> Result<(), Fail> {
    let texts: [&[u8]; 14] = [
        b"code",
        b"code ",
        b"code 3 1 0",
        b"code 3 1 0 - 0",
        b"code  3 1 0 -",
        b"code 03 1 0 -",
        b"code +3 1 0 -",
        b"code 4294967296 1 0 -",
        b"code 3 1 -1 -",
        b"code 3 1 0 0",
        b"code 3 1 0 AB",
        b"code 3 1 0 --",
        b"code 3\t1 0 -",
        b"code 3 1 x -",
    ];
    for line in texts {
        let text = format!(in rt.alloc(); "beam 1\n{}\n", std::str::from_utf8(line)?)?;
        assert_eq!(rt; wrong_line(rt.alloc(), text.as_bytes()), Some((2, Number)));
    }
    Ok(())
}

#[test]
fn payloads_are_refused(rt: HostRuntime) -> Result<(), Fail> {
    let texts: [(&[u8], usize, ListingWhy); 10] = [
        (b"beam 1\nchunk AtU8\n  0\n", 3, Hex),
        (b"beam 1\nchunk AtU8\n  0A\n", 3, Hex),
        (b"beam 1\nchunk AtU8\n  0x\n", 3, Hex),
        (b"beam 1\nchunk AtU8\n   00\n", 3, Hex),
        (b"beam 1\nchunk AtU8\n  00 00\n", 3, Hex),
        (b"beam 1\nchunk AtU8\n  00\n  00\n", 4, Short),
        (b"beam 1\nchunk AtU8\n  00\n\n  ; x\n  x\n", 6, Short),
        (
            b"beam 1\nchunk AtU8\n  \
              0000000000000000000000000000000000000000000000000000000000000000\
              00\n",
            3,
            Hex,
        ),
        (
            b"beam 1\nchunk AtU8\n  \
              0000000000000000000000000000000000000000000000000000000000000000\n  0\n",
            4,
            Hex,
        ),
        (
            b"beam 1\nchunk AtU8\n  \
              0000000000000000000000000000000000000000000000000000000000000000\n  00\n  00\n",
            5,
            Short,
        ),
    ];
    for (text, number, why) in texts {
        assert_eq!(rt; wrong_line(rt.alloc(), text), Some((number, why)));
    }
    Ok(())
}

#[test]
fn instructions_are_refused(rt: HostRuntime) -> Result<(), Fail> {
    let lines: [(&str, ListingWhy); 30] = [
        ("foo", Op),
        (" return", Op),
        ("Return", Op),
        ("return\t", Op),
        ("return x0", Operands),
        ("move x0", Operands),
        ("move x0 x1 x2", Operands),
        ("move  x0 x1", Operands),
        ("move x0 x01", Operands),
        ("move x0 X1", Operands),
        ("move x0 x4294967296", Operands),
        ("move i-0 x1", Operands),
        ("move i00 x1", Operands),
        ("move i170141183460469231731687303715884105728 x1", Operands),
        ("move w00000000000000000000000000000000 x1", Operands),
        ("move w0A00000000000000000000000000000000 x1", Operands),
        ("move w x1", Operands),
        ("move u18446744073709551616 x1", Operands),
        ("move fr x1", Operands),
        ("move x x1", Operands),
        ("move z0 x1", Operands),
        ("move x0/ x1", Operands),
        ("move a0/1 x1", Operands),
        ("move x0/1/2 x1", Operands),
        ("move [x0,] x1", Operands),
        ("move [x0 x1", Operands),
        ("move [[]] x1", Operands),
        ("move {0:1,} x1", Operands),
        ("move {0:1:2} x1", Operands),
        ("move {0} x1", Operands),
    ];
    for (line, why) in lines {
        let text = format!(in rt.alloc(); "beam 1\ncode 3 1 0 -\n  {line}\n")?;
        assert_eq!(rt; wrong_line(rt.alloc(), text.as_bytes()), Some((3, why)));
    }
    Ok(())
}

#[test]
fn second_chunks_are_refused(rt: HostRuntime) -> Result<(), Fail> {
    let texts: [(&[u8], usize, Id); 4] = [
        (b"beam 1\nchunk StrT\nchunk StrT\n", 3, Id(*b"StrT")),
        (
            b"beam 1\nchunk #00000000\n  00\nchunk StrT\n; x\nchunk #00000000",
            6,
            Id([0; 4]),
        ),
        (
            b"beam 1\ncode 3 1 0 -\n  return\ncode 3 1 0 -\n",
            4,
            Id(*b"Code"),
        ),
        (
            b"beam 1\nchunk StrT\ncode 3 1 0 -\n\n\nchunk StrT\n  x\n",
            6,
            Id(*b"StrT"),
        ),
    ];
    for (text, line, id) in texts {
        let refusal = read_listing(rt.alloc(), text).err();
        assert_eq!(rt; refusal, Some(ListingRefusal::Twice { line, id }));
    }
    Ok(())
}

#[test]
fn listings_are_read(rt: HostRuntime) -> Result<(), Fail> {
    let texts: [(&[u8], &[u8]); 9] = [
        (b"beam 1", b"beam 1\n"),
        (b"\n;\n  ; x ; y\nbeam 1   ; z\n\n", b"beam 1\n"),
        (b"beam 1\nchunk StrT", b"beam 1\nchunk StrT\n"),
        (
            b"beam 1\nchunk StrT;x\n  00ff  ; x\n ;\n",
            b"beam 1\nchunk StrT\n  00ff\n",
        ),
        (
            b"beam 1\nchunk #0000000a\n  00",
            b"beam 1\nchunk #0000000a\n  00\n",
        ),
        (
            b"beam 1\ncode 4294967295 0 10 00ff\n  return   \nchunk Zzzz\n",
            b"beam 1\ncode 4294967295 0 10 00ff\n  return\nchunk Zzzz\n",
        ),
        (
            b"beam 1\nchunk StrT\n  \
              000102030405060708090a0b0c0d0e0f101112131415161718191a1b1c1d1e1f\n;\n  20\n",
            b"beam 1\nchunk StrT\n  \
              000102030405060708090a0b0c0d0e0f101112131415161718191a1b1c1d1e1f\n  20\n",
        ),
        (
            b"beam 1\ncode 3 1 0 -\n  move x0 y1 ; x\n  move i-5 fr2\n  select_val x0/3 f4 [a1,f2]\n\
              \x20 test_heap {0:5,2:1} u0\n  move [] x0\n  test_heap {} u18446744073709551615\n\
              \x20 move i-170141183460469231731687303715884105728 l7\n\
              \x20 move w0100000000000000000000000000000000 h65\n",
            b"beam 1\ncode 3 1 0 -\n  move x0 y1\n  move i-5 fr2\n  select_val x0/3 f4 [a1,f2]\n\
              \x20 test_heap {0:5,2:1} u0\n  move [] x0\n  test_heap {} u18446744073709551615\n\
              \x20 move i-170141183460469231731687303715884105728 l7\n\
              \x20 move w0100000000000000000000000000000000 h65\n",
        ),
        (
            b"beam 1\nchunk StrT\nchunk Aaaa\n  00\nchunk Bbbb\n",
            b"beam 1\nchunk StrT\nchunk Aaaa\n  00\nchunk Bbbb\n",
        ),
    ];
    for (text, lines) in texts {
        let file = read_listing(rt.alloc(), text)?;
        let listed = listing(rt.alloc(), &file)?;
        assert_eq!(rt; listed.as_slice(), lines);
    }
    Ok(())
}
