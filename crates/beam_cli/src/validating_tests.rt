use crate::module_payloads::{self, ATTRIBUTES, CODE, EXPORTS, LINES};
use crate::tests::{SAMPLE, call, form};
use crate::writing_tests::module_with;
use std::alloc::Global;
use std::process::Abort;
use std::test::Fail;

const ATOMS: &[u8] = b"\0\0\0\x04\x01m\x01f\x06erlang\x05error";

// erlang:error/1.
const IMPORTS: &[u8] = b"\0\0\0\x01\0\0\0\x03\0\0\0\x04\0\0\0\x01";

// Functions that are named f, each by its arity as an operand and its instructions behind the label
// of its entry. The first is entered at label 2, the second at label 4.
type Functions<'a> = &'a [(u8, &'a [u8])];

// Functions, and the status and the output of `validate` on their module.
const VERDICTS: [(Functions<'static>, u8, &str); 16] = [
    (
        &[
            // f/1: allocate u3 u1, move x0 y2, trim u2 u1, move y0 x0, is_nil f3 x0, deallocate u2,
            // return, label u3, return.
            (
                0x10,
                b"\x0c\x30\x10\x40\x03\x24\x88\x20\x10\x40\x04\x03\x34\x35\x03\x12\x20\x13\x01\x30\
\x13",
            ),
        ],
        1,
        "f/1 8 deallocate: frame size\nf/1 11 return: frame open\nrefused 2\n",
    ),
    (
        &[
            // f/1: is_nil f3 x0, allocate u0 u1, label u3, return.
            (0x10, b"\x34\x35\x03\x0c\x00\x10\x01\x30\x13"),
        ],
        1,
        "f/1 6 return: clash\nrefused 1\n",
    ),
    (
        &[
            // f/1: is_nil f3 x0, move i1 x1, label u3, is_atom f4 x1, label u4, return.
            (
                0x10,
                b"\x34\x35\x03\x40\x11\x13\x01\x30\x30\x45\x13\x01\x40\x13",
            ),
        ],
        1,
        "f/1 6 is_atom: unset x1\nrefused 1\n",
    ),
    (
        &[
            // f/1: test_heap u4 u1, three times put_list x0 a0 x0, return.
            (
                0x10,
                b"\x10\x40\x10\x45\x03\x02\x03\x45\x03\x02\x03\x45\x03\x02\x03\x13",
            ),
        ],
        1,
        "f/1 6 put_list: heap\nrefused 1\n",
    ),
    (
        &[
            // f/1: is_nil f3 x0, test_heap u4 u1, jump f4, label u3, test_heap u2 u1, label u4,
            // put_list x0 a0 x0, return.
            (
                0x10,
                b"\x34\x35\x03\x10\x40\x10\x3d\x45\x01\x30\x10\x20\x10\x01\x40\x45\x03\x02\x03\x13",
            ),
        ],
        1,
        "f/1 9 put_list: heap\nrefused 1\n",
    ),
    (
        &[
            // f/1: allocate u2 u1, init_yregs [y0,y1], try y1 f3, try y0 f4, call u1 f2, try_end
            // y0, try_end y1, deallocate u2, return, label u4, try_case y0, try_end y1, deallocate
            // u2, return, label u3, try_case y1, deallocate u2, return.
            (
                0x10,
                b"\x0c\x20\x10\xac\x17\x20\x04\x14\x68\x14\x35\x68\x04\x45\x04\x10\x25\x69\x04\x69\
\x14\x12\x20\x13\x01\x40\x6a\x04\x69\x14\x12\x20\x13\x01\x30\x6a\x14\x12\x20\x13",
            ),
        ],
        0,
        "accepted\n",
    ),
    (
        &[
            // f/1: allocate u2 u1, init_yregs [y0,y1], try y0 f3, try y1 f4, call u1 f2, try_end
            // y1, try_end y0, deallocate u2, return, label u4, try_case y1, try_end y0, deallocate
            // u2, return, label u3, try_case y0, deallocate u2, return.
            (
                0x10,
                b"\x0c\x20\x10\xac\x17\x20\x04\x14\x68\x04\x35\x68\x14\x45\x04\x10\x25\x69\x14\x69\
\x04\x12\x20\x13\x01\x40\x6a\x14\x69\x04\x12\x20\x13\x01\x30\x6a\x04\x12\x20\x13",
            ),
        ],
        1,
        "f/1 6 try: order y1\nf/1 8 try_end: innermost y1\nf/1 19 deallocate: open tag y1\nrefused 3\n",
    ),
    (
        &[
            // f/0: jump f4.
            (0x00, b"\x3d\x45"),
            // f/1: return.
            (0x10, b"\x13"),
        ],
        1,
        "f/0 3 jump: label 1\nrefused 1\n",
    ),
    (
        &[
            // f/0: move a0 x0.
            (0x00, b"\x40\x02\x03"),
            // f/1: return.
            (0x10, b"\x13"),
        ],
        1,
        "f/0 3 move: leave\nrefused 1\n",
    ),
    (
        &[
            // f/0: move a0 x0, call_ext u1 u0.
            (0x00, b"\x40\x02\x03\x07\x10\x00"),
            // f/1: return.
            (0x10, b"\x13"),
        ],
        0,
        "accepted\n",
    ),
    (
        &[
            // f/0: move a0 x0, return.
            (0x00, b"\x40\x02\x03\x13"),
            // f/1: put_list x0 a0 x0, return.
            (0x10, b"\x45\x03\x02\x03\x13"),
        ],
        1,
        "f/1 8 put_list: heap\nrefused 1\n",
    ),
    (
        &[
            // f/0: return.
            (0x00, b"\x13"),
            // f/1: put_list x0 a0 x0, return.
            (0x10, b"\x45\x03\x02\x03\x13"),
        ],
        1,
        "f/0 3 return: unset x0\nf/1 7 put_list: heap\nrefused 2\n",
    ),
    (
        &[
            // f/2: label u3, is_atom f4 x1, test_heap u0 u1, jump f3, label u4, return.
            (
                0x20,
                b"\x01\x30\x30\x45\x13\x10\x00\x10\x3d\x35\x01\x40\x13",
            ),
        ],
        1,
        "f/2 4 is_atom: unset x1\nrefused 1\n",
    ),
    (
        &[
            // f/0: fclearerror, move a0 x0, return.
            (0x00, b"\x5e\x40\x02\x03\x13"),
        ],
        1,
        "f/0 3 fclearerror: unsupported\nrefused 1\n",
    ),
    (
        &[
            // f/1: allocate u1 u1, catch y0 f3, call u1 f2, label u3, catch_end y0, deallocate u1,
            // return.
            (
                0x10,
                b"\x0c\x10\x10\x3e\x04\x35\x04\x10\x25\x01\x30\x3f\x04\x12\x10\x13",
            ),
        ],
        0,
        "accepted\n",
    ),
    (
        &[
            // f/1: allocate u1 u1, catch y0 f3, call u1 f2, label u3, try_end y0, deallocate u1,
            // return.
            (
                0x10,
                b"\x0c\x10\x10\x3e\x04\x35\x04\x10\x25\x01\x30\x69\x04\x12\x10\x13",
            ),
        ],
        1,
        "f/1 7 try_end: innermost y0\nf/1 9 return: unset x0\nrefused 2\n",
    ),
];

// The form of a module of these functions, whose code states so many, with four atoms and one import
// whether they need them or not.
fn module_of(alloc: Global, count: u8, functions: Functions<'_>) -> Result<Vec<u8>, Fail> {
    let mut code = Vec::new(alloc);
    code.extend_from_slice(b"\0\0\0\x10\0\0\0\0\0\0\0\xb6\0\0\0\x0a\0\0\0")?;
    code.push(count)?;
    for ((arity, body), (before, entry)) in functions.iter().zip([(0x10, 0x20), (0x30, 0x40)]) {
        code.extend_from_slice(&[1, before, 2, 0x12, 0x22, *arity, 1, entry])?;
        code.extend_from_slice(body)?;
    }
    code.push(3)?;
    form(
        alloc,
        &[
            (b"AtU8", ATOMS),
            (b"Code", code.as_slice()),
            (b"ImpT", IMPORTS),
        ],
    )
}

// Whether `validate` gives this status, this output and this message on a file.
fn is_judged(
    alloc: Global,
    file: &[u8],
    status: u8,
    output: &str,
    message: &str,
) -> Result<bool, Fail> {
    let found = call(alloc, &["validate", "F"], file, 1000)?;
    Ok(
        found.status.code() == status
            && found.out.written() == output.as_bytes()
            && found.err.written() == message.as_bytes(),
    )
}

fn has_verdict(
    alloc: Global,
    functions: Functions<'_>,
    status: u8,
    output: &str,
) -> Result<bool, Fail> {
    let count = if functions.len() == 2 { 2 } else { 1 };
    let file = module_of(alloc, count, functions)?;
    is_judged(alloc, file.as_slice(), status, output, "")
}

#[test]
fn modules_are_judged(rt: HostRuntime) -> Result<(), Fail> {
    for (functions, status, output) in VERDICTS {
        assert!(rt;
            has_verdict(rt.alloc(), functions, status, output)?,
            "at {output}"
        );
    }
    Ok(())
}

// The form of a module of three functions, with this code and these literals.
fn form_with<'x>(alloc: Global, code: &'x [u8], literals: &'x [u8]) -> Result<Vec<u8>, Fail> {
    form(
        alloc,
        &[
            (b"AtU8", module_payloads::ATOMS),
            (b"Code", code),
            (b"StrT", b""),
            (b"ImpT", module_payloads::IMPORTS),
            (b"ExpT", EXPORTS),
            (b"LocT", b"\0\0\0\0"),
            (b"Attr", ATTRIBUTES),
            (b"Line", LINES),
            (b"LitT", literals),
        ],
    )
}

// Whether `validate` gives this status and this output where the module has these literals, and moves
// the one with the number 7 at place 16.
fn is_judged_by_literals(
    alloc: Global,
    literals: &[u8],
    status: u8,
    output: &str,
) -> Result<bool, Fail> {
    let mut code = Vec::new(alloc);
    code.extend_from_slice(&CODE[..61])?;
    code.extend_from_slice(b"\x40\x47\x70\x03")?;
    code.extend_from_slice(&CODE[64..])?;
    let file = form_with(alloc, code.as_slice(), literals)?;
    is_judged(alloc, file.as_slice(), status, output, "")
}

#[test]
fn literals_are_counted_unless_packed(rt: HostRuntime) -> Result<(), Fail> {
    for (literals, status, output) in [
        (b"\0\0\0\x09\0".as_slice(), 0, "accepted\n"),
        (
            b"\0\0\0\0\0\0\0\x02\0\0\0\x03\x83a\x05\0\0\0\x02\x83F",
            1,
            "module_info/0 16 move: index 1\nrefused 1\n",
        ),
    ] {
        assert!(rt;
            is_judged_by_literals(rt.alloc(), literals, status, output)?,
            "at {output}"
        );
    }
    Ok(())
}

#[test]
fn files_without_a_module_are_refused(rt: HostRuntime) -> Result<(), Fail> {
    let alloc = rt.alloc();
    let whole = module_with(alloc, CODE, LINES)?;
    let counted = module_of(alloc, 2, &[(0x10, b"\x13")])?;
    let codeless = form(alloc, &[(b"AtU8", ATOMS)])?;
    let nameless = form(alloc, &[(b"Code", CODE)])?;
    for (file, status, output, message) in [
        (SAMPLE, 0, "accepted\n", ""),
        (whole.as_slice(), 0, "accepted\n", ""),
        (
            counted.as_slice(),
            3,
            "",
            "beamkit: F: functions: count at 0\n",
        ),
        (codeless.as_slice(), 3, "", "beamkit: F: no chunk Code\n"),
        (nameless.as_slice(), 3, "", "beamkit: F: no chunk AtU8\n"),
    ] {
        assert!(rt;
            is_judged(alloc, file, status, output, message)?,
            "at {output}{message}"
        );
    }
    Ok(())
}
