ghost use Rattle.std.specs.Prelude.{◌≤◌};
ghost use Rattle.module_gen.specs.Generated.{most_functions};

use super::*;
use beam_module::{ChunkVal, canon, open_module};
use std::alloc::Global;
use std::test::Fail;

fn file_of(alloc: Global, functions: u32) -> Result<Vec<u8>, Fail>
    requires least { 1 ≤ functions }
    requires most { functions ≤ most_functions }
{
    let file = canon(alloc, &generated(alloc, functions)?)?;
    let mut bytes = Vec::new(alloc);
    bytes.extend_from_slice(file.as_slice())?;
    Ok(bytes)
}

#[test]
fn a_module_of_one_function_is_made(rt: HostRuntime) -> Result<(), Fail> {
    let alloc = rt.alloc();
    let file = file_of(alloc, 1)?;
    let wanted: &[u8] = b"FOR1\0\0\0\xa8BEAM\
AtU8\0\0\0\x0b\0\0\0\x02\x03gen\x02f1\0\
Code\0\0\0\x3f\0\0\0\x10\0\0\0\0\0\0\0\xa3\0\0\0\x05\0\0\0\x01\
\x01\x10\x02\x12\x22\x10\x01\x20\x0c\x10\x10\x40\x03\x04\x01\x30\x38\x45\x04\xa3\x04\x04\x40\x04\x03\
\x04\x10\x25\x3d\x35\x01\x40\x10\x20\0\x45\x04\x02\x03\x12\x10\x13\x03\0\
StrT\0\0\0\0\
ImpT\0\0\0\x04\0\0\0\0\
ExpT\0\0\0\x10\0\0\0\x01\0\0\0\x02\0\0\0\x01\0\0\0\x02\
Attr\0\0\0\x12\x83l\0\0\0\x01h\x02w\x03vsnk\0\x01\x01j\0\0";
    assert_eq!(rt; file.as_slice(), wanted);
    Ok(())
}

#[test]
fn modules_of_many_functions_are_made(rt: HostRuntime) -> Result<(), Fail> {
    let alloc = rt.alloc();
    let file = file_of(alloc, 2000)?;
    assert_eq!(rt; file.len(), 145_400);
    let module = open_module(alloc, file.as_slice())?;
    assert_eq!(rt; module.functions(), 2000);
    let value = generated(alloc, 300)?;
    let number: &[u8] = b"\x83l\0\0\0\x01h\x02w\x03vsnl\0\0\0\x01b\0\0\x01\x2cjj";
    let mut seen = false;
    if let Some((_, ChunkVal::Raw(payload))) = value.get(5) {
        seen = payload.as_slice() == number;
    }
    assert!(rt; seen);
    Ok(())
}
