use super::*;
use bk_base::Bytes;
use std::test::Fail;

#[test]
fn numbers_and_digits_are_put(rt: HostRuntime) -> Result<(), Fail> {
    let mut out = Bytes::new(rt.alloc());
    put_number(&mut out, 7u32)?;
    put_marked(&mut out, b" at ", -12i128)?;
    put_marked(&mut out, b":", 16_777_217u64)?;
    out.push(b' ')?;
    put_row(&mut out, &[0, 255])?;
    out.push(b' ')?;
    put_hex(&mut out, &[0x5a; 33])?;
    out.push(b' ')?;
    put_hex_backwards(&mut out, &[1, 0xab])?;
    let mut text = Bytes::new(rt.alloc());
    text.extend(b"7 at -12:16777217 00ff ")?;
    for _ in 0..33 {
        text.extend(b"5a")?;
    }
    text.extend(b" ab01")?;
    assert_eq!(rt; out.as_slice(), text.as_slice());
    Ok(())
}

#[test]
fn short_and_long_numbers_are_put(rt: HostRuntime) -> Result<(), Fail> {
    let mut out = Bytes::new(rt.alloc());
    for number in [0, 9, 10, 99, 100] {
        put_natural(&mut out, number)?;
        put_lettered(&mut out, b'x', number)?;
        out.push(b' ')?;
    }
    assert_eq!(rt; out.as_slice(), b"0x0 9x9 10x10 99x99 100x100 ".as_slice());
    Ok(())
}
