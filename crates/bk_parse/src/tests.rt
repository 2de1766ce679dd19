use super::*;
use bk_base::Bytes;
use std::test::Fail;

// Numbers are in decimal without leading zeros, and within their bounds.
const NUMBERS: [(&[u8], Option<u32>, Option<u64>); 17] = [
    (b"0", Some(0), Some(0)),
    (b"7", Some(7), Some(7)),
    (b"10", Some(10), Some(10)),
    (b"4294967295", Some(4_294_967_295), Some(4_294_967_295)),
    (b"4294967296", None, Some(4_294_967_296)),
    (
        b"18446744073709551615",
        None,
        Some(18_446_744_073_709_551_615),
    ),
    (b"18446744073709551616", None, None),
    (b"99999999999999999999999999", None, None),
    (b"", None, None),
    (b"00", None, None),
    (b"01", None, None),
    (b"+1", None, None),
    (b"-1", None, None),
    (b" 1", None, None),
    (b"1 ", None, None),
    (b"1a", None, None),
    (&[0x31, 0xff], None, None),
];

const SIGNED: [(&[u8], Option<i128>); 15] = [
    (b"0", Some(0)),
    (b"1", Some(1)),
    (b"-1", Some(-1)),
    (b"-32769", Some(-32_769)),
    (b"170141183460469231731687303715884105727", Some(i128::MAX)),
    (b"170141183460469231731687303715884105728", None),
    (b"-170141183460469231731687303715884105728", Some(i128::MIN)),
    (b"-170141183460469231731687303715884105729", None),
    (b"", None),
    (b"-", None),
    (b"-0", None),
    (b"--1", None),
    (b"-+1", None),
    (b"-01", None),
    (b"+1", None),
];

#[test]
fn numbers_are_read(rt: HostRuntime) -> Result<(), Fail> {
    for (text, word, long) in NUMBERS {
        assert_eq!(rt; read_u32(text), word);
        assert_eq!(rt; read_u64(text), long);
    }
    for (text, expected) in SIGNED {
        assert_eq!(rt; read_i128(text), expected);
    }
    Ok(())
}

// Hexadecimal is in lower case, two digits for each byte.
#[test]
fn digits_are_read(rt: HostRuntime) -> Result<(), Fail> {
    let mut out = Bytes::new(rt.alloc());
    read_hex(&mut out, b"")?;
    read_hex(&mut out, b"00ff")?;
    read_hex(&mut out, b"0123456789abcdef")?;
    let expected = [0, 0xff, 1, 0x23, 0x45, 0x67, 0x89, 0xab, 0xcd, 0xef];
    assert_eq!(rt; out.as_slice(), expected.as_slice());
    let mut digits = Bytes::new(rt.alloc());
    for _ in 0..33 {
        digits.extend(b"5a")?;
    }
    let mut long = Bytes::new(rt.alloc());
    read_hex(&mut long, digits.as_slice())?;
    assert_eq!(rt; long.as_slice(), [0x5a; 33].as_slice());
    digits.push(b'5')?;
    let refused: [&[u8]; 6] = [b"0", b"0A", b"FF", b"0g", b"00 ", digits.as_slice()];
    for digits in refused {
        assert_eq!(rt; read_hex(&mut out, digits), Err(TextRefusal::Wrong));
    }
    Ok(())
}

#[test]
fn parts_are_read(rt: HostRuntime) -> Result<(), Fail> {
    let mut parts = Parts::new(b"a1,,f2,", b',');
    assert_eq!(rt; parts.next(), Some(b"a1".as_slice()));
    assert_eq!(rt; parts.next(), Some(b"".as_slice()));
    assert_eq!(rt; parts.next(), Some(b"f2".as_slice()));
    assert_eq!(rt; parts.next(), Some(b"".as_slice()));
    assert_eq!(rt; parts.next(), None);
    assert_eq!(rt; parts.next(), None);
    let mut none = Parts::new(b"", b',');
    assert_eq!(rt; none.next(), Some(b"".as_slice()));
    assert_eq!(rt; none.next(), None);
    Ok(())
}
