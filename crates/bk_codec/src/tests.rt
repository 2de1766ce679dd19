use super::*;
use bk_base::Cursor;
use std::test::Fail;

#[test]
fn fields_are_read(rt: HostRuntime) -> Result<(), Fail> {
    let mut cur = Cursor::new(&[0, 1, 0, 2, 9]);
    assert_eq!(rt; word(&mut cur, "cut"), Ok(65_538));
    assert_eq!(rt; word(&mut cur, "cut"), Err("cut"));
    assert_eq!(rt; end(&cur, "rest"), Err("rest"));
    assert_eq!(rt; end(&Cursor::new(&[]), "rest"), Ok(()));
    let name = text(rt.alloc(), b"m", "bad", "memory");
    assert!(rt; name.is_ok_and(|name| name.as_bytes() == b"m".as_slice()));
    let none = text(rt.alloc(), &[0xff], "bad", "memory");
    assert!(rt; none.is_err_and(|why| why == "bad"));
    Ok(())
}
