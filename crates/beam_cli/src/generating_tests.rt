use super::*;
use crate::tests::{SAMPLE, call};
use std::test::Fail;

#[test]
fn modules_are_made_and_judged(rt: HostRuntime) -> Result<(), Fail> {
    for (count, text) in [
        (
            "1",
            "module gen\nfunctions 1\ninstructions 17\nbytes 176\naccepted\n",
        ),
        (
            "2000",
            "module gen\nfunctions 2000\ninstructions 32001\nbytes 145400\naccepted\n",
        ),
    ] {
        let made = call(rt.alloc(), &["gen", count], SAMPLE, 1000)?;
        assert_eq!(rt; made.status, Status::Done, "at {count}");
        assert_eq!(rt; made.out.written(), text.as_bytes());
        assert_eq!(rt; made.err.written(), b"".as_slice());
    }
    Ok(())
}
