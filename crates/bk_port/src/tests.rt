use super::*;
use bk_base::{Bytes, Text};
use std::io::{BufWriter, Cursor};
use std::test::Fail;
use std::{env, fs, process};

#[test]
fn memory_is_read_and_written(rt: HostRuntime) -> Result<(), Fail> {
    let mut files = FileList::new(rt.alloc());
    assert!(rt; files.is_empty());
    for (name, contents) in [("a", "first"), ("a", "second"), ("empty", "")] {
        let mut bytes = Bytes::new(rt.alloc());
        bytes.extend(contents.as_bytes())?;
        files.push(Text::from_bytes(rt.alloc(), name.as_bytes())?, bytes)?;
    }
    let (name, bytes) = files.get(1).ok_or("no file")?;
    assert_eq!(rt; (name.as_str(), bytes.len()), ("a", 6));
    assert_eq!(rt; files.len(), 3);
    let mut host = MemHost::new(files);
    for (name, contents) in [("a", "first"), ("empty", ""), ("none", "")] {
        let name = Text::from_bytes(rt.alloc(), name.as_bytes())?;
        let loaded = load(rt.alloc(), &mut host, &name)?;
        assert_eq!(rt; loaded.as_slice(), contents.as_bytes(), "at {name:?}");
    }
    for (room, all, written) in [(9, true, "onetwo"), (6, true, "onetwo"), (4, false, "onet")] {
        let mut sink = MemSink::new(rt.alloc(), room)?;
        let outcome = emit_all(&mut sink, &[b"one", b"", b"two"]);
        assert_eq!(rt; outcome.is_ok(), all, "at {room}");
        assert_eq!(rt; sink.written(), written.as_bytes(), "at {room}");
        let outcome = emit(&mut sink, b"three");
        assert_eq!(rt; outcome, Err(WriteFault), "at {room}");
    }
    Ok(())
}

#[test]
fn hosts_follow_a_script(rt: HostRuntime) -> Result<(), Fail> {
    // Call 1 starts the file, 2 to 4 read two bytes each at most, and 5 reads its end.
    for (name, fails, contents) in [
        ("a", [0, 6], Ok("first")),
        ("a", [6, 1], Err(LoadFault::ReadFault)),
        ("a", [5, 6], Err(LoadFault::ReadFault)),
        ("none", [0, 6], Err(LoadFault::ReadFault)),
    ] {
        let mut bytes = Bytes::new(rt.alloc());
        bytes.extend(b"first")?;
        let mut files = FileList::new(rt.alloc());
        files.push(Text::from_bytes(rt.alloc(), b"a")?, bytes)?;
        let mut numbers = NumberList::new(rt.alloc());
        for number in fails {
            numbers.push(number)?;
        }
        let mut host = ScriptHost::new(files, 2, numbers);
        let name = Text::from_bytes(rt.alloc(), name.as_bytes())?;
        let loaded = load(rt.alloc(), &mut host, &name);
        let outcome = loaded
            .as_ref()
            .map(|bytes| bytes.as_slice())
            .map_err(|fault| *fault);
        assert_eq!(rt;
            outcome,
            contents.map(str::as_bytes),
            "at {name:?} {fails:?}"
        );
    }
    Ok(())
}

#[test]
fn sinks_follow_a_script(rt: HostRuntime) -> Result<(), Fail> {
    for (room, piece, fail_at, outcome, written) in [
        (6, 4, 0, Ok(()), "onetwo"),
        (6, 4, 3, Ok(()), "onetwo"),
        (6, 4, 2, Err(WriteFault), "onet"),
        (6, 4, 1, Err(WriteFault), ""),
        (5, 2, 0, Err(WriteFault), "onetw"),
    ] {
        let mut sink = ScriptSink::new(rt.alloc(), room, piece, fail_at)?;
        assert_eq!(rt; emit(&mut sink, b"onetwo"), outcome, "at {room} {fail_at}");
        assert_eq!(rt; sink.written(), written.as_bytes(), "at {room} {fail_at}");
    }
    Ok(())
}

#[test]
fn files_and_input_are_read(rt: HostRuntime) -> Result<(), Fail> {
    let folder = env::temp_dir(&rt)?;
    let own = process::id(rt.process());
    let path = format!(in rt.alloc(); "{}/bk_port_{own}", folder.as_str())?;
    let name = Text::from_bytes(rt.alloc(), path.as_bytes())?;
    fs::write(&rt, &path, "some bytes")?;
    let input = Text::from_bytes(rt.alloc(), b"-")?;
    let mut host = FileHost::new(rt, Cursor::new(*b"what is piped in"));
    // Standard input is read once, and then it is at its end.
    for (name, contents) in [
        (&name, "some bytes"),
        (&input, "what is piped in"),
        (&name, "some bytes"),
        (&input, ""),
    ] {
        let loaded = load(rt.alloc(), &mut host, name)?;
        assert_eq!(rt; loaded.as_slice(), contents.as_bytes(), "at {name:?}");
    }
    fs::remove_file(&rt, &path)?;
    let missing = load(rt.alloc(), &mut host, &name);
    assert!(rt; matches!(&missing, Err(LoadFault::ReadFault)));
    Ok(())
}

#[test]
fn writers_are_flushed(rt: HostRuntime) -> Result<(), Fail> {
    let mut writer = BufWriter::new(rt.alloc(), Cursor::new([0u8; 4]))?;
    for (piece, outcome, written) in [
        ("abc", Ok(()), [b'a', b'b', b'c', 0]),
        ("", Ok(()), [b'a', b'b', b'c', 0]),
        ("de", Err(WriteFault), *b"abcd"),
    ] {
        let mut sink = StdSink::new(&mut writer);
        assert_eq!(rt; emit(&mut sink, piece.as_bytes()), outcome, "at {piece}");
        assert_eq!(rt; *writer.get_ref().get_ref(), written, "at {piece}");
    }
    Ok(())
}
