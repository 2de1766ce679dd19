use super::*;
use bk_base::Bytes;
use std::test::Fail;

#[test]
fn forms_are_read_or_refused(rt: HostRuntime) -> Result<(), Fail> {
    let bytes = b"FOR1\0\0\0\x18BEAMAtU8\0\0\0\x01x\xff\xff\xff\0a-1\0\0\0\0";
    let form = read_form(rt.alloc(), bytes)?;
    assert_eq!(rt; form.size(), 24);
    assert_eq!(rt; form.find(Id(*b"AtU8")), Some(b"x".as_slice()));
    assert_eq!(rt; form.find(Id(*b"AtU9")), None);
    assert_eq!(rt; form.chunks().len(), 2);
    assert_eq!(rt; form.chunks().last().map(|chunk| chunk.at), Some(24));
    assert!(rt; Id(*b"AtU8").is_plain());
    assert!(rt; !Id(*b"a-1 ").is_plain());
    assert_eq!(rt;
        IdText::new(Id(*b"a-1 ")).as_bytes(),
        b"#612d3120".as_slice()
    );
    let text = info_text(rt.alloc(), &form)?;
    assert_eq!(rt;
        text.as_slice(),
        b"form 24\nAtU8 1\n#00612d31 0\n".as_slice()
    );
    let (stated, found) = (4, 5);
    for (bytes, refusal) in [
        (b"\x1f\x8b".as_slice(), FormRefusal::Gzip),
        (b"FOR1\0\0\0\x04BEAN".as_slice(), FormRefusal::NotBeam),
        (
            b"FOR1\0\0\0\x04BEAM\0".as_slice(),
            FormRefusal::Size { stated, found },
        ),
    ] {
        assert_eq!(rt; read_form(rt.alloc(), bytes).err(), Some(refusal));
    }
    Ok(())
}

#[test]
fn chunks_are_written(rt: HostRuntime) -> Result<(), Fail> {
    let mut chunks = ChunkList::new(rt.alloc());
    let mut payload = Bytes::new(rt.alloc());
    payload.push(b'x')?;
    chunks.push(Id(*b"AtU8"), payload)?;
    chunks.push(Id(*b"\0a-1"), Bytes::new(rt.alloc()))?;
    assert_eq!(rt; chunks.len(), 2);
    assert_eq!(rt; chunks.get(0).map(|chunk| chunk.id), Some(Id(*b"AtU8")));
    assert!(rt; chunks.get(2).is_none());
    let file = write_form(rt.alloc(), &chunks)?;
    let bytes = b"FOR1\0\0\0\x18BEAMAtU8\0\0\0\x01x\0\0\0\0a-1\0\0\0\0";
    assert_eq!(rt; file.as_slice(), bytes.as_slice());
    chunks_meet_their_type();
    a_form_has_its_size();
    canonical_is_a_form();
    canonical_has_its_size();
    Ok(())
}
