ghost use Rattle.std.specs.Prelude.{◌≡◌, ◌+◌};

use super::*;
use std::test::Fail;

#[test]
fn buffers_hold_what_was_put(rt: HostRuntime) -> Result<(), Fail> {
    let mut bytes = Bytes::new(rt.alloc());
    bytes.reserve(3)?;
    bytes.push(1)?;
    bytes.extend(&[2, 3])?;
    assert_eq!(rt; bytes.as_slice(), [1, 2, 3].as_slice());
    assert_eq!(rt; (bytes.len(), bytes.is_empty()), (3, false));
    let list = ByteList::from_slice(rt.alloc(), bytes.as_slice())?;
    assert_eq!(rt; (list.len(), list.is_empty()), (3, false));
    assert_eq!(rt; Bytes::from(list).as_slice(), [1, 2, 3].as_slice());
    assert!(rt; ByteList::from(bytes).len() == 3 && ByteList::new(rt.alloc()).is_empty());
    Ok(())
}

#[test]
fn words_are_text(rt: HostRuntime) -> Result<(), Fail> {
    let mut words = WordList::new(rt.alloc());
    assert!(rt; words.is_empty());
    words.push(Text::from_bytes(rt.alloc(), b"info")?)?;
    words.push(Text::from(String::from_str(rt.alloc(), "-")?))?;
    assert_eq!(rt; words.len(), 2);
    assert_eq!(rt;
        words.get(0).ok_or("no word")?.as_bytes(),
        b"info".as_slice()
    );
    assert_eq!(rt; words.get(1).ok_or("no word")?.as_str(), "-");
    assert!(rt; words.get(2).is_none());
    let refused = Text::from_bytes(rt.alloc(), &[b'a', 0xff]);
    assert!(rt; matches!(&refused, Err(TextFault::NotUtf8)));
    Ok(())
}

#[test]
fn an_item_is_put_in_the_place_of_another(rt: HostRuntime) -> Result<(), Fail> {
    let mut items = ItemList::new(rt.alloc());
    items.push(TagKind::Try)?;
    items.push(TagKind::Try)?;
    items.push(TagKind::Try)?;
    items.set(1, TagKind::Catch);
    assert_eq!(rt;
        items.as_slice(),
        [TagKind::Try, TagKind::Catch, TagKind::Try].as_slice()
    );
    Ok(())
}

#[test]
fn a_cursor_reads_from_the_front(rt: HostRuntime) -> Result<(), Fail> {
    let mut cursor = Cursor::new(&[1, 0, 2, 0, 0, 1, 0, 9]);
    assert_eq!(rt; cursor.byte(), Some(1));
    assert_eq!(rt; cursor.be16(), Some(2));
    assert_eq!(rt; cursor.be32(), Some(256));
    assert_eq!(rt; cursor.be16(), None);
    assert_eq!(rt; (cursor.at(), cursor.is_empty()), (7, false));
    assert_eq!(rt; cursor.rest(), [9].as_slice());
    assert_eq!(rt; cursor.take(1).ok_or("no byte")?, [9].as_slice());
    assert!(rt; cursor.is_empty());
    Ok(())
}

// What is put, how many of it are dropped in front, how many of the rest are kept, what is left once
// the last of these is taken off, and that one.
const ROWS: [(&[u8], usize, usize, &[u8], Option<u8>); 5] = [
    (&[1, 2, 3, 4], 1, 2, &[2], Some(3)),
    (&[1, 2, 3, 4], 0, 9, &[1, 2, 3], Some(4)),
    (&[1, 2, 3, 4], 3, 1, &[], Some(4)),
    (&[1, 2], 9, 1, &[], None),
    (&[1, 2], 1, 0, &[], None),
];

#[test]
fn items_are_taken_off_at_both_ends(rt: HostRuntime) -> Result<(), Fail> {
    for (put, dropped, kept, left, last) in ROWS.iter() {
        let mut items = ItemList::new(rt.alloc());
        for item in put.iter() {
            items.push(*item)?;
        }
        items.drop_front(*dropped);
        items.truncate(*kept);
        assert_eq!(rt; items.pop(), *last);
        assert_eq!(rt; items.as_slice(), *left);
    }
    Ok(())
}

#[derive(Drop)]
struct Book;

fn walk_twice(steps: &mut Steps<Book>)
    ensures { steps.new ≡ steps.old + 2 }
{
    steps.tick();
    steps.tick();
}

#[test]
fn steps_are_counted_without_bytes(_rt: HostRuntime) -> Result<(), Fail> {
    let mut steps = Steps::start(Book);
    walk_twice(&mut steps);
    prove!(std::mem::size_of::<Steps<Book>>() == 0);
    Ok(())
}
