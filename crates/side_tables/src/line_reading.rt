//! Reading the table of lines.

ghost use Rattle.std.specs.Prelude.{◌≡◌, ◌⊎◌, length, IfOk};
ghost use Rattle.bk_codec.specs.Reading.{Gives, GivesAll, many_at};
ghost use Rattle.side_tables.specs.LineSpelling.{SpellsLines};
ghost use Rattle.side_tables.specs.LineReading.{placed, place_at, places_at, file_at, header_at, lines_of};
ghost use Rattle.side_tables.specs.declared.lines.Lines.{Lines};
ghost use Rattle.side_tables.specs.declared.refusal.SideRefusal.TheVariants as refusals;

use crate::line_item::{Item, ItemReader};
use crate::lines::{BytesList, Lines, PlaceList};
use crate::refusal::SideRefusal;
use bk_base::{ByteList, Cursor};
use bk_codec::{end, word};
use std::alloc::Global;

/// Reads the payload of a table of lines, whole.
///
/// Its words are the version, which is 0, the flags, and the numbers of line instructions, of lines
/// and of file names; then come the items up to the last line, and the file names. An item is an
/// operand: `i` with a line from 0 up, in the current file, or `a` with the number of the file that
/// is current from there on. File 0 is current at first.
///
/// It is refused for the first thing from the left that is wrong: `Version` where the first word is
/// there and is not 0, even if the others are cut; `Cut` where bytes of a word, of an item or of a
/// file name are missing; `ItemTag` where anything else is wrong with an item; `FileIndex` at a switch to
/// a file above the number of file names; `Rest` where bytes stand behind the last file name.
pub fn read_lines(alloc: Global, s: &[u8]) -> Result<Lines, SideRefusal>
    // What is read is spelled there.
    ensures found { IfOk result (λ l. SpellsLines l s.now) }

    // What is spelled there is read, unless memory is wanting.
    ensures only { (l : Lines) → SpellsLines l s.now →
        (result ≡ Ok l) ⊎ (result ≡ Err refusals.NoMemory) }

    // The same and the refusals, as a function of the payload.
    ensures exact { GivesAll refusals.NoMemory (λ l. l) result (lines_of s.now) }
{
    whole_table(alloc, s)
}

// The table that all of the bytes are.
#[tactic(auto, unfolding(crate::specs::LineReading::lines_at))]
fn whole_table(alloc: Global, s: &[u8]) -> Result<Lines, SideRefusal>
    ensures { GivesAll refusals.NoMemory (λ l. l) result (lines_of s.now) }
{
    let mut cur = Cursor::new(s);
    let header = first_words(&mut cur)?;
    let mut items = ItemReader::new(cur.rest());
    let lines = places(alloc, &mut items, header.files, header.lines)?;
    let mut cur = Cursor::new(items.rest());
    let files = files(alloc, &mut cur, header.files)?;
    end(&cur, SideRefusal::Rest)?;
    Ok(Lines {
        flags: header.flags,
        instructions: header.instructions,
        lines,
        files,
    })
}

// The words behind the version. `lines` and `files` are how many of them the table states.
#[derive(Clone, Copy)]
struct Header {
    flags: u32,
    instructions: u32,
    lines: u32,
    files: u32,
}

// The version, which is looked at before anything else, and the other words.
#[tactic(auto, unfolding(crate::specs::LineReading::header_at))]
fn first_words(cur: &mut Cursor<'_>) -> Result<Header, SideRefusal>
    ensures { Gives refusals.NoMemory (λ h. h) cur.new.rest result (header_at cur.old.rest) }
{
    if word(cur, SideRefusal::Cut)? != 0 {
        return Err(SideRefusal::Version);
    }
    Ok(Header {
        flags: word(cur, SideRefusal::Cut)?,
        instructions: word(cur, SideRefusal::Cut)?,
        lines: word(cur, SideRefusal::Cut)?,
        files: word(cur, SideRefusal::Cut)?,
    })
}

// The places of so many lines. No room is taken by their stated number.
fn places(
    alloc: Global,
    items: &mut ItemReader<'_>,
    files: u32,
    count: u32,
) -> Result<PlaceList, SideRefusal>
    ensures { Gives refusals.NoMemory (λ ps. ps) items.new.rest result
        (places_at files count 0 items.old.item items.old.rest) }
{
    let mut places = PlaceList::new(alloc);
    let mut file = 0;
    for _ in 0..count {
        let place = place(alloc, items, files, file)?;
        file = place.0;
        places.push(place)?;
    }
    Ok(places)
}

// The place of the next line, before which `file` is the current file.
fn place(
    alloc: Global,
    items: &mut ItemReader<'_>,
    files: u32,
    file: u32,
) -> Result<(u32, i128), SideRefusal>
    ensures { Gives refusals.NoMemory (placed items.new.item) items.new.rest result
        (place_at files (length items.old.rest) file items.old.item items.old.rest) }
{
    let mut current = file;
    'items: loop {
        match items.next(alloc, files)? {
            Item::Line(line) => return Ok((current, line)),
            Item::File(number) => current = number,
        }
    }
}

// The names of so many files. No room is taken by their stated number.
fn files(alloc: Global, cur: &mut Cursor<'_>, count: u32) -> Result<BytesList, SideRefusal>
    ensures { Gives refusals.NoMemory (λ names. names) cur.new.rest result
        (many_at file_at count cur.old.rest) }
{
    let mut names = BytesList::new(alloc);
    for _ in 0..count {
        let name = file(alloc, cur)?;
        names.push(name)?;
    }
    Ok(names)
}

// The name of a file.
fn file(alloc: Global, cur: &mut Cursor<'_>) -> Result<ByteList, SideRefusal>
    ensures { Gives refusals.NoMemory (λ name. name) cur.new.rest result (file_at cur.old.rest) }
{
    let len = cur.be16().ok_or(SideRefusal::Cut)?;
    let name = cur.take(usize::from(len)).ok_or(SideRefusal::Cut)?;
    Ok(ByteList::from_slice(alloc, name)?)
}
