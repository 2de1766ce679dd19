//! Fields that every codec reads, with the refusals of its own.

ghost use Rattle.std.specs.Prelude.{◌≡◌};
ghost use Rattle.bk_base.specs.Place.{end_of};
ghost use Rattle.bk_codec.specs.Reading.{Reads, GivesAll, alone, number_at, utf8_or};

use bk_base::{Cursor, Text, TextFault};
use std::alloc::Global;

/// The next word: four bytes, the highest first. It is refused with `cut` where it is not whole.
pub fn word<E: Drop>(cur: &mut Cursor<'_>, cut: E) -> Result<u32, E>
    ensures read { Reads (λ n. n) cur.new.rest result (number_at cut 4 cur.old.rest) }
    ensures end { end_of cur.new ≡ end_of cur.old }
{
    cur.be32().ok_or(cut)
}

/// The end. It is refused with `rest` where bytes are left.
pub fn end<E: Drop>(cur: &Cursor<'_>, rest: E) -> Result<(), E>
    ensures { result ≡ alone rest tt cur.now.rest }
{
    if !cur.is_empty() {
        return Err(rest);
    }
    Ok(())
}

/// The text that the bytes are. It is refused with `bad` where they are not UTF-8, and with `memory`
/// for want of memory.
pub fn text<E: Drop>(alloc: Global, bytes: &[u8], bad: E, memory: E) -> Result<Text, E>
    ensures { GivesAll memory (λ t. t) result (utf8_or bad bytes.now) }
{
    match Text::from_bytes(alloc, bytes) {
        Ok(text) => Ok(text),
        Err(TextFault::NotUtf8) => Err(bad),
        Err(TextFault::NoMemory) => Err(memory),
    }
}
