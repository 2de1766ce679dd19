//! How many literals a table has.

ghost use Rattle.std.specs.Prelude.{◌≡◌, IsOk, IfErr, OnOk};
ghost use Rattle.bk_codec.specs.Reading.{many_at, ended};
ghost use Rattle.side_tables.specs.LiteralCount.{literals_counted};
ghost use Rattle.side_tables.specs.LiteralReading.{literal_at};
ghost use Rattle.side_tables.specs.declared.refusal.SideRefusal.TheVariants as refusals;

use crate::literal_reading::sized;
use crate::refusal::SideRefusal;
use bk_base::Cursor;
use bk_codec::{end, word};

/// How many literals the table has that the payload is. None where they are packed. It is refused as
/// [`crate::read_literals`] refuses it.
///
/// It takes no memory and reads no term: the literals are passed over.
#[tactic(auto, unfolding(crate::specs::LiteralReading::literals_of, crate::specs::LiteralReading::literals_at))]
pub fn count_literals(s: &[u8]) -> Result<Option<u32>, SideRefusal>
    ensures { result ≡ literals_counted s.now }
{
    let mut cur = Cursor::new(s);
    if word(&mut cur, SideRefusal::Cut)? != 0 {
        return Ok(None);
    }
    let count = word(&mut cur, SideRefusal::Cut)?;
    pass_literals(cur.rest(), count)?;
    Ok(Some(count))
}

/// Passes over so many literals, which are all of the bytes.
pub(crate) fn pass_literals(bytes: &[u8], count: u32) -> Result<(), SideRefusal>
    ensures ok { OnOk result (IsOk (ended refusals.Rest (many_at literal_at count bytes.now))) }
    ensures err { IfErr result (λ e. ended refusals.Rest (many_at literal_at count bytes.now) ≡ Err e) }
{
    let mut cur = Cursor::new(bytes);
    for _ in 0..count {
        sized(&mut cur)?;
    }
    end(&cur, SideRefusal::Rest)
}
