//! Lines within a chunk.

ghost use Rattle.bk_codec.specs.Reading.{GivesAll};
ghost use Rattle.bk_parse.specs.Answer.{Appends};
ghost use Rattle.listing_in.specs.Held.{state_of};
ghost use Rattle.listing_in.specs.Open.{coding, filling};
ghost use Rattle.listing_in.specs.Step.{row_of, within};

use crate::instruction::instruction_of;
use crate::refusal::ListingWhy;
use crate::sofar::{Coding, Filling, Sofar};
use crate::stop::{LineStop, stop_for};
use bk_base::Bytes;
use bk_parse::{TextRefusal, read_hex};
use std::alloc::Global;

// How many bytes a full line of a payload has.
const ROW: usize = 32;

/// What is read with a line more, of which this stands behind two spaces: bytes of a payload, unless
/// its last line is short, or an instruction.
pub(crate) fn within(alloc: Global, sofar: Sofar, text: &[u8]) -> Result<Sofar, LineStop>
    ensures { GivesAll LineStop.NoMemory state_of result (within (state_of sofar) text.now) }
{
    match sofar {
        Sofar::Start | Sofar::Begun => Err(LineStop::Wrong(ListingWhy::Keyword)),
        Sofar::Filling(last) => Ok(Sofar::Filling(filled(last, text)?)),
        Sofar::Coding(last) => Ok(Sofar::Coding(coded(alloc, last, text)?)),
    }
}

fn filled(last: Filling, text: &[u8]) -> Result<Filling, LineStop>
    ensures { GivesAll LineStop.NoMemory filling result (within (filling last) text.now) }
{
    let Filling {
        closed,
        id,
        mut payload,
    } = last;
    if payload.len() % ROW != 0 {
        return Err(LineStop::Wrong(ListingWhy::Short));
    }
    match put_row(&mut payload, text) {
        Ok(()) => Ok(Filling {
            closed,
            id,
            payload,
        }),
        Err(refusal) => Err(stop_for(ListingWhy::Hex, refusal)),
    }
}

// Puts the bytes of a line at the end of a payload: 1 to 32.
fn put_row(payload: &mut Bytes, text: &[u8]) -> Result<(), TextRefusal>
    ensures { Appends result (row_of text.now) payload.old.items payload.new.items }
{
    let before = payload.len();
    read_hex(payload, text)?;
    let count = payload.len() - before;
    if count == 0 || count > ROW {
        return Err(TextRefusal::Wrong);
    }
    Ok(())
}

fn coded(alloc: Global, last: Coding, text: &[u8]) -> Result<Coding, LineStop>
    ensures { GivesAll LineStop.NoMemory coding result (within (coding last) text.now) }
{
    let Coding { closed, mut code } = last;
    code.instrs.push(instruction_of(alloc, text)?)?;
    Ok(Coding { closed, code })
}
