//! Lines that begin a chunk.

ghost use Rattle.bk_codec.specs.Reading.{GivesAll};
ghost use Rattle.bk_parse.specs.Parts.{parts_at};
ghost use Rattle.listing_in.specs.Header.{header_of};
ghost use Rattle.listing_in.specs.Held.{state_of};
ghost use Rattle.listing_in.specs.Ids.{id_of};
ghost use Rattle.listing_in.specs.Step.{chunk_begins, code_begins, keyword_begins, payload_begins};

use crate::closed::Closed;
use crate::header::header_of;
use crate::id_text::id_of;
use crate::refusal::ListingWhy;
use crate::sofar::{CODE, Coding, Filling, Sofar};
use crate::stop::{LineStop, stop_for};
use bk_base::Bytes;
use bk_parse::Parts;
use std::alloc::Global;

/// What is read with a line more that begins a chunk: its first word is `chunk` or `code`.
pub(crate) fn keyword_begins(alloc: Global, closed: Closed, line: &[u8]) -> Result<Sofar, LineStop>
    ensures { GivesAll LineStop.NoMemory state_of result (keyword_begins closed (parts_at 32 line.now)) }
{
    let mut parts = Parts::new(line, b' ');
    let Some(word) = parts.next() else {
        return Err(LineStop::Wrong(ListingWhy::Keyword));
    };
    if word == b"chunk".as_slice() {
        return chunk_begins(alloc, closed, parts);
    }
    if word == b"code".as_slice() {
        return code_begins(alloc, closed, parts);
    }
    Err(LineStop::Wrong(ListingWhy::Keyword))
}

// The one field is the id of the chunk.
fn chunk_begins(alloc: Global, closed: Closed, mut fields: Parts<'_>) -> Result<Sofar, LineStop>
    ensures { GivesAll LineStop.NoMemory state_of result (chunk_begins closed fields.entry) }
{
    let Some(text) = fields.next() else {
        return Err(LineStop::Wrong(ListingWhy::Id));
    };
    if fields.next().is_some() {
        return Err(LineStop::Wrong(ListingWhy::Id));
    }
    payload_begins(alloc, closed, text)
}

fn payload_begins(alloc: Global, closed: Closed, text: &[u8]) -> Result<Sofar, LineStop>
    ensures { GivesAll LineStop.NoMemory state_of result (payload_begins closed (id_of text.now)) }
{
    let id = match id_of(alloc, text) {
        Ok(id) => id,
        Err(refusal) => return Err(stop_for(ListingWhy::Id, refusal)),
    };
    if id == CODE {
        return Err(LineStop::Wrong(ListingWhy::Id));
    }
    if closed.has(id) {
        return Err(LineStop::Twice(id));
    }
    Ok(Sofar::Filling(Filling {
        closed,
        id,
        payload: Bytes::new(alloc),
    }))
}

fn code_begins(alloc: Global, closed: Closed, fields: Parts<'_>) -> Result<Sofar, LineStop>
    ensures { GivesAll LineStop.NoMemory state_of result (code_begins closed (header_of fields.entry)) }
{
    let code = match header_of(alloc, fields) {
        Ok(code) => code,
        Err(refusal) => return Err(stop_for(ListingWhy::Number, refusal)),
    };
    if closed.has(CODE) {
        return Err(LineStop::Twice(CODE));
    }
    Ok(Sofar::Coding(Coding { closed, code }))
}
