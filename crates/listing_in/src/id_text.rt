//! Reading the id of a chunk.

ghost use Rattle.std.specs.Prelude.{◌==◌, if◌then◌else◌, length, Some, None};
ghost use Rattle.std.specs.Option.{option_and_then};
ghost use Rattle.bk_parse.specs.Answer.{Answers};
ghost use Rattle.bk_parse.specs.HexBytes.{bytes_of};
ghost use Rattle.listing_in.specs.Ids.{id_of, id_with, other_id, plain_id};

use bk_base::Bytes;
use bk_parse::{TextRefusal, read_hex};
use iff_form::Id;
use std::alloc::Global;

/// The id of a chunk: four letters or digits, or `#` and the digits of four other bytes.
pub(crate) fn id_of(alloc: Global, text: &[u8]) -> Result<Id, TextRefusal>
    ensures { Answers (λ id. id) result (id_of text.now) }
{
    match text.split_first() {
        Some((b'#', digits)) => other_id(alloc, digits),
        _ => plain_id(text),
    }
}

// Four letters or digits.
fn plain_id(text: &[u8]) -> Result<Id, TextRefusal>
    ensures { Answers (λ id. id) result (plain_id text.now) }
{
    let id = four(text)?;
    if !id.is_plain() {
        return Err(TextRefusal::Wrong);
    }
    Ok(id)
}

// The id that hexadecimal digits write, where its bytes are not all letters or digits.
fn other_id(alloc: Global, digits: &[u8]) -> Result<Id, TextRefusal>
    ensures { Answers (λ id. id) result (option_and_then other_id (bytes_of digits.now)) }
{
    let mut bytes = Bytes::new(alloc);
    read_hex(&mut bytes, digits)?;
    let id = four(bytes.as_slice())?;
    if id.is_plain() {
        return Err(TextRefusal::Wrong);
    }
    Ok(id)
}

// The id of four bytes.
fn four(bytes: &[u8]) -> Result<Id, TextRefusal>
    ensures { Answers (λ id. id) result (if length bytes.now == 4 then Some (id_with bytes.now) else None) }
{
    match <[u8; 4]>::try_from(bytes) {
        Ok(bytes) => Ok(Id(bytes)),
        Err(_) => Err(TextRefusal::Wrong),
    }
}
