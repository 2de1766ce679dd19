//! What differs between two modules.

ghost use Rattle.std.specs.Prelude.{◌≡◌, List, None, IfOk};
ghost use Rattle.iff_form.specs.Chunk.{PlainChunk, plain};
ghost use Rattle.iff_form.specs.Form.{payload_of};
ghost use Rattle.beam_module.specs.Comparison.{HasPayloads, comparison, ids_changed, ids_without, is_changed, is_compared, is_lacked, is_other, least_from, lesser};

use bk_base::{NoMemory, Text};
use iff_form::{Chunk, Form, Id};
use std::alloc::Global;
use std::collections::BTreeMap;

/// What differs between two modules: the first of these that does. How they were compiled, which the
/// chunk `CInf` tells, is not compared.
#[derive(Clone, Copy, Debug, PartialEq, Eq)]
pub enum Compared {
    /// Nothing differs.
    Same,
    /// The names of the modules.
    Modules,
    /// One form alone has a chunk with this id, the least such id in byte order.
    Ids { id: Id },
    /// The payloads of the chunks with this id, the least such id in byte order.
    Chunk { id: Id },
}

// The id of the chunk that tells how a module was compiled.
const COMPILED: Id = Id(*b"CInf");

fn is_compared(id: Id) -> bool
    ensures { result ≡ is_compared id }
{
    id != COMPILED
}

fn lesser(id: Id, found: Option<Id>) -> Id
    ensures { result ≡ lesser id found }
{
    match found {
        Some(other) => id.min(other),
        None => id,
    }
}

type ById<'a> = BTreeMap<[u8; 4], &'a [u8]>;

// The payload of each chunk, by its id.
fn payloads<'a>(alloc: Global, form: &Form<'a>) -> Result<ById<'a>, NoMemory>
    ensures { IfOk result (λ m. HasPayloads m form.now) }
{
    let mut payloads = BTreeMap::new(alloc);
    for chunk in form.chunks() {
        payloads.insert(chunk.id.0, chunk.payload)?;
    }
    Ok(payloads)
}

fn is_lacked(chunk: &Chunk<'_>, others: &ById<'_>) -> bool
    ensures { (b : List PlainChunk) → HasPayloads others.now b → result ≡ is_lacked b (plain chunk.now) }
{
    is_compared(chunk.id) && !others.contains_key(&chunk.id.0)
}

fn is_other(chunk: &Chunk<'_>, others: &ById<'_>) -> bool
    ensures { (b : List PlainChunk) → HasPayloads others.now b → result ≡ is_other chunk.now.payload.now (payload_of chunk.now.id b) }
{
    match others.get(&chunk.id.0) {
        Some(payload) => *payload != chunk.payload,
        None => true,
    }
}

fn is_changed(chunk: &Chunk<'_>, others: &ById<'_>) -> bool
    ensures { (b : List PlainChunk) → HasPayloads others.now b → result ≡ is_changed b (plain chunk.now) }
{
    is_compared(chunk.id) && is_other(chunk, others)
}

// The least id of the chunks that the others lack, or the one that was found before where that is
// less.
fn least_lacked(form: &Form<'_>, others: &ById<'_>, found: Option<Id>) -> Option<Id>
    ensures { (b : List PlainChunk) → HasPayloads others.now b → result ≡ least_from found (ids_without form.now b) }
{
    let mut least = found;
    for chunk in form.chunks() {
        if is_lacked(chunk, others) {
            least = Some(lesser(chunk.id, least));
        }
    }
    least
}

// The least id of the chunks that are not among the others.
fn least_changed(form: &Form<'_>, others: &ById<'_>) -> Option<Id>
    ensures { (b : List PlainChunk) → HasPayloads others.now b → result ≡ least_from None (ids_changed form.now b) }
{
    let mut least = None;
    for chunk in form.chunks() {
        if is_changed(chunk, others) {
            least = Some(lesser(chunk.id, least));
        }
    }
    least
}

/// What differs between the modules of two forms with these names.
pub fn compare(
    alloc: Global,
    a: &Form<'_>,
    a_name: &Text,
    b: &Form<'_>,
    b_name: &Text,
) -> Result<Compared, NoMemory>
    ensures { IfOk result (λ c. c ≡ comparison a.now a_name.now b.now b_name.now) }
{
    if a_name.as_bytes() != b_name.as_bytes() {
        return Ok(Compared::Modules);
    }
    let in_a = payloads(alloc, a)?;
    let in_b = payloads(alloc, b)?;
    let lacked = least_lacked(a, &in_b, None);
    if let Some(id) = least_lacked(b, &in_a, lacked) {
        return Ok(Compared::Ids { id });
    }
    match least_changed(a, &in_b) {
        Some(id) => Ok(Compared::Chunk { id }),
        None => Ok(Compared::Same),
    }
}
