//! Reading a form.

ghost use Rattle.std.specs.Prelude.{◌≡◌, ◌⊎◌, ◌+◌, ◌<◌, ◌≤◌, List, [], length, drop, map, Ok, Err, IfOk, IfErr, OnOk};
ghost use Rattle.bk_codec.specs.Reading.{Gives, GivesAll};
ghost use Rattle.iff_form.specs.Chunk.{PlainChunk, plain, plains, chunk_size};
ghost use Rattle.iff_form.specs.Form.{IsForm, offsets_from};
ghost use Rattle.iff_form.specs.Refusal.{Refuses};
ghost use Rattle.iff_form.specs.Reading.{chunk_at, chunks_from, form_of, is_marked, size_of};

use crate::chunk::{Chunk, padding};
use crate::form::Form;
use crate::id::Id;
use crate::refusal::FormRefusal;
use bk_base::Cursor;
use byteorder::{BigEndian, ByteOrder};
use std::alloc::Global;
use std::collections::BTreeSet;

// How many bytes stand before the first chunk: `FOR1`, the size word and `BEAM`.
const HEAD_LEN: usize = 12;

// How a gzip file begins.
const GZIP_MARK: [u8; 2] = [0x1f, 0x8b];

#[tactic(auto, unfolding(crate::specs::Reading::chunk_at))]
fn next_chunk<'a>(cursor: &mut Cursor<'a>) -> Result<Chunk<'a>, FormRefusal>
    ensures gives { Gives FormRefusal.NoMemory plain cursor.new.rest result (chunk_at (FormRefusal.ChunkCut cursor.old.offset) cursor.old.rest) }
    ensures at { IfOk result (λ c. c.at ≡ cursor.old.offset) }
    ensures next { IfOk result (λ c. cursor.new.offset ≡ cursor.old.offset + chunk_size (plain c)) }
    ensures shorter { OnOk result (length cursor.new.rest < length cursor.old.rest) }
    ensures moved { cursor.new.offset + length cursor.new.rest ≡ cursor.old.offset + length cursor.old.rest }
{
    let at = cursor.at();
    let cut = FormRefusal::ChunkCut { at };
    let id = cursor.take(4).ok_or(cut)?;
    let size = cursor.be32().ok_or(cut)? as usize;
    let payload = cursor.take(size).ok_or(cut)?;
    cursor.take(padding(size)).ok_or(cut)?;
    Ok(Chunk {
        id: Id([id[0], id[1], id[2], id[3]]),
        payload,
        at,
    })
}

// The chunks from the first on. Whether an id stood before is asked of an ordered set, so that many
// chunks take no more than their number times its logarithm.
fn read_chunks<'a>(alloc: Global, bytes: &'a [u8]) -> Result<Vec<Chunk<'a>>, FormRefusal>
    requires { 12 ≤ length bytes.now }
    ensures chunks { GivesAll FormRefusal.NoMemory (λ v. plains v.items) result (chunks_from (length bytes.now) (length bytes.now) [] (drop 12 bytes.now)) }
    ensures offsets { IfOk result (λ v. map (λ c. c.at) v.items ≡ offsets_from 12 (plains v.items)) }
{
    let mut cursor = Cursor::new(bytes);
    let _ = cursor.take(HEAD_LEN);
    let mut chunks = Vec::new(alloc);
    let mut seen = BTreeSet::new(alloc);
    'chunks: while !cursor.is_empty() {
        let chunk = next_chunk(&mut cursor)?;
        if !seen.insert(chunk.id.0)? {
            return Err(FormRefusal::Twice {
                id: chunk.id,
                at: chunk.at,
            });
        }
        chunks.push(chunk)?;
    }
    Ok(chunks)
}

fn has_marks(bytes: &[u8]) -> bool
    ensures { result ≡ is_marked bytes.now }
{
    bytes.len() >= HEAD_LEN
        && &bytes[..4] == b"FOR1".as_slice()
        && &bytes[8..12] == b"BEAM".as_slice()
}

// The size word, where what stands before the chunks is right.
#[tactic(auto, unfolding(crate::specs::Reading::size_of))]
fn checked_size(bytes: &[u8]) -> Result<u32, FormRefusal>
    ensures size { GivesAll FormRefusal.NoMemory (λ n. n) result (size_of bytes.now) }
    ensures long { OnOk result (12 ≤ length bytes.now) }
{
    if bytes.starts_with(&GZIP_MARK) {
        return Err(FormRefusal::Gzip);
    }
    if !has_marks(bytes) {
        return Err(FormRefusal::NotBeam);
    }
    let stated = BigEndian::read_u32(&bytes[4..]);
    let found = bytes.len() as u64 - 8;
    if u64::from(stated) != found {
        return Err(FormRefusal::Size { stated, found });
    }
    Ok(stated)
}

#[tactic(auto, unfolding(crate::specs::Reading::form_of))]
fn whole_form<'a>(alloc: Global, bytes: &'a [u8]) -> Result<Form<'a>, FormRefusal>
    ensures found { IfOk result (λ chunks. IsForm chunks bytes.now) }
    ensures exact { GivesAll FormRefusal.NoMemory (λ chunks. chunks) result (form_of bytes.now) }
{
    let size = checked_size(bytes)?;
    let chunks = read_chunks(alloc, bytes)?;
    Ok(Form { chunks, size })
}

/// Reads the form that the whole of the bytes is. The form borrows the bytes.
///
/// It refuses for the first reason in the order of [`FormRefusal`]; among the chunks, at the first in
/// the order of the file that is cut or has an id that stood before. Bytes after the stated size are
/// refused as a wrong size, and padding may be any bytes.
pub fn read_form<'a>(alloc: Global, bytes: &'a [u8]) -> Result<Form<'a>, FormRefusal>
    // What is read is a form of these chunks.
    ensures found { IfOk result (λ chunks. IsForm chunks bytes.now) }
    // Each form is read, unless memory runs out.
    ensures only { (chunks : List PlainChunk) → IsForm chunks bytes.now → (result ≡ Ok chunks) ⊎ (result ≡ Err FormRefusal.NoMemory) }
    // Each refusal has its reason.
    ensures refused { IfErr result (λ e. (e ≡ FormRefusal.NoMemory) ⊎ Refuses e bytes.now) }
    // What the reading from left to right gives.
    ensures exact { GivesAll FormRefusal.NoMemory (λ chunks. chunks) result (form_of bytes.now) }
{
    whole_form(alloc, bytes)
}
