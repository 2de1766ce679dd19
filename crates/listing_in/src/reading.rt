//! Reading a listing.

ghost use Rattle.std.specs.Prelude.{◌≡◌, ◌⊎◌, ◌≤◌, ◌^◌, List, length, IfErr, IfOk, Ok, Err};
ghost use Rattle.bk_codec.specs.Reading.{GivesAll};
ghost use Rattle.beam_module.specs.Canonical.{IsWritable};
ghost use Rattle.beam_module.specs.File.{FileChunk};
ghost use Rattle.listing_out.specs.Listable.{IsListable};
ghost use Rattle.listing_out.specs.Listing.{IsListing, raw_lines};
ghost use Rattle.listing_in.specs.Held.{state_of};
ghost use Rattle.listing_in.specs.Reading.{after_lines, listing_value, next_raw, numbered};
ghost use Rattle.listing_in.specs.State.{Start};
ghost use Rattle.listing_in.specs.Step.{next_line};
ghost use Rattle.listing_in.specs.Wrong.{IsRefused};

use crate::bare::bare;
use crate::keywords::keyword_begins;
use crate::laws::reading_is_exact;
use crate::refusal::{ListingRefusal, ListingWhy};
use crate::sofar::Sofar;
use crate::stop::LineStop;
use crate::within::within;
use beam_module::FileVal;
use bk_parse::Parts;
use listing_out::a_listing_bounds_its_file;
use std::alloc::Global;

// The first line is the head.
fn first_line(line: &[u8]) -> Result<Sofar, LineStop>
    ensures { GivesAll LineStop.NoMemory state_of result (next_line Start line.now) }
{
    if line != b"beam 1".as_slice() {
        return Err(LineStop::Wrong(ListingWhy::Head));
    }
    Ok(Sofar::Begun)
}

// What is read with this line more, which is without its comment.
fn next_line(alloc: Global, sofar: Sofar, line: &[u8]) -> Result<Sofar, LineStop>
    ensures { GivesAll LineStop.NoMemory state_of result (next_line (state_of sofar) line.now) }
{
    if let Sofar::Start = sofar {
        return first_line(line);
    }
    if let Some(text) = line.strip_prefix(b"  ".as_slice()) {
        return within(alloc, sofar, text);
    }
    keyword_begins(alloc, sofar.close(alloc)?, line)
}

// What is read with this line more. A line of which a comment leaves nothing changes nothing.
fn next_raw(alloc: Global, sofar: Sofar, line: &[u8]) -> Result<Sofar, LineStop>
    ensures { GivesAll LineStop.NoMemory state_of result (next_raw (state_of sofar) line.now) }
{
    let line = bare(line);
    if line.is_empty() {
        return Ok(sofar);
    }
    next_line(alloc, sofar, line)
}

// What is read of all lines.
fn all_lines(alloc: Global, s: &[u8]) -> Result<Sofar, ListingRefusal>
    ensures { GivesAll ListingRefusal.NoMemory state_of result (after_lines next_raw numbered 1 Start (raw_lines s.now)) }
{
    let mut sofar = Sofar::Start;
    let mut number = 1;
    let mut lines = Parts::new(s, b'\n');
    'lines: while let Some(line) = lines.next() {
        match next_raw(alloc, sofar, line) {
            Ok(next) => sofar = next,
            Err(stop) => return Err(stop.at(number)),
        }
        number += 1;
    }
    Ok(sofar)
}

// The file that a text lists.
fn listed_file(alloc: Global, s: &[u8]) -> Result<FileVal, ListingRefusal>
    ensures { GivesAll ListingRefusal.NoMemory (λ v. v) result (listing_value s.now) }
{
    match all_lines(alloc, s)? {
        Sofar::Start => Err(ListingRefusal::Line {
            number: 1,
            why: ListingWhy::Head,
        }),
        sofar => Ok(sofar.close(alloc)?.into_file()),
    }
}

/// Reads the file that a text lists: comments are cut off, and the lines that are left are those of
/// the listing of the file.
///
/// A text that is no listing is refused with the number of the first line at which no listing goes on
/// as the text does, counted from 1 with all lines, or 1 where no line is left, and with what is wrong
/// there.
pub fn read_listing(alloc: Global, s: &[u8]) -> Result<FileVal, ListingRefusal>
    // The text is a listing of what is read.
    ensures found { IfOk result (λ v. IsListable v × IsListing v s.now) }
    // What is read of a text of at most 16 MiB has a canonical file.
    ensures writable { length s.now ≤ 2 ^ 24 → IfOk result IsWritable }
    // Each listing of a file that can be listed is read, unless memory runs out.
    ensures only { (v : List FileChunk) → IsListable v → IsListing v s.now → (result ≡ Ok v) ⊎ (result ≡ Err ListingRefusal.NoMemory) }
    // Each refusal has its reason.
    ensures wrong { IfErr result (λ e. (e ≡ ListingRefusal.NoMemory) ⊎ IsRefused e s.now) }
    // What the reading from line to line gives.
    ensures exact { GivesAll ListingRefusal.NoMemory (λ v. v) result (listing_value s.now) }
{
    reading_is_exact();
    a_listing_bounds_its_file();
    listed_file(alloc, s)
}
