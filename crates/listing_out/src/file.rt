//! The listing of a file.

ghost use Rattle.std.specs.Prelude.{◌≡◌, ◌++◌, IfOk, OnOk};
ghost use Rattle.listing_out.specs.Lines.{text_of};
ghost use Rattle.listing_out.specs.Comments.{commented_chunk, commented_listing};
ghost use Rattle.listing_out.specs.Listable.{IsListable};
ghost use Rattle.listing_out.specs.Listing.{IsListing};

use crate::code::put_code;
use crate::names::Names;
use crate::payload::put_raw;
use beam_module::{ChunkVal, FileVal};
use bk_base::{Bytes, NoMemory};
use iff_form::Id;
use op_table::names_are_words;
use operand_text::operand_texts_are_words;
use std::alloc::Global;

/// The listing of a file: the line `beam 1`, and then the lines of each chunk in order, each line
/// with a newline.
///
/// A payload is a line `chunk ID`, and lines of two spaces and 32 bytes in hexadecimal, the last one
/// with the rest; an empty payload has none. Code is a line `code H L F E` with the highest opcode,
/// the counts of labels and of functions, and the extra bytes of the sub-header in hexadecimal or
/// `-` for none, and a line of two spaces, the name and the operands for each instruction. Behind
/// these stand two spaces, `; ` and what the atoms and imports in the operands are called, where the
/// file's tables tell it.
///
/// It fails only where memory is wanting.
pub fn listing(alloc: Global, v: &FileVal) -> Result<Bytes, NoMemory>
    ensures text { IfOk result (λ text. text.items ≡ commented_listing v.now) }
    // Where the lines can be read back, the text without comments has these lines.
    ensures listing { IsListable v.now → IfOk result (λ text. IsListing v.now text.items) }
{
    names_are_words();
    operand_texts_are_words();
    let names = Names::of_file(alloc, v)?;
    let mut out = Bytes::new(alloc);
    out.extend(b"beam 1\n")?;
    for chunk in v.as_slice() {
        put_chunk(&mut out, &names, chunk)?;
    }
    Ok(out)
}

fn put_chunk(out: &mut Bytes, names: &Names, chunk: &(Id, ChunkVal)) -> Result<(), NoMemory>
    ensures { OnOk result (out.new.items ≡ out.old.items ++ text_of (commented_chunk names.now chunk.now)) }
{
    match &chunk.1 {
        ChunkVal::Code(code) => put_code(out, names, code),
        ChunkVal::Raw(payload) => put_raw(out, chunk.0, payload.as_slice()),
    }
}
