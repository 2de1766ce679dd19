//! The listing of a file, made while the file is read.

ghost use Rattle.std.specs.Prelude.{◌≡◌, ℕ, List, [], ◌++◌, Some, false, IfOk, OnOk};
ghost use Rattle.bk_codec.specs.Reading.{Gives, GivesAll, made_of, many_at};
ghost use Rattle.bk_base.specs.Place.{end_of};
ghost use Rattle.op_table.specs.Table.{arity_of, row_with, row_of};
ghost use Rattle.code_chunk.specs.Reading.{operand_in, instr_with};
ghost use Rattle.iff_form.specs.Chunk.{plain};
ghost use Rattle.listing_out.specs.Comments.{any_behind, items_text, operand_items};
ghost use Rattle.listing_out.specs.Reading.{chunk_behind, code_behind, instrs_behind, line_of, listing_of, operand_put, operands_behind};

use crate::code::put_header;
use crate::comments::{is_import_of, put_items};
use crate::names::{ATOMS, IMPORTS, Names};
use crate::payload::put_raw;
use beam_module::{ModuleRefusal, form_from};
use bk_base::{Bytes, Cursor, NoMemory};
use code_chunk::{
    CodeRefusal, instructions_are_read_in_order, next_operand, read_head, read_opcode,
};
use compact_term::Operand;
use iff_form::{Chunk, Id};
use op_table::OpRow;
use operand_text::put_operand;
use std::alloc::Global;

// The id of the chunk that holds the code.
const CODE: Id = Id(*b"Code");

/// The listing of the file that the whole of the bytes is: that of the value that is read of it. No
/// value is kept: each instruction is listed as it is read.
///
/// It fails where the bytes are no file, with the first thing that is wrong, and where memory is
/// wanting.
pub fn file_listing(alloc: Global, bytes: &[u8]) -> Result<Bytes, ModuleRefusal>
    ensures { GivesAll ModuleRefusal.NoMemory (λ text. text.items) result (listing_of bytes.now) }
{
    let form = form_from(alloc, bytes)?;
    let names = Names::of_tables(alloc, form.find(ATOMS), form.find(IMPORTS))?;
    let mut out = Bytes::new(alloc);
    out.extend(b"beam 1\n")?;
    for chunk in form.chunks() {
        put_chunk(alloc, &mut out, &names, chunk)?;
    }
    Ok(out)
}

fn put_chunk(
    alloc: Global,
    out: &mut Bytes,
    names: &Names,
    chunk: &Chunk<'_>,
) -> Result<(), ModuleRefusal>
    ensures { GivesAll ModuleRefusal.NoMemory (λ _. out.new.items) result (chunk_behind names.now out.old.items (plain chunk.now)) }
{
    if chunk.id != CODE {
        put_raw(out, chunk.id, chunk.payload)?;
        return Ok(());
    }
    match put_code(alloc, out, names, chunk.payload) {
        Ok(()) => Ok(()),
        Err(CodeRefusal::NoMemory) => Err(ModuleRefusal::NoMemory),
        Err(refusal) => Err(ModuleRefusal::Code(refusal)),
    }
}

// The lines of code that a payload holds.
fn put_code(
    alloc: Global,
    out: &mut Bytes,
    names: &Names,
    payload: &[u8],
) -> Result<(), CodeRefusal>
    ensures { GivesAll CodeRefusal.NoMemory (λ _. out.new.items) result (code_behind names.now out.old.items payload.now) }
{
    let mut cur = Cursor::new(payload);
    let head = read_head(alloc, &mut cur)?;
    put_header(out, &head)?;
    put_instructions(alloc, out, names, &mut cur)
}

// The lines of the instructions up to the end.
fn put_instructions(
    alloc: Global,
    out: &mut Bytes,
    names: &Names,
    cur: &mut Cursor<'_>,
) -> Result<(), CodeRefusal>
    ensures { GivesAll CodeRefusal.NoMemory (λ _. out.new.items) result (instrs_behind names.now out.old.items (end_of cur.old) cur.old.rest) }
{
    instructions_are_read_in_order();
    'instrs: while let Some(row) = read_opcode(cur)? {
        put_instruction(alloc, out, names, cur, row)?;
    }
    Ok(())
}

// The line of the instruction whose opcode was read.
fn put_instruction(
    alloc: Global,
    out: &mut Bytes,
    names: &Names,
    cur: &mut Cursor<'_>,
    row: &OpRow,
) -> Result<(), CodeRefusal>
    requires { row_with row.now.op ≡ Some (row_of row.now) }
    ensures line { Gives CodeRefusal.NoMemory (λ _. out.new.items) cur.new.rest result
        (made_of (λ i. out.old.items ++ line_of names.now i) (instr_with (end_of cur.old) row.now.op (arity_of row.now.op) cur.old.rest)) }
    ensures end { end_of cur.new ≡ end_of cur.old }
{
    out.extend(b"  ")?;
    out.extend(row.name.as_bytes())?;
    let comment = put_operands(alloc, out, names, cur, row)?;
    out.extend(comment.as_slice())?;
    out.push(b'\n')?;
    Ok(())
}

// Puts the operands of an instruction, and gives its comment.
fn put_operands(
    alloc: Global,
    out: &mut Bytes,
    names: &Names,
    cur: &mut Cursor<'_>,
    row: &OpRow,
) -> Result<Bytes, CodeRefusal>
    requires { row_with row.now.op ≡ Some (row_of row.now) }
    ensures put { Gives {B = List ℕ × List ℕ} CodeRefusal.NoMemory (λ comment. (out.new.items, comment.items)) cur.new.rest result
        (operands_behind names.now row.now.op 0 false out.old.items [] (many_at (operand_in (end_of cur.old)) row.now.arity cur.old.rest)) }
    ensures end { end_of cur.new ≡ end_of cur.old }
{
    let mut comment = Bytes::new(alloc);
    let mut any = false;
    for place in 0..row.arity {
        let operand = next_operand(alloc, cur)?;
        let is_import = is_import_of(row, usize::from(place));
        any = put_both(out, &mut comment, names, is_import, &operand, any)?;
    }
    Ok(comment)
}

// Puts an operand behind a space, and its items in the comment.
fn put_both(
    out: &mut Bytes,
    comment: &mut Bytes,
    names: &Names,
    is_import: bool,
    operand: &Operand,
    any: bool,
) -> Result<bool, NoMemory>
    ensures operand { OnOk result (out.new.items ≡ out.old.items ++ operand_put operand.now) }
    ensures items { OnOk result (comment.new.items ≡ comment.old.items ++ items_text any (operand_items names.now is_import operand.now)) }
    ensures any { IfOk result (λ r. r ≡ any_behind any (operand_items names.now is_import operand.now)) }
{
    out.push(b' ')?;
    put_operand(out, operand)?;
    put_items(comment, names, is_import, operand, any)
}
