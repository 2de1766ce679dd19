//! The lines of code.

ghost use Rattle.std.specs.Prelude.{◌≡◌, ◌∷◌, ◌++◌, map, codes, OnOk};
ghost use Rattle.listing_out.specs.Lines.{extra_text, code_line, instruction_line, text_of};
ghost use Rattle.listing_out.specs.Comments.{commented_instruction};

use crate::comments::put_comment;
use crate::names::Names;
use bk_base::{Bytes, NoMemory};
use bk_text::{put_hex, put_marked};
use code_chunk::CodeVal;
use op_table::Instr;
use operand_text::put_operand;

/// Appends the lines of code to `out`: the line `code H L F E`, and one for each instruction with its
/// comment, in order.
pub(crate) fn put_code(out: &mut Bytes, names: &Names, code: &CodeVal) -> Result<(), NoMemory>
    ensures { OnOk result (out.new.items ≡ out.old.items ++ text_of (code_line code.now ∷ map (commented_instruction names.now) code.now.instrs)) }
{
    put_header(out, code)?;
    for instr in code.instrs.as_slice() {
        put_commented(out, names, instr)?;
        out.push(b'\n')?;
    }
    Ok(())
}

/// Appends the line `code H L F E` to `out`.
pub(crate) fn put_header(out: &mut Bytes, code: &CodeVal) -> Result<(), NoMemory>
    ensures { OnOk result (out.new.items ≡ out.old.items ++ (code_line code.now ++ codes "\n")) }
{
    put_marked(out, b"code ", code.max_op)?;
    put_marked(out, b" ", code.labels)?;
    put_marked(out, b" ", code.functions)?;
    out.push(b' ')?;
    put_extra(out, code.extra.as_slice())?;
    out.push(b'\n')
}

fn put_extra(out: &mut Bytes, extra: &[u8]) -> Result<(), NoMemory>
    ensures { OnOk result (out.new.items ≡ out.old.items ++ extra_text extra.now) }
{
    match extra {
        [] => out.push(b'-'),
        _ => put_hex(out, extra),
    }
}

fn put_commented(out: &mut Bytes, names: &Names, instr: &Instr) -> Result<(), NoMemory>
    ensures { OnOk result (out.new.items ≡ out.old.items ++ commented_instruction names.now instr.now) }
{
    put_instruction(out, instr)?;
    put_comment(out, names, instr)
}

fn put_instruction(out: &mut Bytes, instr: &Instr) -> Result<(), NoMemory>
    ensures { OnOk result (out.new.items ≡ out.old.items ++ instruction_line instr.now) }
{
    out.extend(b"  ")?;
    out.extend(instr.name().as_bytes())?;
    for operand in instr.operands().as_slice() {
        out.push(b' ')?;
        put_operand(out, operand)?;
    }
    Ok(())
}
