//! Writing the payload of a code chunk.

ghost use Rattle.std.specs.Prelude.{◌≡◌, ◌+◌, ◌<◌, ◌^◌, ◌++◌, length, IfOk, OnOk};
ghost use Rattle.code_chunk.specs.Canonical.{canonical_instr, canonical_header, canonical_code};
ghost use Rattle.code_chunk.specs.Code.{IsProperInstr, IsProperCode};

use crate::code::{CodeVal, FORMAT, LEAST_HEADER};
use bk_base::{Bytes, NoMemory};
use compact_term::{spelled_len, write_operand};
use op_table::Instr;
use std::alloc::Global;

/// The payload of this code, with the canonical spelling of each operand.
///
/// A wide integer in it has 17 bytes or more, and the payload fewer than 4,294,967,296. It fails only
/// for want of memory.
pub fn write_code(alloc: Global, c: &CodeVal) -> Result<Bytes, NoMemory>
    requires proper { IsProperCode c.now }
    requires fits { length (canonical_code c.now) < 2 ^ 32 }
    ensures { IfOk result (λ payload. payload.items ≡ canonical_code c.now) }
{
    let mut payload = Bytes::new(alloc);
    payload.reserve(code_len(c))?;
    put_header(c, &mut payload)?;
    for instr in c.instrs.as_slice() {
        put_instr(instr, &mut payload)?;
    }
    Ok(payload)
}

// How many bytes the payload has.
fn code_len(c: &CodeVal) -> usize
    requires proper { IsProperCode c.now }
    requires fits { length (canonical_code c.now) < 2 ^ 32 }
    ensures { result ≡ length (canonical_code c.now) }
{
    let mut len = 4 + LEAST_HEADER as usize + c.extra.len();
    for instr in c.instrs.as_slice() {
        len += instr_len(instr);
    }
    len
}

// How many bytes the opcode and the operands take.
#[tactic(auto, using(crate::proofs::Spelled::operands_within))]
fn instr_len(instr: &Instr) -> usize
    requires proper { IsProperInstr instr.now }
    requires fits { length (canonical_instr instr.now) < 2 ^ 63 }
    ensures { result ≡ length (canonical_instr instr.now) }
{
    let mut len = 1;
    for operand in instr.operands().as_slice() {
        len += spelled_len(operand);
    }
    len
}

// The size of the sub-header, its four words, and its extra bytes.
fn put_header(c: &CodeVal, out: &mut Bytes) -> Result<(), NoMemory>
    requires { 16 + length c.now.extra < 2 ^ 32 }
    ensures { OnOk result (out.new.items ≡ out.old.items ++ canonical_header c.now) }
{
    let size = LEAST_HEADER + c.extra.len() as u32;
    out.extend(&size.to_be_bytes())?;
    out.extend(&FORMAT.to_be_bytes())?;
    out.extend(&c.max_op.to_be_bytes())?;
    out.extend(&c.labels.to_be_bytes())?;
    out.extend(&c.functions.to_be_bytes())?;
    out.extend(c.extra.as_slice())
}

// The opcode, and the canonical spelling of each operand.
fn put_instr(instr: &Instr, out: &mut Bytes) -> Result<(), NoMemory>
    requires proper { IsProperInstr instr.now }
    requires fits { length (canonical_instr instr.now) < 2 ^ 63 }
    ensures { OnOk result (out.new.items ≡ out.old.items ++ canonical_instr instr.now) }
{
    out.push(instr.op())?;
    for operand in instr.operands().as_slice() {
        write_operand(operand, out)?;
    }
    Ok(())
}
