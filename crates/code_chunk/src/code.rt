//! The value of the chunk.

ghost use Rattle.std.specs.Prelude.{◌≡◌, ◌≤◌, ◌⊎◌, [], length, IfOk, IfErr, Ok, Err};
ghost use Rattle.bk_codec.specs.Reading.{Gives, GivesAll, made_of};
ghost use Rattle.code_chunk.specs.declared.code.CodeVal.{CodeVal};
ghost use Rattle.code_chunk.specs.Spelling.{SpellsCode};
ghost use Rattle.code_chunk.specs.Code.{CodeMeetsType, IsProperCode};
ghost use Rattle.code_chunk.specs.Stop.{IsWrong};
ghost use Rattle.bk_base.specs.Place.{end_of};
ghost use Rattle.code_chunk.specs.Reading.{header_at, code_of, code_at};

use crate::instructions::{InstrList, instructions};
use crate::refusal::CodeRefusal;
use bk_base::{ByteList, Cursor};
use bk_codec::word;
use byteorder::{BigEndian, ByteOrder};
use std::alloc::Global;

// The bytes of the four words of the sub-header, which may be longer.
pub(crate) const LEAST_HEADER: u32 = 16;

// The first of these words.
pub(crate) const FORMAT: u32 = 0;

/// What the chunk holds.
#[derive(Debug, Drop)]
pub struct CodeVal {
    /// The bytes of the sub-header behind its four words.
    pub extra: ByteList,
    /// The highest opcode that is said to be used. It is not compared with the instructions.
    pub max_op: u32,
    /// How many labels there are said to be.
    pub labels: u32,
    /// How many functions there are said to be.
    pub functions: u32,
    /// The instructions, in order.
    pub instrs: InstrList,
}

// The bytes of the sub-header.
#[tactic(auto, unfolding(crate::specs::Reading::header_at))]
fn sub_header<'a>(cur: &mut Cursor<'a>) -> Result<&'a [u8], CodeRefusal>
    ensures read { Gives CodeRefusal.NoMemory (λ h. h.now) cur.new.rest result (header_at cur.old.rest) }
    ensures least { IfOk result (λ h. 16 ≤ length h.now) }
    ensures end { end_of cur.new ≡ end_of cur.old }
{
    let size = word(cur, CodeRefusal::Header)?;
    if size < LEAST_HEADER {
        return Err(CodeRefusal::Header);
    }
    let header = cur.take(size as usize).ok_or(CodeRefusal::Header)?;
    if BigEndian::read_u32(header) != FORMAT {
        return Err(CodeRefusal::Header);
    }
    Ok(header)
}

/// The sub-header of a code chunk, as code without instructions. Behind it the cursor stands before the
/// first opcode.
///
/// It fails where the sub-header is cut, shorter than 16 bytes, or of another format than 0.
#[tactic(auto, unfolding(crate::specs::Reading::header_at))]
pub fn read_head(alloc: Global, cur: &mut Cursor<'_>) -> Result<CodeVal, CodeRefusal>
    ensures read { Gives CodeRefusal.NoMemory (λ c. c) cur.new.rest result (made_of (λ header. code_of header []) (header_at cur.old.rest)) }
    ensures end { end_of cur.new ≡ end_of cur.old }
{
    let header = sub_header(cur)?;
    Ok(CodeVal {
        extra: ByteList::from_slice(alloc, &header[16..])?,
        max_op: BigEndian::read_u32(&header[4..]),
        labels: BigEndian::read_u32(&header[8..]),
        functions: BigEndian::read_u32(&header[12..]),
        instrs: InstrList::new(alloc),
    })
}

// What the whole payload holds, read from the left.
#[tactic(auto, unfolding(crate::specs::Reading::code_at))]
fn whole_code(alloc: Global, s: &[u8]) -> Result<CodeVal, CodeRefusal>
    ensures { GivesAll CodeRefusal.NoMemory (λ c. c) result (code_at s.now) }
{
    let mut cur = Cursor::new(s);
    let mut code = read_head(alloc, &mut cur)?;
    code.instrs = instructions(alloc, &mut cur)?;
    Ok(code)
}

/// What the payload of a code chunk holds.
///
/// An opcode or an operand is refused at the end of the longest front of whole instructions: the
/// opcode that stands there, or the first of its operands that is none.
pub fn read_code(alloc: Global, s: &[u8]) -> Result<CodeVal, CodeRefusal>
    // What was read is spelled by the payload.
    ensures found { IfOk result (λ c. SpellsCode c s.now) }
    ensures proper { IfOk result IsProperCode }
    ensures meets_type { IfOk result CodeMeetsType }

    // What the payload spells is read, unless memory runs out.
    ensures only { (c : CodeVal) → SpellsCode c s.now → (result ≡ Ok c) ⊎ (result ≡ Err CodeRefusal.NoMemory) }

    // What is wrong with the payload, and what it reads from the left.
    ensures wrong { IfErr result (λ e. (e ≡ CodeRefusal.NoMemory) ⊎ IsWrong e s.now) }
    ensures read { GivesAll CodeRefusal.NoMemory (λ c. c) result (code_at s.now) }
{
    whole_code(alloc, s)
}
