//! The fields of a line of code.

ghost use Rattle.std.specs.Prelude.{[], ◌∷◌};
ghost use Rattle.bk_parse.specs.Answer.{Answers};
ghost use Rattle.listing_in.specs.Header.{extra_of, header_of};

use bk_base::{ByteList, Bytes};
use bk_parse::{Parts, TextRefusal, read_hex, read_u32};
use code_chunk::{CodeVal, InstrList};
use std::alloc::Global;

/// Code without instructions: the highest opcode, the counts of labels and functions, and the extra
/// bytes of the sub-header.
pub(crate) fn header_of(alloc: Global, mut fields: Parts<'_>) -> Result<CodeVal, TextRefusal>
    ensures { Answers (λ c. c) result (header_of fields.entry) }
{
    let Some(max_op) = fields.next() else {
        return Err(TextRefusal::Wrong);
    };
    let Some(labels) = fields.next() else {
        return Err(TextRefusal::Wrong);
    };
    let Some(functions) = fields.next() else {
        return Err(TextRefusal::Wrong);
    };
    let Some(extra) = fields.next() else {
        return Err(TextRefusal::Wrong);
    };
    if fields.next().is_some() {
        return Err(TextRefusal::Wrong);
    }
    header_with(alloc, max_op, labels, functions, extra)
}

fn header_with(
    alloc: Global,
    max_op: &[u8],
    labels: &[u8],
    functions: &[u8],
    extra: &[u8],
) -> Result<CodeVal, TextRefusal>
    ensures { Answers (λ c. c) result (header_of (max_op.now ∷ labels.now ∷ functions.now ∷ extra.now ∷ [])) }
{
    let max_op = read_u32(max_op).ok_or(TextRefusal::Wrong)?;
    let labels = read_u32(labels).ok_or(TextRefusal::Wrong)?;
    let functions = read_u32(functions).ok_or(TextRefusal::Wrong)?;
    Ok(CodeVal {
        extra: extra_of(alloc, extra)?,
        max_op,
        labels,
        functions,
        instrs: InstrList::new(alloc),
    })
}

// The extra bytes of the sub-header, or a dash for none.
fn extra_of(alloc: Global, text: &[u8]) -> Result<ByteList, TextRefusal>
    ensures { Answers (λ bytes. bytes) result (extra_of text.now) }
{
    let mut bytes = Bytes::new(alloc);
    if text == b"-".as_slice() {
        return Ok(ByteList::from(bytes));
    }
    read_hex(&mut bytes, text)?;
    if bytes.is_empty() {
        return Err(TextRefusal::Wrong);
    }
    Ok(ByteList::from(bytes))
}
