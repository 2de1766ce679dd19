//! The messages, which take no memory.

ghost use Rattle.std.specs.Prelude.{◌≡◌, ◌++◌, List, ℕ, codes, decimal};
ghost use Rattle.bk_port.specs.Writing.{joined};
ghost use Rattle.beam_cli.specs.Message.{line, line_about, code_refusal_text, form_refusal_text, function_why_text, listing_refusal_text, why_text, operand_refusal_text, refusal_text, side_refusal_text, table_refusal_text, term_refusal_text, usage_line, write_fault_line};
ghost use Rattle.iff_form.specs.Text.{id_text};
ghost use Rattle.beam_cli.specs.Outcome.{IsSaid};
ghost use Rattle.beam_cli.specs.Stopping.{message_of};

use crate::refusal::Refusal;
use crate::stop::Stop;
use beam_module::FunctionWhy;
use bk_base::Text;
use bk_port::{MOST_BYTES, Sink, emit_all};
use code_chunk::CodeRefusal;
use compact_term::OperandRefusal;
use ext_term::TermRefusal;
use iff_form::{FormRefusal, Id, IdText};
use index_tables::TableRefusal;
use itoa::Buffer;
use listing_in::{ListingRefusal, ListingWhy};
use side_tables::SideRefusal;

// Writes a message of this text. A fault of the sink cuts it short and is passed over.
fn say<E: Sink>(err: &mut E, text: &[u8])
    ensures { IsSaid E.written E.faults err.old err.new (line text.now) }
{
    let _ = emit_all(err, &[b"beamkit: ", text, b"\n"]);
}

// Writes these pieces and a newline.
fn say_rest<E: Sink>(err: &mut E, pieces: &[&[u8]])
    ensures { IsSaid E.written E.faults err.old err.new (joined pieces.now ++ codes "\n") }
{
    match emit_all(err, pieces) {
        Ok(()) => {
            let _ = emit_all(err, &[b"\n"]);
        }
        Err(_) => {}
    }
}

// Writes a message about a file, whose text is these pieces.
fn say_about<E: Sink>(err: &mut E, name: &Text, pieces: &[&[u8]])
    ensures { IsSaid E.written E.faults err.old err.new (line_about name.now (joined pieces.now)) }
{
    match emit_all(err, &[b"beamkit: ", name.as_bytes(), b": "]) {
        Ok(()) => say_rest(err, pieces),
        Err(_) => {}
    }
}

// Writes why a file is no form.
fn say_form<E: Sink>(err: &mut E, name: &Text, refusal: FormRefusal)
    ensures { IsSaid E.written E.faults err.old err.new (line_about name.now (form_refusal_text refusal)) }
{
    let mut first = Buffer::new();
    let mut second = Buffer::new();
    match refusal {
        FormRefusal::Gzip => say_about(err, name, &[b"gzip file"]),
        FormRefusal::NotBeam => say_about(err, name, &[b"not a BEAM file"]),
        FormRefusal::Size { stated, found } => {
            let stated = first.format(stated).as_bytes();
            let found = second.format(found).as_bytes();
            say_about(err, name, &[b"size ", stated, b", found ", found])
        }
        FormRefusal::ChunkCut { at } => {
            let at = first.format(at).as_bytes();
            say_about(err, name, &[b"chunk cut at ", at])
        }
        FormRefusal::Twice { id, at } => {
            let id = IdText::new(id);
            let at = first.format(at).as_bytes();
            say_about(err, name, &[b"chunk ", id.as_bytes(), b" twice at ", at])
        }
        FormRefusal::NoMemory => say_about(err, name, &[b"out of memory"]),
    }
}

// Writes why the payload of a chunk is not its table.
fn say_table<E: Sink>(err: &mut E, name: &Text, id: &[u8], refusal: TableRefusal)
    ensures { IsSaid E.written E.faults err.old err.new
        (line_about name.now (id.now ++ (codes ": " ++ table_refusal_text refusal))) }
{
    let mut number = Buffer::new();
    match refusal {
        TableRefusal::Cut => say_about(err, name, &[id, b": cut"]),
        TableRefusal::Rest => say_about(err, name, &[id, b": rest"]),
        TableRefusal::AtomUtf8 { n } => {
            let n = number.format(n).as_bytes();
            say_about(err, name, &[id, b": atom ", n, b" is not UTF-8"])
        }
        TableRefusal::AtomIndex { entry } => {
            let entry = number.format(entry).as_bytes();
            say_about(err, name, &[id, b": atom number in entry ", entry])
        }
        TableRefusal::NoMemory => say_about(err, name, &[id, b": out of memory"]),
    }
}

// Writes why the payload of a chunk is not its literals or lines.
fn say_side<E: Sink>(err: &mut E, name: &Text, id: &[u8], refusal: SideRefusal)
    ensures { IsSaid E.written E.faults err.old err.new
        (line_about name.now (id.now ++ (codes ": " ++ side_refusal_text refusal))) }
{
    let mut number = Buffer::new();
    match refusal {
        SideRefusal::Version => say_about(err, name, &[id, b": version"]),
        SideRefusal::ItemTag { item } => {
            let item = number.format(item).as_bytes();
            say_about(err, name, &[id, b": item ", item])
        }
        SideRefusal::FileIndex { item } => {
            let item = number.format(item).as_bytes();
            say_about(err, name, &[id, b": file in item ", item])
        }
        SideRefusal::Cut => say_about(err, name, &[id, b": cut"]),
        SideRefusal::Rest => say_about(err, name, &[id, b": rest"]),
        SideRefusal::NoMemory => say_about(err, name, &[id, b": out of memory"]),
    }
}

// Writes why the payload of a chunk is no term.
fn say_term<E: Sink>(err: &mut E, name: &Text, id: &[u8], refusal: TermRefusal)
    ensures { IsSaid E.written E.faults err.old err.new
        (line_about name.now (id.now ++ (codes ": " ++ term_refusal_text refusal))) }
{
    let mut first = Buffer::new();
    let mut second = Buffer::new();
    match refusal {
        TermRefusal::Cut => say_about(err, name, &[id, b": cut"]),
        TermRefusal::Tag { tag, at } => {
            let tag = first.format(tag).as_bytes();
            let at = second.format(at).as_bytes();
            say_about(err, name, &[id, b": tag ", tag, b" at ", at])
        }
        TermRefusal::Depth { at } => {
            let at = first.format(at).as_bytes();
            say_about(err, name, &[id, b": depth at ", at])
        }
        TermRefusal::AtomText { at } => {
            let at = first.format(at).as_bytes();
            say_about(err, name, &[id, b": atom text at ", at])
        }
        TermRefusal::BitTail { at } => {
            let at = first.format(at).as_bytes();
            say_about(err, name, &[id, b": bit tail at ", at])
        }
        TermRefusal::Rest { at } => {
            let at = first.format(at).as_bytes();
            say_about(err, name, &[id, b": rest at ", at])
        }
        TermRefusal::NoMemory => say_about(err, name, &[id, b": out of memory"]),
    }
}

// Writes why the operand at this offset of the code is none.
fn say_operand<E: Sink>(err: &mut E, name: &Text, at: &[u8], why: OperandRefusal)
    ensures { IsSaid E.written E.faults err.old err.new
        (line_about name.now (codes "Code: operand at " ++ (at.now ++ (codes ": " ++ operand_refusal_text why)))) }
{
    let mut number = Buffer::new();
    let lead = b"Code: operand at ";
    match why {
        OperandRefusal::Cut => say_about(err, name, &[lead, at, b": cut"]),
        OperandRefusal::Inner => say_about(err, name, &[lead, at, b": inner"]),
        OperandRefusal::Wide { tag } => {
            let tag = number.format(tag).as_bytes();
            say_about(err, name, &[lead, at, b": too wide, tag ", tag])
        }
        OperandRefusal::Negative { tag } => {
            let tag = number.format(tag).as_bytes();
            say_about(err, name, &[lead, at, b": negative, tag ", tag])
        }
        OperandRefusal::Extended { value } => {
            let value = number.format(value).as_bytes();
            say_about(err, name, &[lead, at, b": extended ", value])
        }
        OperandRefusal::Nested => say_about(err, name, &[lead, at, b": nested"]),
        OperandRefusal::NoMemory => say_about(err, name, &[lead, at, b": out of memory"]),
    }
}

// Writes why the payload of the chunk `Code` is no code.
fn say_code<E: Sink>(err: &mut E, name: &Text, refusal: CodeRefusal)
    ensures { IsSaid E.written E.faults err.old err.new (line_about name.now (codes "Code: " ++ code_refusal_text refusal)) }
{
    let mut first = Buffer::new();
    let mut second = Buffer::new();
    match refusal {
        CodeRefusal::Header => say_about(err, name, &[b"Code: header"]),
        CodeRefusal::Opcode { at, op } => {
            let op = first.format(op).as_bytes();
            let at = second.format(at).as_bytes();
            say_about(err, name, &[b"Code: opcode ", op, b" at ", at])
        }
        CodeRefusal::Operand { at, why } => {
            say_operand(err, name, first.format(at).as_bytes(), why)
        }
        CodeRefusal::NoMemory => say_about(err, name, &[b"Code: out of memory"]),
    }
}

// What is wrong with code at one of its instructions.
fn function_why_text(why: FunctionWhy) -> &'static [u8]
    ensures { result.now ≡ function_why_text why }
{
    match why {
        FunctionWhy::Start => b"start",
        FunctionWhy::NoLabel => b"no label",
        FunctionWhy::NoEntry => b"no entry",
        FunctionWhy::Shape => b"shape",
        FunctionWhy::LabelTwice => b"label twice",
        FunctionWhy::LabelRange => b"label range",
        FunctionWhy::End => b"end",
        FunctionWhy::Long => b"long",
        FunctionWhy::Count => b"count",
    }
}

// Writes why code is not functions.
fn say_functions<E: Sink>(err: &mut E, name: &Text, at: usize, why: FunctionWhy)
    ensures { IsSaid E.written E.faults err.old err.new
        (line_about name.now (codes "functions: " ++ (function_why_text why ++ (codes " at " ++ decimal at)))) }
{
    let mut number = Buffer::new();
    let at = number.format(at).as_bytes();
    say_about(
        err,
        name,
        &[b"functions: ", function_why_text(why), b" at ", at],
    )
}

// What is wrong with a line, in a word.
fn why_text(why: ListingWhy) -> &'static [u8]
    ensures { result.now ≡ why_text why }
{
    match why {
        ListingWhy::Head => b"head",
        ListingWhy::Keyword => b"keyword",
        ListingWhy::Id => b"id",
        ListingWhy::Number => b"number",
        ListingWhy::Hex => b"hex",
        ListingWhy::Short => b"short",
        ListingWhy::Op => b"op",
        ListingWhy::Operands => b"operands",
    }
}

// Writes why a text is no listing.
fn say_listing<E: Sink>(err: &mut E, name: &Text, refusal: ListingRefusal)
    ensures { IsSaid E.written E.faults err.old err.new (line_about name.now (listing_refusal_text refusal)) }
{
    let mut number = Buffer::new();
    match refusal {
        ListingRefusal::Line { number: n, why } => {
            let n = number.format(n).as_bytes();
            say_about(err, name, &[b"line ", n, b": ", why_text(why)])
        }
        ListingRefusal::Twice { line, id } => {
            let id = IdText::new(id);
            let n = number.format(line).as_bytes();
            say_about(
                err,
                name,
                &[b"line ", n, b": chunk ", id.as_bytes(), b" twice"],
            )
        }
        ListingRefusal::NoMemory => say_about(err, name, &[b"out of memory"]),
    }
}

// Writes why a file is not what a command needs.
fn say_refusal<E: Sink>(err: &mut E, name: &Text, refusal: Refusal)
    ensures { IsSaid E.written E.faults err.old err.new (line_about name.now (refusal_text refusal)) }
{
    match refusal {
        Refusal::Form(refusal) => say_form(err, name, refusal),
        Refusal::Missing(id) => say_about(err, name, &[b"no chunk ", IdText::new(id).as_bytes()]),
        Refusal::Table(id, refusal) => say_table(err, name, IdText::new(id).as_bytes(), refusal),
        Refusal::Side(id, refusal) => say_side(err, name, IdText::new(id).as_bytes(), refusal),
        Refusal::Term(id, refusal) => say_term(err, name, IdText::new(id).as_bytes(), refusal),
        Refusal::Code(refusal) => say_code(err, name, refusal),
        Refusal::Functions(at, why) => say_functions(err, name, at, why),
        Refusal::Listing(refusal) => say_listing(err, name, refusal),
        Refusal::NoMemory => say_about(err, name, &[b"out of memory"]),
    }
}

/// Writes how the program is used.
pub fn say_usage<E: Sink>(err: &mut E)
    ensures { IsSaid E.written E.faults err.old err.new usage_line }
{
    say(
        err,
        b"usage: info F, show WHAT F, disasm F, asm F, strip F, canon F, cmp F G, validate F, gen N",
    )
}

/// Writes that the output could not be written.
pub fn say_write_fault<E: Sink>(err: &mut E)
    ensures { IsSaid E.written E.faults err.old err.new write_fault_line }
{
    say(err, b"write fault")
}

/// Writes why a command stopped.
pub fn say_stop<E: Sink>(err: &mut E, stop: Stop<'_>)
    ensures { IsSaid E.written E.faults err.old err.new (message_of stop.entry) }
{
    match stop {
        Stop::Grammar(name, refusal) => say_refusal(err, name, refusal),
        Stop::ReadFault(name) => say_about(err, name, &[b"read fault"]),
        Stop::TooLarge(name) => {
            let mut number = Buffer::new();
            let most = number.format(MOST_BYTES).as_bytes();
            say_about(err, name, &[b"more than ", most, b" bytes"])
        }
        Stop::NoMemory => say(err, b"out of memory"),
    }
}
