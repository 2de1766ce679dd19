//! The output of `show`.

ghost use Rattle.std.specs.Prelude.{◌≡◌, IfErr};
ghost use Rattle.bk_codec.specs.Reading.{GivesAll};
ghost use Rattle.ext_term.specs.Reading.{term_of};
ghost use Rattle.beam_cli.specs.Needs.{part_at};
ghost use Rattle.beam_cli.specs.Reasons.{IsRefusal};
ghost use Rattle.beam_cli.specs.Showing.{line_lines, literal_lines, show_output, shown_text, table_lines, term_line};

use crate::needs::{atoms_of, form_of, payload_of};
use crate::refusal::Refusal;
use crate::shown::Shown;
use bk_base::Bytes;
use ext_term::{Term, put_term, read_term};
use iff_form::{Form, Id};
use index_tables::{EntryLine, Export, Fun, Import, atoms_text, entries_text, read_entries};
use side_tables::{lines_text, literals_shown, read_lines};
use std::alloc::Global;

// The entries that the chunk with this id has over the atoms of the module.
fn entries<T: EntryLine>(alloc: Global, form: &Form<'_>, id: Id) -> Result<Bytes, Refusal>
    ensures text { GivesAll Refusal.NoMemory (λ text. text.items) result (table_lines T.shape T.text id form.now) }
    ensures kind { IfErr result IsRefusal }
{
    let atoms = atoms_of(alloc, form)?;
    let payload = payload_of(form, id)?;
    match read_entries::<T>(alloc, payload, &atoms) {
        Ok(table) => Ok(entries_text(alloc, &table, &atoms)?),
        Err(refusal) => Err(Refusal::of_table(id, refusal)),
    }
}

// The literals.
fn literals(alloc: Global, form: &Form<'_>) -> Result<Bytes, Refusal>
    ensures text { GivesAll Refusal.NoMemory (λ text. text.items) result (literal_lines form.now) }
    ensures kind { IfErr result IsRefusal }
{
    let id = Id(*b"LitT");
    let payload = payload_of(form, id)?;
    match literals_shown(alloc, payload) {
        Ok(text) => Ok(text),
        Err(refusal) => Err(Refusal::of_side(id, refusal)),
    }
}

// The lines of the source.
fn lines(alloc: Global, form: &Form<'_>) -> Result<Bytes, Refusal>
    ensures text { GivesAll Refusal.NoMemory (λ text. text.items) result (line_lines form.now) }
    ensures kind { IfErr result IsRefusal }
{
    let id = Id(*b"Line");
    let payload = payload_of(form, id)?;
    match read_lines(alloc, payload) {
        Ok(table) => Ok(lines_text(alloc, &table)?),
        Err(refusal) => Err(Refusal::of_side(id, refusal)),
    }
}

// The term of the chunk with this id.
fn term_of(alloc: Global, form: &Form<'_>, id: Id) -> Result<Term, Refusal>
    ensures term { GivesAll Refusal.NoMemory (λ t. t) result (part_at (Refusal.Term id) term_of id form.now) }
    ensures kind { IfErr result IsRefusal }
{
    let payload = payload_of(form, id)?;
    match read_term(alloc, payload) {
        Ok(term) => Ok(term),
        Err(refusal) => Err(Refusal::of_term(id, refusal)),
    }
}

// The term of the chunk with this id, on a line.
fn term_line(alloc: Global, form: &Form<'_>, id: Id) -> Result<Bytes, Refusal>
    ensures text { GivesAll Refusal.NoMemory (λ text. text.items) result (term_line id form.now) }
    ensures kind { IfErr result IsRefusal }
{
    let term = term_of(alloc, form, id)?;
    let mut out = Bytes::new(alloc);
    put_term(&term, &mut out)?;
    out.push(b'\n')?;
    Ok(out)
}

// The text of one table.
#[tactic(auto, unfolding(crate::specs::Showing::shown_text))]
fn shown_text(alloc: Global, what: Shown, form: &Form<'_>) -> Result<Bytes, Refusal>
    ensures text { GivesAll Refusal.NoMemory (λ text. text.items) result (shown_text what form.now) }
    ensures kind { IfErr result IsRefusal }
{
    match what {
        Shown::Atoms => {
            let atoms = atoms_of(alloc, form)?;
            Ok(atoms_text(alloc, &atoms)?)
        }
        Shown::Imports => entries::<Import>(alloc, form, Id(*b"ImpT")),
        Shown::Exports => entries::<Export>(alloc, form, Id(*b"ExpT")),
        Shown::Locals => entries::<Export>(alloc, form, Id(*b"LocT")),
        Shown::Funs => entries::<Fun>(alloc, form, Id(*b"FunT")),
        Shown::Literals => literals(alloc, form),
        Shown::Lines => lines(alloc, form),
        Shown::Attributes => term_line(alloc, form, Id(*b"Attr")),
        Shown::Compile => term_line(alloc, form, Id(*b"CInf")),
    }
}

/// The text of one table of the file of these bytes. A table whose entries name atoms has the atoms
/// before it: what is missing or refused there is told first.
pub fn show_text(alloc: Global, what: Shown, bytes: &[u8]) -> Result<Bytes, Refusal>
    ensures text { GivesAll Refusal.NoMemory (λ text. text.items) result (show_output what bytes.now) }
    ensures kind { IfErr result IsRefusal }
{
    let form = form_of(alloc, bytes)?;
    shown_text(alloc, what, &form)
}
