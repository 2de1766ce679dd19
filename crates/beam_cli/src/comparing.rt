//! The output of `cmp`.

ghost use Rattle.std.specs.Prelude.{◌≡◌, ◌++◌, codes, IfOk, IfErr};
ghost use Rattle.bk_codec.specs.Reading.{GivesAll};
ghost use Rattle.beam_cli.specs.Comparing.{cmp_output, compared, comparison_of, named_form, plain_form};
ghost use Rattle.beam_cli.specs.Files.{named_file};
ghost use Rattle.beam_cli.specs.Made.{GivesOf, made_of_output};
ghost use Rattle.beam_cli.specs.Reasons.{IsRefusal};

use crate::loading::LoadedFile;
use crate::needs::{form_of, name_of};
use crate::output::Output;
use crate::refusal::Refusal;
use crate::stop::Stop;
use beam_module::{Compared, compare};
use bk_base::{Bytes, NoMemory, Text};
use iff_form::{Form, Id, IdText};
use std::alloc::Global;

// The form of a file, and the name of its module.
#[derive(Debug, Drop)]
struct KeptForm<'a> {
    form: Form<'a>,
    name: Text,
}

fn named_form<'a>(alloc: Global, bytes: &'a [u8]) -> Result<KeptForm<'a>, Refusal>
    ensures form { GivesAll Refusal.NoMemory plain_form result (named_form bytes.now) }
    ensures kind { IfErr result IsRefusal }
{
    let form = form_of(alloc, bytes)?;
    let name = name_of(alloc, &form)?;
    Ok(KeptForm { form, name })
}

// These two parts and a newline.
fn ended_line(alloc: Global, lead: &[u8], rest: &[u8]) -> Result<Bytes, NoMemory>
    ensures { IfOk result (λ line. line.items ≡ lead.now ++ (rest.now ++ codes "\n")) }
{
    let mut text = Bytes::new(alloc);
    text.extend(lead)?;
    text.extend(rest)?;
    text.push(b'\n')?;
    Ok(text)
}

// What differs, in words and on a line.
fn difference_line(alloc: Global, what: Compared) -> Result<Bytes, NoMemory>
    ensures { IfOk result (λ line. line.items ≡ (compared what).text) }
{
    match what {
        Compared::Same => ended_line(alloc, b"same", b""),
        Compared::Modules => ended_line(alloc, b"different module names", b""),
        Compared::Ids { id } => ended_line(alloc, b"different ids: ", IdText::new(id).as_bytes()),
        Compared::Chunk { id } => ended_line(
            alloc,
            b"different chunk: ",
            IdText::new(id).as_bytes(),
        ),
    }
}

// What differs between two forms with names.
fn between(alloc: Global, first: &KeptForm<'_>, second: &KeptForm<'_>) -> Result<Output, NoMemory>
    ensures { IfOk result (λ output. made_of_output output ≡ compared (comparison_of (plain_form first.now) (plain_form second.now))) }
{
    let compared = compare(alloc, &first.form, &first.name, &second.form, &second.name)?;
    Ok(Output {
        text: difference_line(alloc, compared)?,
        found: compared != Compared::Same,
    })
}

/// What differs between the modules of two files. The first file is refused before the second is
/// looked at.
pub fn compared<'a>(
    alloc: Global,
    first: &LoadedFile<'a>,
    second: &LoadedFile<'a>,
) -> Result<Output, Stop<'a>>
    ensures { GivesOf made_of_output result (cmp_output (named_file first.now) (named_file second.now)) }
{
    let a = match named_form(alloc, first.bytes.as_slice()) {
        Ok(form) => form,
        Err(refusal) => return Err(Stop::of_file(first.name, refusal)),
    };
    let b = match named_form(alloc, second.bytes.as_slice()) {
        Ok(form) => form,
        Err(refusal) => return Err(Stop::of_file(second.name, refusal)),
    };
    Ok(between(alloc, &a, &b)?)
}
