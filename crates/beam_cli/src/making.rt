//! Making the output of a command.

ghost use Rattle.std.specs.Prelude.{◌≡◌, ◌+◌, ◌≤◌, ◌⊎◌, ℕ, All, List, Result, Ok, length, map, IfOk, IfErr, IfSome, OnOk};
ghost use Rattle.bk_codec.specs.Reading.{GivesAll};
ghost use Rattle.bk_port.specs.Causes.{Rose};
ghost use Rattle.bk_port.specs.Reading.{HasReadAtMost};
ghost use Rattle.bk_port.specs.declared.reading.TheConstants.{MOST_BYTES};
ghost use Rattle.beam_cli.specs.Words.{IsInRange, file_count};
ghost use Rattle.beam_cli.specs.Asking.{asked};
ghost use Rattle.beam_cli.specs.Files.{IsFirst, named_file};
ghost use Rattle.beam_cli.specs.declared.refusal.Refusal.{Refusal};
ghost use Rattle.beam_cli.specs.Made.{GivesOf, Made, made_of_output, print_read, read_of};
ghost use Rattle.beam_cli.specs.Answer.{made, asm_output, info_output, disasm_output, strip_output, canon_output, output_of, asked_answer};
ghost use Rattle.beam_cli.specs.Generating.{generated_output};
ghost use Rattle.beam_cli.specs.Outcome.{SomeLeft};
ghost use Rattle.beam_cli.specs.Reasons.{IsRefusal};
ghost use Rattle.beam_cli.specs.Stopping.{HasReason, IsReadFault, IsTooLarge};

use crate::command::{Command, Request};
use crate::comparing::compared;
use crate::generating::generated_output;
use crate::loading::{LoadedFile, load_files};
use crate::needs::{form_of, listed_value, value_of_file};
use crate::output::Output;
use crate::refusal::Refusal;
use crate::showing::show_text;
use crate::stop::Stop;
use crate::validating::validated;
use beam_module::{canon, strip};
use bk_base::{Bytes, NoMemory};
use bk_port::Host;
use iff_form::info_text;
use listing_out::file_listing;
use std::alloc::Global;

// The output of `info` for these bytes.
fn info_of(alloc: Global, bytes: &[u8]) -> Result<Bytes, Refusal>
    ensures text { GivesAll Refusal.NoMemory (λ text. text.items) result (info_output bytes.now) }
    ensures kind { IfErr result IsRefusal }
{
    let form = form_of(alloc, bytes)?;
    Ok(info_text(alloc, &form)?)
}

// The output of `disasm` for these bytes.
fn listing_of(alloc: Global, bytes: &[u8]) -> Result<Bytes, Refusal>
    ensures text { GivesAll Refusal.NoMemory (λ text. text.items) result (disasm_output bytes.now) }
    ensures kind { IfErr result IsRefusal }
{
    match file_listing(alloc, bytes) {
        Ok(text) => Ok(text),
        Err(refusal) => Err(Refusal::of_module(refusal)),
    }
}

// The output of `asm` for this text.
fn assembled_of(alloc: Global, text: &[u8]) -> Result<Bytes, Refusal>
    requires { length text.now ≤ MOST_BYTES }
    ensures text { GivesAll Refusal.NoMemory (λ text. text.items) result (asm_output text.now) }
    ensures kind { IfErr result IsRefusal }
{
    let value = listed_value(alloc, text)?;
    Ok(canon(alloc, &value)?)
}

// The output of `strip` for these bytes.
fn stripped_of(alloc: Global, bytes: &[u8]) -> Result<Bytes, Refusal>
    ensures text { GivesAll Refusal.NoMemory (λ text. text.items) result (strip_output bytes.now) }
    ensures kind { IfErr result IsRefusal }
{
    let form = form_of(alloc, bytes)?;
    Ok(strip(alloc, &form)?)
}

// The output of `canon` for these bytes.
fn canon_of(alloc: Global, bytes: &[u8]) -> Result<Bytes, Refusal>
    ensures text { GivesAll Refusal.NoMemory (λ text. text.items) result (canon_output bytes.now) }
    ensures kind { IfErr result IsRefusal }
{
    let value = value_of_file(alloc, bytes)?;
    Ok(canon(alloc, &value)?)
}

// The output of a command that reads one file and checks nothing.
fn printed<'a>(file: &LoadedFile<'a>, text: Result<Bytes, Refusal>) -> Result<Output, Stop<'a>>
    requires { IfErr text IsRefusal }
    ensures { (read : Result (List ℕ) Refusal) → GivesAll Refusal.NoMemory (λ t. t.items) text read
        → GivesOf made_of_output result (print_read (named_file file.now) read) }
{
    match text {
        Ok(text) => Ok(Output { text, found: false }),
        Err(refusal) => Err(Stop::of_file(file.name, refusal)),
    }
}

// The output of a command that reads one file and checks something.
fn checked<'a>(file: &LoadedFile<'a>, output: Result<Output, Refusal>) -> Result<Output, Stop<'a>>
    requires { IfErr output IsRefusal }
    ensures { (read : Result Made Refusal) → GivesAll Refusal.NoMemory made_of_output output read
        → GivesOf made_of_output result (read_of (named_file file.now) read) }
{
    match output {
        Ok(output) => Ok(output),
        Err(refusal) => Err(Stop::of_file(file.name, refusal)),
    }
}

// The output of `gen`.
fn generated<'a>(alloc: Global, functions: u32) -> Result<Output, Stop<'a>>
    requires { IsInRange (Command.Gen functions) }
    ensures { GivesOf made_of_output result (Ok (generated_output functions)) }
{
    match generated_output(alloc, functions) {
        Ok(output) => Ok(output),
        Err(NoMemory) => Err(Stop::NoMemory),
    }
}

// The output of a command for its files. Each file is refused before the next is looked at.
fn output_of<'a>(
    alloc: Global,
    command: Command,
    files: &[LoadedFile<'a>],
) -> Result<Output, Stop<'a>>
    requires count { length files.now ≡ file_count command }
    requires range { IsInRange command }
    requires sizes { All (λ file. length file.bytes.items ≤ MOST_BYTES) files.now }
    ensures { GivesOf made_of_output result (output_of command (map named_file files.now)) }
{
    match command {
        Command::Info => printed(&files[0], info_of(alloc, files[0].bytes.as_slice())),
        Command::Show(what) => printed(
            &files[0],
            show_text(alloc, what, files[0].bytes.as_slice()),
        ),
        Command::Disasm => printed(&files[0], listing_of(alloc, files[0].bytes.as_slice())),
        Command::Asm => printed(&files[0], assembled_of(alloc, files[0].bytes.as_slice())),
        Command::Strip => printed(&files[0], stripped_of(alloc, files[0].bytes.as_slice())),
        Command::Canon => printed(&files[0], canon_of(alloc, files[0].bytes.as_slice())),
        Command::Cmp => compared(alloc, &files[0], &files[1]),
        Command::Validate => checked(&files[0], validated(alloc, files[0].bytes.as_slice())),
        Command::Gen(functions) => generated(alloc, functions),
    }
}

/// The whole output of what was asked for, or why there is none.
pub fn make<'a, H: Host>(
    alloc: Global,
    host: &mut H,
    request: Request<'a>,
) -> Result<Output, Stop<'a>>
    requires files { length request.names.now ≡ file_count request.command }
    requires range { IsInRange request.command }
    ensures ok { IfOk result (λ output. IfSome (asked_answer (H.holds host.old) (asked request.entry)) (λ a. a ≡ made (made_of_output output))) }
    ensures reason { IfErr result (HasReason (asked_answer (H.holds host.old) (asked request.entry))
        (λ n. Rose (H.faults host.old n) (H.faults host.new n)) request.entry.names.now) }
    ensures read_fault { IfErr result (λ stop. IsReadFault stop
        → IsFirst (H.holds host.old) (λ n. Rose (H.faults host.old n) (H.faults host.new n)) request.entry.names.now) }
    ensures too_large { IfErr result (λ stop. IsTooLarge stop → H.count host.new ≡ MOST_BYTES + 1) }
    ensures not_too_large { IfErr result (λ stop. IsTooLarge stop ⊎ HasReadAtMost MOST_BYTES (H.count host.old) (H.count host.new)) }
    ensures at_most { OnOk result (HasReadAtMost MOST_BYTES (H.count host.old) (H.count host.new)) }
    ensures left { SomeLeft (H.holds host.old) (H.left host.old) (H.left host.new) request.entry.names.now }
{
    let files = load_files(alloc, host, request.names)?;
    output_of(alloc, request.command, files.as_slice())
}
