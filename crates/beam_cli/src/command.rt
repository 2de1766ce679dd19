//! The words of the command line.

ghost use Rattle.std.specs.Prelude.{◌≡◌, ◌≤◌, [], ◌∷◌, length, IfSome, option_map};
ghost use Rattle.std.specs.List.{list_all};
ghost use Rattle.beam_cli.specs.Words.{IsInRange, asked_by, asked_by_three, asked_by_two, asked_to_generate, command_by, count_by, file_count, is_input, is_name, names_by, on_files, shown_by};
ghost use Rattle.beam_cli.specs.Asking.{asked};

use crate::shown::Shown;
use bk_base::{Text, WordList};
use bk_parse::read_u32;
use module_gen::MOST_FUNCTIONS;

/// What is to be done with files.
#[derive(Clone, Copy, Debug, PartialEq, Eq)]
pub enum Command {
    /// Tells the size of a form, and the ids and sizes of its chunks.
    Info,
    /// Shows one table.
    Show(Shown),
    /// Lists the chunks, the code as instructions.
    Disasm,
    /// Assembles the file that a listing lists.
    Asm,
    /// Writes the file without the chunks that a running node does not want.
    Strip,
    /// Writes the canonical file of the file's value.
    Canon,
    /// Tells what differs between two modules.
    Cmp,
    /// Judges the code of a module.
    Validate,
    /// Makes a module of so many functions, and judges it.
    Gen(u32),
}

/// A command, on the files with these names in the order of the words.
#[derive(Clone, Copy, Debug)]
pub struct Request<'a> {
    pub command: Command,
    pub names: &'a [Text],
}

// Whether a word names a file.
fn names_file(word: &Text) -> bool
    ensures { result ≡ is_name word.now }
{
    match word.as_bytes() {
        [] => false,
        [b'-', rest @ ..] => rest.is_empty(),
        [_, ..] => true,
    }
}

// The table of names that a word names.
#[tactic(auto, unfolding(crate::specs::Words::names_by))]
fn names_by(word: &[u8]) -> Option<Shown>
    ensures { result ≡ names_by word.now }
{
    if word == b"atoms".as_slice() {
        Some(Shown::Atoms)
    } else if word == b"imports".as_slice() {
        Some(Shown::Imports)
    } else if word == b"exports".as_slice() {
        Some(Shown::Exports)
    } else if word == b"locals".as_slice() {
        Some(Shown::Locals)
    } else if word == b"funs".as_slice() {
        Some(Shown::Funs)
    } else {
        None
    }
}

// The table that a word names.
#[tactic(auto, unfolding(crate::specs::Words::shown_by))]
fn shown_by(word: &Text) -> Option<Shown>
    ensures { result ≡ shown_by word.now }
{
    let word = word.as_bytes();
    if word == b"literals".as_slice() {
        Some(Shown::Literals)
    } else if word == b"lines".as_slice() {
        Some(Shown::Lines)
    } else if word == b"attributes".as_slice() {
        Some(Shown::Attributes)
    } else if word == b"compile".as_slice() {
        Some(Shown::Compile)
    } else {
        names_by(word)
    }
}

// The command on one file that a word names.
#[tactic(auto, unfolding(crate::specs::Words::command_by))]
fn command_by(word: &Text) -> Option<Command>
    ensures named { result ≡ command_by word.now }
    ensures files { IfSome result (λ command. file_count command ≡ 1) }
    ensures range { IfSome result IsInRange }
{
    let word = word.as_bytes();
    if word == b"info".as_slice() {
        Some(Command::Info)
    } else if word == b"disasm".as_slice() {
        Some(Command::Disasm)
    } else if word == b"asm".as_slice() {
        Some(Command::Asm)
    } else if word == b"strip".as_slice() {
        Some(Command::Strip)
    } else if word == b"canon".as_slice() {
        Some(Command::Canon)
    } else if word == b"validate".as_slice() {
        Some(Command::Validate)
    } else {
        None
    }
}

// A command on files, where each of the words names one.
fn on_files(names: &[Text], command: Option<Command>) -> Option<Request<'_>>
    requires files { IfSome command (λ command. length names.now ≡ file_count command) }
    requires range { IfSome command IsInRange }
    ensures asked { option_map asked result ≡ on_files names.now command }
    ensures files { IfSome result (λ request. length request.names.now ≡ file_count request.command) }
    ensures range { IfSome result (λ request. IsInRange request.command) }
{
    let command = command?;
    if !names.iter().all(names_file) {
        return None;
    }
    Some(Request { command, names })
}

// The number of functions that a word tells.
#[tactic(auto, unfolding(crate::specs::Words::count_by))]
fn count_by(word: &Text) -> Option<u32>
    ensures told { result ≡ count_by word.now }
    ensures range { IfSome result (λ n. IsInRange (Command.Gen n)) }
{
    let count = read_u32(word.as_bytes())?;
    if 1 <= count && count <= MOST_FUNCTIONS {
        Some(count)
    } else {
        None
    }
}

// `gen` with a number, which reads no file.
#[tactic(auto, unfolding(crate::specs::Words::asked_to_generate))]
fn to_generate<'a>(word: &Text, count: &Text, names: &'a [Text]) -> Option<Request<'a>>
    requires { names.now ≡ [] }
    ensures asked { option_map asked result ≡ asked_to_generate word.now count.now }
    ensures files { IfSome result (λ request. length request.names.now ≡ file_count request.command) }
    ensures range { IfSome result (λ request. IsInRange request.command) }
{
    if word.as_bytes() != b"gen".as_slice() {
        return None;
    }
    let command = Command::Gen(count_by(count)?);
    Some(Request { command, names })
}

// A command of two words, of which the last one is this.
fn of_two<'a>(word: &Text, second: &Text, names: &'a [Text]) -> Option<Request<'a>>
    requires { names.now ≡ second.now ∷ [] }
    ensures asked { option_map asked result ≡ asked_by_two (command_by word.now) word.now second.now }
    ensures files { IfSome result (λ request. length request.names.now ≡ file_count request.command) }
    ensures range { IfSome result (λ request. IsInRange request.command) }
{
    match command_by(word) {
        Some(command) => on_files(names, Some(command)),
        None => to_generate(word, second, &names[1..]),
    }
}

// Whether a word names standard input.
fn is_input(word: &Text) -> bool
    ensures { result ≡ is_input word.now }
{
    word.as_bytes() == b"-".as_slice()
}

// A command of three words, of which the last two are these.
#[tactic(auto, unfolding(crate::specs::Words::asked_by_three))]
fn of_three<'a>(word: &Text, first: &Text, second: &Text, names: &'a [Text]) -> Option<Request<'a>>
    requires { names.now ≡ first.now ∷ second.now ∷ [] }
    ensures asked { option_map asked result ≡ asked_by_three word.now first.now second.now }
    ensures files { IfSome result (λ request. length request.names.now ≡ file_count request.command) }
    ensures range { IfSome result (λ request. IsInRange request.command) }
{
    let word = word.as_bytes();
    if word == b"show".as_slice() {
        return on_files(&names[1..], shown_by(first).map(Command::Show));
    }
    if word == b"cmp".as_slice() && !(is_input(first) && is_input(second)) {
        return on_files(names, Some(Command::Cmp));
    }
    None
}

/// What the words ask for. None exactly where they are not in the command grammar. It takes no memory.
pub fn request_from(words: &WordList) -> Option<Request<'_>>
    ensures asked { option_map asked result ≡ asked_by words.now }
    ensures files { IfSome result (λ request. length request.names.now ≡ file_count request.command) }
    ensures range { IfSome result (λ request. IsInRange request.command) }
{
    let words = words.as_slice();
    match words {
        [word, second] => of_two(word, second, &words[1..]),
        [word, first, second] => of_three(word, first, second, &words[1..]),
        _ => None,
    }
}
