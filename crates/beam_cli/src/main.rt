//! beamkit opens compiled Erlang modules and tells what is in them.
#![tactic(auto)]

ghost use Rattle.std.specs.Prelude.{◌≡◌, [], ◌∷◌, IfOk};

mod command;
mod comparing;
mod generating;
mod laws;
mod loading;
mod making;
mod needs;
mod output;
mod refusal;
mod running;
mod saying;
mod showing;
mod shown;
mod status;
mod stop;
mod validating;

pub use crate::command::{Command, Request, request_from};
pub use crate::laws::{
    accepted_files_are_safe, asm_is_exact, canon_is_exact, cmp_is_exact, disasm_is_exact,
    info_is_exact, listings_are_assembled, show_is_exact, strip_is_exact, validate_is_exact,
};
pub use crate::refusal::Refusal;
pub use crate::running::run;
pub use crate::shown::Shown;
pub use crate::status::Status;
pub use crate::stop::Stop;
use bk_base::{NoMemory, Text, WordList};
use bk_port::{FileHost, StdSink};
use std::alloc::Global;
use std::env::args;
use std::io;
use std::process::ExitCode;
use std::rt::Env;

#[cfg(test)]
mod generating_tests;
#[cfg(test)]
mod listing_tests;
#[cfg(test)]
mod module_payloads;
#[cfg(test)]
mod tests;
#[cfg(test)]
mod validating_tests;
#[cfg(test)]
mod writing_tests;

// A list of the one empty word, which is in no place of the command grammar.
fn empty_word(alloc: Global) -> Result<WordList, NoMemory>
    ensures { IfOk result (λ words. words ≡ [] ∷ []) }
{
    let mut words = WordList::new(alloc);
    words.push(Text::from(String::new(alloc)))?;
    Ok(words)
}

// The words after the program's name. Where one of them is not UTF-8 the system's list cannot be had,
// and the empty word stands for it.
fn words_from(rt: &(impl Env + AllocGlobal)) -> Result<WordList, NoMemory> {
    let mut words = WordList::new(rt.alloc());
    match args(rt) {
        Ok(all) => {
            for word in all.skip(1) {
                words.push(Text::from(word))?;
            }
            Ok(words)
        }
        Err(error) if error.kind() == io::ErrorKind::OutOfMemory => Err(NoMemory),
        Err(_) => empty_word(rt.alloc()),
    }
}

fn main(rt: HostRuntime) -> ExitCode {
    let Ok(words) = words_from(&rt) else {
        return ExitCode::from(Status::NoMemory.code());
    };
    let mut out = StdSink::new(rt.stdout());
    let mut err = StdSink::new(rt.stderr());
    let alloc = rt.alloc();
    let mut host = FileHost::new(rt, rt.stdin());
    let status = run(alloc, &words, &mut host, &mut out, &mut err);
    ExitCode::from(status.code())
}
