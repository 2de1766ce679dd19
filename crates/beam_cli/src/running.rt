//! The whole of what the program does.

ghost use Rattle.std.specs.Prelude.{◌≡◌, ◌+◌, ◌↔◌, ◌⊎◌, None};
ghost use Rattle.bk_port.specs.Causes.{Rose};
ghost use Rattle.bk_port.specs.Reading.{HasReadAtMost};
ghost use Rattle.bk_port.specs.declared.reading.TheConstants.{MOST_BYTES};
ghost use Rattle.beam_cli.specs.Accepting.{Accepts};
ghost use Rattle.beam_cli.specs.Words.{asked_by, named};
ghost use Rattle.beam_cli.specs.Answer.{answer};
ghost use Rattle.beam_cli.specs.Files.{IsFirst};
ghost use Rattle.beam_cli.specs.RoundTrip.{Assembles, Lists};
ghost use Rattle.beam_cli.specs.Outcome.{IsStatus, IsOutput, IsAnswered, IsMessage, IsSaid, SomeRose, SomeLeft};

use crate::command::request_from;
use crate::laws::{accepted_files_are_safe, listings_are_assembled};
use crate::making::make;
use crate::saying::{say_stop, say_usage, say_write_fault};
use crate::status::Status;
use bk_base::WordList;
use bk_port::{Host, Sink, emit};
use std::alloc::Global;

/// Does what the words ask for: reads the named files from the host, writes the output to `out`, and
/// one message to `err` where the status is 2 or more.
///
/// The words are judged first, without memory and without a call on the host. The whole output is made
/// before its first byte is written, and messages take no memory.
pub fn run<H: Host, O: Sink, E: Sink>(
    alloc: Global,
    words: &WordList,
    host: &mut H,
    out: &mut O,
    err: &mut E,
) -> Status
    // The status and the output are those of the answer to the words and to what the files hold.
    ensures status { IsStatus result (answer (H.holds host.old) words.now) }
    ensures output { IsOutput result (O.written out.old) (O.written out.new) (answer (H.holds host.old) words.now) }
    // Where nothing fails, the answer is given, or memory ran out.
    ensures complete { IsAnswered result (answer (H.holds host.old) words.now)
        (SomeRose (H.faults host.old) (H.faults host.new) (named (asked_by words.now)) ⊎ Rose (O.faults out.old) (O.faults out.new)) }
    // Each other status has its cause.
    ensures usage { (result ≡ Status.Usage) ↔ (asked_by words.now ≡ None) }
    ensures usage_host { result ≡ Status.Usage → host.new ≡ host.old }
    ensures read_fault { result ≡ Status.ReadFault
        → IsFirst (H.holds host.old) (λ name. Rose (H.faults host.old name) (H.faults host.new name)) (named (asked_by words.now)) }
    ensures write_fault { result ≡ Status.WriteFault → Rose (O.faults out.old) (O.faults out.new) }
    ensures too_large { result ≡ Status.TooLarge → H.count host.new ≡ MOST_BYTES + 1 }
    ensures not_too_large { (result ≡ Status.TooLarge) ⊎ HasReadAtMost MOST_BYTES (H.count host.old) (H.count host.new) }
    // One message says the status and its cause.
    ensures message { IsMessage result (answer (H.holds host.old) words.now)
        (IsSaid E.written E.faults err.old err.new)
        (λ name. Rose (H.faults host.old name) (H.faults host.new name))
        (named (asked_by words.now)) }
    // A listing is assembled to the canonical file of its value, and what is printed of a file is one.
    ensures assembles { Assembles (H.holds host.old) words.now result (O.written out.old) (O.written out.new) }
    ensures lists { Lists (H.holds host.old) words.now result (O.written out.old) (O.written out.new) }
    // A file that `validate` finds nothing wrong with is a module that never gets stuck.
    ensures accepts { Accepts (H.holds host.old) words.now result }
    // What is left of the host.
    ensures left { SomeLeft (H.holds host.old) (H.left host.old) (H.left host.new) (named (asked_by words.now)) }
{
    listings_are_assembled();
    accepted_files_are_safe();
    let Some(request) = request_from(words) else {
        say_usage(err);
        return Status::Usage;
    };
    match make(alloc, host, request) {
        Ok(output) => match emit(out, output.text.as_slice()) {
            Ok(()) => output.status(),
            Err(_) => {
                say_write_fault(err);
                Status::WriteFault
            }
        },
        Err(stop) => {
            say_stop(err, stop);
            stop.status()
        }
    }
}
