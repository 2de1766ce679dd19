//! Loading the named files.

ghost use Rattle.std.specs.Prelude.{◌≡◌, ◌+◌, ◌≤◌, ◌⊎◌, ℕ, List, length, IfOk, IfErr, IfSome, OnOk};
ghost use Rattle.std.specs.List.{AllZip};
ghost use Rattle.bk_port.specs.Causes.{Rose};
ghost use Rattle.bk_port.specs.Reading.{IsLeftAfter, HasReadAtMost};
ghost use Rattle.bk_port.specs.declared.reading.TheConstants.{MOST_BYTES};
ghost use Rattle.beam_cli.specs.Files.{IsLoaded};
ghost use Rattle.beam_cli.specs.Outcome.{SomeLeft};
ghost use Rattle.beam_cli.specs.Stopping.{HasLoadReason, HasLoadReasons, IsTooLarge};

use crate::stop::Stop;
use bk_base::{Bytes, Text};
use bk_port::{Host, LoadFault, load};
use std::alloc::Global;

/// A named file that was loaded whole.
#[derive(Debug, Drop)]
pub struct LoadedFile<'a> {
    pub name: &'a Text,
    pub bytes: Bytes,
}

// The bytes of a named file.
fn load_file<'a, H: Host>(alloc: Global, host: &mut H, name: &'a Text) -> Result<Bytes, Stop<'a>>
    ensures whole { IfOk result (λ bytes. IfSome (H.holds host.old name.now) (λ all. bytes.items ≡ all)) }
    ensures size { IfOk result (λ bytes. length bytes.items ≤ MOST_BYTES) }
    ensures reason { IfErr result (λ stop. HasLoadReason (H.holds host.old name.now)
        (Rose (H.faults host.old name.now) (H.faults host.new name.now)) name.now stop) }
    ensures too_large { IfErr result (λ stop. IsTooLarge stop → H.count host.new ≡ MOST_BYTES + 1) }
    ensures not_too_large { IfErr result (λ stop. IsTooLarge stop ⊎ HasReadAtMost MOST_BYTES (H.count host.old) (H.count host.new)) }
    ensures at_most { OnOk result (HasReadAtMost MOST_BYTES (H.count host.old) (H.count host.new)) }
    ensures left { IsLeftAfter (MOST_BYTES + 1) (H.holds host.old name.now) (H.left host.old) (H.left host.new) }
    ensures holds { (n : List ℕ) → H.holds host.new n ≡ H.holds host.old n }
    ensures later { (n : List ℕ) → H.faults host.old n ≤ H.faults host.new n }
{
    match load(alloc, host, name) {
        Ok(bytes) => Ok(bytes),
        Err(LoadFault::ReadFault) => Err(Stop::ReadFault(name)),
        Err(LoadFault::TooLarge) => Err(Stop::TooLarge(name)),
        Err(LoadFault::NoMemory) => Err(Stop::NoMemory),
    }
}

/// The files with these names, in their order. The first that can't be loaded stops it.
pub fn load_files<'a, H: Host>(
    alloc: Global,
    host: &mut H,
    names: &'a [Text],
) -> Result<Vec<LoadedFile<'a>>, Stop<'a>>
    ensures loaded { IfOk result (λ files. AllZip (IsLoaded (H.holds host.old)) names.now files.items) }
    ensures reason { IfErr result (HasLoadReasons (H.holds host.old) (λ n. Rose (H.faults host.old n) (H.faults host.new n)) names.now) }
    ensures too_large { IfErr result (λ stop. IsTooLarge stop → H.count host.new ≡ MOST_BYTES + 1) }
    ensures not_too_large { IfErr result (λ stop. IsTooLarge stop ⊎ HasReadAtMost MOST_BYTES (H.count host.old) (H.count host.new)) }
    ensures at_most { OnOk result (HasReadAtMost MOST_BYTES (H.count host.old) (H.count host.new)) }
    ensures left { SomeLeft (H.holds host.old) (H.left host.old) (H.left host.new) names.now }
    ensures later { (n : List ℕ) → H.faults host.old n ≤ H.faults host.new n }
{
    let mut files = Vec::new(alloc);
    'names: for name in names {
        let bytes = load_file(alloc, host, name)?;
        files.push(LoadedFile { name, bytes })?;
    }
    Ok(files)
}
