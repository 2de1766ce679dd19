//! The output of `gen`.

ghost use Rattle.std.specs.Prelude.{◌≡◌, ◌≤◌, ◌++◌, IfOk, OnOk};
ghost use Rattle.beam_module.specs.Canonical.{canonical_file};
ghost use Rattle.module_gen.specs.Generated.{generated, generated_module, most_functions};
ghost use Rattle.beam_cli.specs.Generating.{generated_output, summary};
ghost use Rattle.beam_cli.specs.Made.{made_of_output};

use crate::output::Output;
use crate::validating::report_of;
use beam_module::{Module, canon, one_module, open_module};
use bk_base::{Bytes, NoMemory};
use bk_text::put_marked;
use module_gen::{generated, generated_files_open};
use std::alloc::Global;

/// How large the module of so many functions is, from 1 to 2000, and what is wrong with it. It fails
/// only for want of memory.
#[tactic(auto, unfolding(crate::specs::Generating::generated_output))]
pub fn generated_output(alloc: Global, functions: u32) -> Result<Output, NoMemory>
    requires least { 1 ≤ functions }
    requires most { functions ≤ most_functions }
    ensures { IfOk result (λ output. made_of_output output ≡ generated_output functions) }
{
    let value = generated(alloc, functions)?;
    let file = canon(alloc, &value)?;
    let module = opened(alloc, functions, file.as_slice())?;
    let report = report_of(alloc, &module)?;
    let mut text = Bytes::new(alloc);
    put_summary(&mut text, functions, file.len())?;
    text.extend(report.text.as_slice())?;
    Ok(Output { text, found: false })
}

// The module that the file of so many functions is.
fn opened(alloc: Global, functions: u32, file: &[u8]) -> Result<Module<'_>, NoMemory>
    requires least { 1 ≤ functions }
    requires most { functions ≤ most_functions }
    requires file { file.now ≡ canonical_file (generated functions) }
    ensures { IfOk result (λ m. m ≡ generated_module functions) }
{
    generated_files_open();
    one_module();
    match open_module(alloc, file) {
        Ok(module) => Ok(module),
        // It is a module, so this is want of memory.
        Err(_) => Err(NoMemory),
    }
}

// Puts what stands before the report, for a file of so many bytes.
fn put_summary(out: &mut Bytes, functions: u32, size: usize) -> Result<(), NoMemory>
    requires { functions ≤ most_functions }
    ensures { OnOk result (out.new.items ≡ out.old.items ++ summary functions size) }
{
    put_marked(out, b"module gen\nfunctions ", functions)?;
    put_marked(out, b"\ninstructions ", 16 * functions + 1)?;
    put_marked(out, b"\nbytes ", size)?;
    out.push(b'\n')?;
    Ok(())
}
