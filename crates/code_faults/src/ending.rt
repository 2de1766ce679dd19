//! The functions of other modules that never return.

ghost use Rattle.std.specs.Prelude.{◌≡◌};
ghost use Rattle.code_faults.specs.Ending.{ends, is_atom_text, is_error, is_exit_or_throw, never_returns};

use beam_module::Module;
use index_tables::{Atoms, Import, atom_name};
use op_table::{Instr, number_in, operand_at};

// Whether the atom with this number is the one that is wanted.
fn is_atom_text(atoms: &Atoms, number: u32, wanted: &[u8]) -> bool
    ensures { result ≡ is_atom_text atoms.now number wanted.now }
{
    match atom_name(atoms, number) {
        Some(text) => text.as_bytes() == wanted,
        None => false,
    }
}

fn is_error(m: &Module<'_>, import: &Import) -> bool
    ensures { result ≡ is_error m.now import.now }
{
    is_atom_text(m.atoms(), import.name, b"error") && matches!(import.arity, 1..=3)
}

fn is_exit_or_throw(m: &Module<'_>, import: &Import) -> bool
    ensures { result ≡ is_exit_or_throw m.now import.now }
{
    (is_atom_text(m.atoms(), import.name, b"exit")
        || is_atom_text(m.atoms(), import.name, b"throw"))
        && import.arity == 1
}

fn never_returns(m: &Module<'_>, import: &Import) -> bool
    ensures { result ≡ never_returns m.now import.now }
{
    is_atom_text(m.atoms(), import.module, b"erlang")
        && (is_error(m, import) || is_exit_or_throw(m, import))
}

/// Whether an instruction that calls a function of another module calls one that never returns:
/// `erlang:error/1`, `erlang:error/2`, `erlang:error/3`, `erlang:exit/1` or `erlang:throw/1`.
///
/// The second operand is taken for the number of the import, and for 0 where it is no number. The
/// plans of other instructions do not ask.
pub fn ends(m: &Module<'_>, instr: &Instr) -> bool
    ensures { result ≡ ends m.now instr.now }
{
    let number = number_in(operand_at(instr.operands().as_slice(), 2));
    match m.imports().get(number as usize) {
        Some(import) => never_returns(m, import),
        None => false,
    }
}
