//! Laws of generated modules.

ghost use Rattle.std.specs.Prelude.{ℕ, ◌≤◌};
ghost use Rattle.beam_module.specs.Canonical.{IsWritable, canonical_file};
ghost use Rattle.beam_module.specs.Module.{IsModule};
ghost use Rattle.module_gen.specs.Generated.{generated, generated_module, most_functions};

/// The file of each generated module can be written, and is that module.
pub fn generated_files_open()
    ensures writable { (n : ℕ) → 1 ≤ n → n ≤ most_functions → IsWritable (generated n) }
    ensures module { (n : ℕ) → 1 ≤ n → n ≤ most_functions → IsModule (generated_module n) (canonical_file (generated n)) }
{
    index_tables::written_tables_are_spelled();
    iff_form::canonical_is_a_form();
    code_chunk::canonical_code_is_spelled();
    code_chunk::spelled_code_is_bytes();
    compact_term::canonical_numbers_are_short();
}
