//! Laws over the definition of files.

ghost use Rattle.std.specs.Prelude.{◌≡◌, ◌↔◌, ℕ, ◌≤◌, List, length, Ok, IsErr};
ghost use Rattle.std.specs.List.{AllByRecursion};
ghost use Rattle.bk_codec.specs.Exact.{IsExact};
ghost use Rattle.bk_codec.specs.Spelling.{IsBytes};
ghost use Rattle.iff_form.specs.Chunk.{PlainChunk};
ghost use Rattle.iff_form.specs.Form.{AreDistinct};
ghost use Rattle.beam_module.specs.declared.comparison.Compared.{Compared};
ghost use Rattle.beam_module.specs.Canonical.{FileMeetsType, IsCanonical, IsWritable, canonical_file};
ghost use Rattle.beam_module.specs.Comparison.{Compares, comparison};
ghost use Rattle.beam_module.specs.File.{AreChunks, FileChunk, IsFile};
ghost use Rattle.beam_module.specs.Module.{IsModule, ModuleValue};
ghost use Rattle.beam_module.specs.Name.{IsModuleName, name_of};
ghost use Rattle.beam_module.specs.Opening.{module_of};
ghost use Rattle.beam_module.specs.Reading.{file_of};

/// The reading from left to right gives a value exactly where the bytes are a file of it, and refuses
/// exactly the bytes that are a file of none.
pub fn reading_is_exact()
    ensures { IsExact file_of IsFile }
{
    iff_form::reading_is_exact();
    code_chunk::reading_is_exact();
}

/// Bytes are a file of one value at most.
pub fn one_file()
    ensures { (bytes : List ℕ) (v w : List FileChunk) → IsFile v bytes → IsFile w bytes → v ≡ w }
{
    iff_form::one_form();
    code_chunk::one_code();
}

/// The canonical file of a value is a file of it, where the value meets its type, its operands are
/// proper and the size word is below 2^32.
pub fn canon_is_a_file()
    ensures { (v : List FileChunk) → AreChunks v → FileMeetsType v → IsWritable v → IsFile v (canonical_file v) }
{
    iff_form::canonical_is_a_form();
    code_chunk::canonical_code_is_spelled();
    code_chunk::spelled_code_is_bytes();
}

/// No file of a value is shorter than its canonical file.
pub fn canon_is_shortest()
    ensures { (v : List FileChunk) (bytes : List ℕ) → IsFile v bytes → length (canonical_file v) ≤ length bytes }
{
    code_chunk::canonical_code_is_shortest();
}

/// The value of each file meets its type, its operands are proper and its canonical file has a size
/// that fits into a word.
pub fn a_file_meets_its_type()
    ensures { (v : List FileChunk) (bytes : List ℕ) → IsBytes bytes → IsFile v bytes → AreChunks v × FileMeetsType v × IsWritable v }
{
    iff_form::chunks_meet_their_type();
    iff_form::a_form_has_its_size();
    code_chunk::spelled_code_is_proper();
    code_chunk::canonical_code_is_shortest();
}

/// The value of each file has a canonical file, which is canonical.
pub fn a_file_has_a_canon()
    ensures { (v : List FileChunk) (bytes : List ℕ) → IsBytes bytes → IsFile v bytes → IsFile v (canonical_file v) × IsCanonical (canonical_file v) }
{
    a_file_meets_its_type();
    canon_is_a_file();
}

/// The reading of the name gives a name exactly where it is the module's, and refuses exactly the
/// chunks of a module without a name.
pub fn names_are_exact()
    ensures accepted { (chunks : List PlainChunk) (name : List ℕ) → AllByRecursion (λ c. IsBytes c.payload) chunks → (name_of chunks ≡ Ok name) ↔ IsModuleName name chunks }
    ensures refused { (chunks : List PlainChunk) → AllByRecursion (λ c. IsBytes c.payload) chunks → IsErr (name_of chunks) ↔ ((name : List ℕ) → IsModuleName name chunks → ⊥) }
{
    index_tables::reading_is_exact();
}

/// The comparison by filters and least members tells what differs.
pub fn comparison_tells_what_differs()
    ensures { (a b : List PlainChunk) (a_name b_name : List ℕ) → AreDistinct a → AreDistinct b → Compares a a_name b b_name (comparison a a_name b b_name) }
{}

/// What differs between two modules is one thing.
pub fn one_comparison()
    ensures { (a b : List PlainChunk) (a_name b_name : List ℕ) (x y : Compared) → Compares a a_name b b_name x → Compares a a_name b b_name y → x ≡ y }
{}

/// The opening from left to right gives a module exactly where the bytes are it, and refuses exactly
/// the bytes that are none.
pub fn opening_is_exact()
    ensures { IsExact module_of IsModule }
{
    iff_form::reading_is_exact();
    iff_form::payloads_are_bytes();
    code_chunk::reading_is_exact();
    func_split::splitting_is_exact();
    index_tables::reading_is_exact();
    side_tables::reading_is_exact();
}

/// Bytes are one module at most.
pub fn one_module()
    ensures { (bytes : List ℕ) (m n : ModuleValue) → IsModule m bytes → IsModule n bytes → m ≡ n }
{
    iff_form::one_form();
    code_chunk::one_code();
    func_split::one_split();
    index_tables::atoms_are_decided();
    index_tables::entries_are_decided();
    side_tables::one_literal_table();
}
