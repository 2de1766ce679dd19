//! Laws of the tables' definitions.

ghost use Rattle.std.specs.Prelude.{◌≡◌, ℕ, List, All, IsUtf8, Ok};
ghost use Rattle.bk_codec.specs.Exact.{IsExact};
ghost use Rattle.bk_codec.specs.Refusal.{IsDecided};
ghost use Rattle.index_tables.specs.declared.entry.Import.{Import};
ghost use Rattle.index_tables.specs.declared.entry.Export.{Export};
ghost use Rattle.index_tables.specs.declared.entry.Fun.{Fun};
ghost use Rattle.index_tables.specs.Atoms.{FitsAtoms, SpellsAtoms};
ghost use Rattle.index_tables.specs.Canonical.{canonical_atoms, canonical_exports, canonical_funs, canonical_imports};
ghost use Rattle.index_tables.specs.Entries.{FitsWords, NamesAtoms, SpellsImports, SpellsExports, SpellsFuns, import_words, import_atoms, export_words, export_atoms, fun_words, fun_atoms};
ghost use Rattle.index_tables.specs.Reading.{all_atoms, all_entries};
ghost use Rattle.index_tables.specs.Shape.{import_shape, export_shape, fun_shape};
ghost use Rattle.index_tables.specs.Refusal.{RefusesAtoms, RefusesImports, RefusesExports, RefusesFuns};

/// The readings accept exactly the payloads that are tables, each as its list, and refuse exactly the
/// others. Those of entries do so over any atoms.
pub fn reading_is_exact()
    ensures atoms { IsExact all_atoms SpellsAtoms }
    ensures imports { (names : List (List ℕ)) → IsExact (all_entries import_shape names) (SpellsImports names) }
    ensures exports { (names : List (List ℕ)) → IsExact (all_entries export_shape names) (SpellsExports names) }
    ensures funs { (names : List (List ℕ)) → IsExact (all_entries fun_shape names) (SpellsFuns names) }
{}

/// Every payload is the table of just one list of atoms, or it is refused for just one reason.
pub fn atoms_are_decided()
    ensures { IsDecided SpellsAtoms RefusesAtoms }
{}

/// Over any atoms, every payload is the table of just one list of entries, or it is refused for just
/// one reason.
pub fn entries_are_decided()
    ensures imports { (names : List (List ℕ)) → IsDecided (SpellsImports names) (RefusesImports names) }
    ensures exports { (names : List (List ℕ)) → IsDecided (SpellsExports names) (RefusesExports names) }
    ensures funs { (names : List (List ℕ)) → IsDecided (SpellsFuns names) (RefusesFuns names) }
{}

/// What is written of a table spells it, where its counts and numbers fit their fields, each name is
/// UTF-8 and each atom number is that of an atom.
pub fn written_tables_are_spelled()
    ensures atoms { (names : List (List ℕ)) → All IsUtf8 names → FitsAtoms names → SpellsAtoms names (canonical_atoms names) }
    ensures imports { (names : List (List ℕ)) (xs : List Import) → FitsWords import_words xs → NamesAtoms import_atoms names xs → SpellsImports names xs (canonical_imports xs) }
    ensures exports { (names : List (List ℕ)) (xs : List Export) → FitsWords export_words xs → NamesAtoms export_atoms names xs → SpellsExports names xs (canonical_exports xs) }
    ensures funs { (names : List (List ℕ)) (xs : List Fun) → FitsWords fun_words xs → NamesAtoms fun_atoms names xs → SpellsFuns names xs (canonical_funs xs) }
{}

/// What is written of such a table is read back as it.
pub fn written_tables_are_read_back()
    ensures atoms { (names : List (List ℕ)) → All IsUtf8 names → FitsAtoms names → all_atoms (canonical_atoms names) ≡ Ok names }
    ensures imports { (names : List (List ℕ)) (xs : List Import) → FitsWords import_words xs → NamesAtoms import_atoms names xs → all_entries import_shape names (canonical_imports xs) ≡ Ok xs }
    ensures exports { (names : List (List ℕ)) (xs : List Export) → FitsWords export_words xs → NamesAtoms export_atoms names xs → all_entries export_shape names (canonical_exports xs) ≡ Ok xs }
    ensures funs { (names : List (List ℕ)) (xs : List Fun) → FitsWords fun_words xs → NamesAtoms fun_atoms names xs → all_entries fun_shape names (canonical_funs xs) ≡ Ok xs }
{}

/// Each payload of a table is what is written of that table.
pub fn a_table_has_one_payload()
    ensures atoms { (names : List (List ℕ)) (payload : List ℕ) → SpellsAtoms names payload → payload ≡ canonical_atoms names }
    ensures imports { (names : List (List ℕ)) (xs : List Import) (payload : List ℕ) → SpellsImports names xs payload → payload ≡ canonical_imports xs }
    ensures exports { (names : List (List ℕ)) (xs : List Export) (payload : List ℕ) → SpellsExports names xs payload → payload ≡ canonical_exports xs }
    ensures funs { (names : List (List ℕ)) (xs : List Fun) (payload : List ℕ) → SpellsFuns names xs payload → payload ≡ canonical_funs xs }
{}
