//! What the commands print, by the grammars alone: the output of a command for the bytes of its files
//! is a text exactly where these are in the grammar that the command needs, and is that text.

ghost use Rattle.std.specs.Prelude.{◌≡◌, ℕ, List, Ok, false};
ghost use Rattle.bk_codec.specs.Exact.{IsExact};
ghost use Rattle.bk_codec.specs.Spelling.{IsBytes};
ghost use Rattle.beam_module.specs.Canonical.{canonical_file};
ghost use Rattle.beam_module.specs.File.{FileChunk, IsFile};
ghost use Rattle.listing_out.specs.Comments.{commented_listing};
ghost use Rattle.listing_out.specs.Listable.{IsListable};
ghost use Rattle.listing_out.specs.Listing.{IsListing};
ghost use Rattle.beam_cli.specs.declared.shown.Shown.{Shown};
ghost use Rattle.beam_cli.specs.Accepting.{IsSafe};
ghost use Rattle.beam_cli.specs.Answer.{asm_output, canon_output, disasm_output, info_output, strip_output};
ghost use Rattle.beam_cli.specs.Comparing.{cmp_output};
ghost use Rattle.beam_cli.specs.Made.{Made};
ghost use Rattle.beam_cli.specs.Showing.{show_output};
ghost use Rattle.beam_cli.specs.Printing.{HasNamedForm, IsExactOnTwo, PrintsAssembled, PrintsCanonical, PrintsDifference, PrintsInfo, PrintsListing, PrintsReport, PrintsStripped, PrintsTable};
ghost use Rattle.beam_cli.specs.Validating.{validate_output};

/// `info` prints the ids and sizes of a form, and refuses every file that is none.
pub fn info_is_exact()
    ensures { IsExact info_output PrintsInfo }
{
    iff_form::reading_is_exact();
}

/// `show` prints one table of a form, and refuses every file that is no form, lacks a chunk that is
/// needed, or has a payload that is not its table.
pub fn show_is_exact()
    ensures { (what : Shown) → IsExact (show_output what) (PrintsTable what) }
{
    iff_form::reading_is_exact();
    iff_form::payloads_are_bytes();
    index_tables::reading_is_exact();
    side_tables::reading_is_exact();
    ext_term::reading_is_exact();
}

/// `disasm` prints the listing of a file's value, and refuses every file that has none.
pub fn disasm_is_exact()
    ensures { IsExact disasm_output PrintsListing }
{
    beam_module::reading_is_exact();
}

/// `asm` prints the canonical file of the value that a text lists, and refuses every text that is no
/// listing.
pub fn asm_is_exact()
    ensures { IsExact asm_output PrintsAssembled }
{
    listing_in::reading_is_exact();
}

/// What `disasm` prints of a file is a listing of its value, and of each listing of a value `asm` makes
/// its canonical file.
pub fn listings_are_assembled()
    ensures asm { (text : List ℕ) (v : List FileChunk) → IsListable v → IsListing v text → asm_output text ≡ Ok (canonical_file v) }
    ensures output { (bytes : List ℕ) (v : List FileChunk) → IsBytes bytes → IsFile v bytes → disasm_output bytes ≡ Ok (commented_listing v) }
    ensures listable { (bytes : List ℕ) (v : List FileChunk) → IsBytes bytes → IsFile v bytes → IsListable v }
    ensures listing { (bytes : List ℕ) (v : List FileChunk) → IsBytes bytes → IsFile v bytes → IsListing v (commented_listing v) }
{
    listing_in::reading_is_exact();
    beam_module::reading_is_exact();
    listing_out::a_file_is_listable();
    listing_out::listing_is_of_its_file();
}

/// `strip` prints the stripped file of a form, and refuses every file that is none.
pub fn strip_is_exact()
    ensures { IsExact strip_output PrintsStripped }
{
    iff_form::reading_is_exact();
}

/// `canon` prints the canonical file of a file's value, and refuses every file that has none.
pub fn canon_is_exact()
    ensures { IsExact canon_output PrintsCanonical }
{
    beam_module::reading_is_exact();
}

/// `cmp` prints what differs between the modules of two files, and refuses the first file that is no
/// form or has no module name.
pub fn cmp_is_exact()
    ensures { IsExactOnTwo cmp_output HasNamedForm PrintsDifference }
{
    iff_form::reading_is_exact();
    iff_form::payloads_are_bytes();
    beam_module::names_are_exact();
    beam_module::comparison_tells_what_differs();
    beam_module::one_comparison();
}

/// `validate` prints the report of a module, and refuses every file that is none.
pub fn validate_is_exact()
    ensures { IsExact validate_output PrintsReport }
{
    beam_module::opening_is_exact();
    flow_rules::one_report();
    flow_rules::modules_have_reports();
}

/// A file that `validate` finds nothing wrong with is a module, no run of which is ever stuck.
pub fn accepted_files_are_safe()
    ensures { (bytes : List ℕ) (made : Made) → IsBytes bytes → validate_output bytes ≡ Ok made → made.found ≡ false → IsSafe bytes }
{
    beam_module::opening_is_exact();
    flow_rules::modules_have_reports();
    flow_rules::accepted_modules_never_get_stuck();
}
