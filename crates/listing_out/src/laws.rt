//! What holds of listings.

ghost use Rattle.std.specs.Prelude.{◌≡◌, ℕ, ◌+◌, ◌*◌, ◌^◌, ◌<◌, ◌≤◌, min, List, [], ◌∷◌, ◌++◌, length, codes};
ghost use Rattle.bk_codec.specs.Spelling.{IsBytes};
ghost use Rattle.hex.specs.Hex.{encode_lower};
ghost use Rattle.iff_form.specs.Form.{form_size};
ghost use Rattle.beam_module.specs.Canonical.{IsWritable, canonical_chunks};
ghost use Rattle.beam_module.specs.File.{FileChunk, IsFile};
ghost use Rattle.listing_out.specs.Comments.{commented_listing};
ghost use Rattle.listing_out.specs.Lines.{payload_lines};
ghost use Rattle.listing_out.specs.Listable.{IsListable};
ghost use Rattle.listing_out.specs.Listing.{IsListing};

/// The lines of a payload are the line of its first 32 bytes, or of all where they are fewer, and then
/// those of the bytes behind them.
pub fn payload_lines_grow()
    ensures { (all row rest : List ℕ) → all ≡ row ++ rest → length row ≡ min 32 (length all) → 0 < length all
        → payload_lines all ≡ (codes "  " ++ encode_lower row) ∷ payload_lines rest }
{}

/// The lines of each file can be read back.
pub fn a_file_is_listable()
    ensures { (v : List FileChunk) (bytes : List ℕ) → IsBytes bytes → IsFile v bytes → IsListable v }
{
    beam_module::a_file_meets_its_type();
}

/// The listing that is written of a file, with its comments, is a listing of it.
pub fn listing_is_of_its_file()
    ensures { (v : List FileChunk) (bytes : List ℕ) → IsBytes bytes → IsFile v bytes → IsListing v (commented_listing v) }
{
    op_table::names_are_words();
    operand_text::operand_texts_are_words();
    a_file_is_listable();
}

/// The size word of a file's canonical form is at most 18 times the length of a listing of it, and 18
/// more. So a file that has a listing of up to 2^24 bytes has a canonical file.
pub fn a_listing_bounds_its_file()
    ensures size { (v : List FileChunk) (text : List ℕ) → IsListing v text → form_size (canonical_chunks v) ≤ 18 * (length text + 1) }
    ensures writable { (v : List FileChunk) (text : List ℕ) → IsListable v → IsListing v text → length text ≤ 2 ^ 24 → IsWritable v }
{
    operand_text::canonical_is_near_its_text();
}
