//! What holds of listings and of how they are read.

ghost use Rattle.std.specs.Prelude.{◌≡◌, ◌↔◌, ℕ, List, Ok, Err};
ghost use Rattle.beam_module.specs.File.{FileChunk};
ghost use Rattle.listing_out.specs.Lines.{lines};
ghost use Rattle.listing_out.specs.Listable.{IsListable};
ghost use Rattle.listing_out.specs.Listing.{IsListing};
ghost use Rattle.listing_in.specs.declared.refusal.ListingRefusal.{ListingRefusal};
ghost use Rattle.listing_in.specs.Reading.{listing_value};
ghost use Rattle.listing_in.specs.Wrong.{IsRefused, StopsAt};

/// The reading from line to line gives a file exactly where the text is a listing of it, and refuses
/// every other text at the first line at which no listing goes on as the text does.
pub fn reading_is_exact()
    ensures accepted { (text : List ℕ) (v : List FileChunk) → (listing_value text ≡ Ok v) ↔ (IsListable v × IsListing v text) }
    ensures refused { (text : List ℕ) (e : ListingRefusal) → listing_value text ≡ Err e → IsRefused e text }
{
    bk_parse::hex_bytes_invert();
    bk_parse::numbers_invert();
    op_table::names_find_their_rows();
    op_table::rows_have_their_numbers();
    op_table::names_are_words();
    operand_text::operands_invert();
    operand_text::operand_texts_are_words();
    listing_out::payload_lines_grow();
}

/// Two files with the same lines are one.
pub fn one_listed_file()
    ensures { (v w : List FileChunk) → IsListable v → IsListable w → lines v ≡ lines w → v ≡ w }
{
    bk_parse::hex_bytes_invert();
    bk_parse::numbers_invert();
    op_table::names_find_their_rows();
    op_table::rows_have_their_numbers();
    op_table::names_are_words();
    operand_text::operands_invert();
    operand_text::operand_texts_are_words();
    listing_out::payload_lines_grow();
}

/// A text stops being a listing at one line at most, and at none where it is one.
pub fn one_stop()
    ensures one { (n m : ℕ) (text : List ℕ) → StopsAt n text → StopsAt m text → n ≡ m }
    ensures none { (n : ℕ) (text : List ℕ) (v : List FileChunk) → StopsAt n text → IsListable v → IsListing v text → ⊥ }
{}
