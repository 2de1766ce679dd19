//! What holds of the spellings of terms.

ghost use Rattle.std.specs.Prelude.{◌≡◌, ◌↔◌, ℕ, ◌≤◌, ◌++◌, List, length, Err};
ghost use Rattle.bk_codec.specs.Spelling.{IsBytes};
ghost use Rattle.bk_codec.specs.Exact.{FrontsAreCut, IsExact, RefusalsStand};
ghost use Rattle.ext_term.specs.declared.term.Term.{Term};
ghost use Rattle.ext_term.specs.Spelling.{SpellsTermFile};
ghost use Rattle.ext_term.specs.Reading.{term_of};
ghost use Rattle.ext_term.specs.Writing.{IsWritable, MeetsType, file_spelling};

use crate::refusal::TermRefusal;

/// The reading from the left accepts exactly the files of a term, each with its term, and refuses all
/// other bytes.
pub fn reading_is_exact()
    ensures { IsExact term_of SpellsTermFile }
{}

/// A refusal other than `Cut` stands, whatever bytes follow: each offset counts from the first byte, and
/// so does that of the first byte behind a term.
pub fn refusals_stand()
    ensures { RefusalsStand TermRefusal.Cut term_of }
{}

/// A front of a term's file that ends before its end is refused as `Cut`.
pub fn fronts_are_cut()
    ensures { FrontsAreCut TermRefusal.Cut term_of SpellsTermFile }
{}

/// Bytes behind a whole file of a term are refused where that ends.
pub fn bytes_behind_are_refused()
    ensures { (t : Term) (bytes more : List ℕ) → SpellsTermFile t bytes → 1 ≤ length more → term_of (bytes ++ more) ≡ Err (TermRefusal.Rest (length bytes)) }
{}

/// No spelling of a term begins another one, and each is of one term.
pub fn one_term()
    ensures { (a b x y : List ℕ) (t u : Term) → SpellsTermFile t a → SpellsTermFile u b → a ++ x ≡ b ++ y → (a ≡ b) × (t ≡ u) }
{}

/// A term can be written exactly where what is written of it is one of its spellings.
pub fn canonical()
    ensures { (t : Term) → MeetsType t → IsWritable 256 t ↔ SpellsTermFile t (file_spelling t) }
{}

/// A term that bytes spell meets its type, as every term does that a program holds.
pub fn spelled_terms_meet_their_type()
    ensures { (t : Term) (bytes : List ℕ) → IsBytes bytes → SpellsTermFile t bytes → MeetsType t }
{}
