//! Laws over the definitions of forms.

ghost use Rattle.std.specs.Prelude.{◌≡◌, ◌↔◌, ◌+◌, ◌^◌, ◌<◌, ◌++◌, ℕ, List, length, Err};
ghost use Rattle.std.specs.List.{AllByRecursion};
ghost use Rattle.bk_codec.specs.Spelling.{IsBytes};
ghost use Rattle.bk_codec.specs.Exact.{IsExact};
ghost use Rattle.iff_form.specs.declared.refusal.FormRefusal.{FormRefusal};
ghost use Rattle.iff_form.specs.Chunk.{PlainChunk};
ghost use Rattle.iff_form.specs.Canonical.{canonical_form, ChunkMeetsType};
ghost use Rattle.iff_form.specs.Form.{AreDistinct, IsForm, form_size};
ghost use Rattle.iff_form.specs.Reading.{form_of};
ghost use Rattle.iff_form.specs.Refusal.{Refuses};

/// The reading from left to right accepts exactly the forms, each with its chunks, and refuses all
/// other bytes exactly for their reason.
pub fn reading_is_exact()
    ensures exact { IsExact form_of IsForm }
    ensures refused { (bytes : List ℕ) (e : FormRefusal) → IsBytes bytes → (form_of bytes ≡ Err e) ↔ Refuses e bytes }
{}

/// No form begins another form, and each is a form of one list of chunks.
pub fn one_form()
    ensures { (a b x y : List ℕ) (chunks others : List PlainChunk) → IsForm chunks a → IsForm others b → a ++ x ≡ b ++ y → (a ≡ b) × (chunks ≡ others) }
{}

/// The payloads in a form of bytes are bytes.
pub fn payloads_are_bytes()
    ensures { (chunks : List PlainChunk) (bytes : List ℕ) → IsForm chunks bytes → IsBytes bytes → AllByRecursion (λ c. IsBytes c.payload) chunks }
{}

/// The chunks of a form of bytes have ids of four bytes, and payloads of bytes.
pub fn chunks_meet_their_type()
    ensures { (chunks : List PlainChunk) (bytes : List ℕ) → IsForm chunks bytes → IsBytes bytes → AllByRecursion ChunkMeetsType chunks }
{}

/// The length of a form is what its chunks make of it, and its size word is a word.
pub fn a_form_has_its_size()
    ensures long { (chunks : List PlainChunk) (bytes : List ℕ) → IsForm chunks bytes → length bytes ≡ 8 + form_size chunks }
    ensures fits { (chunks : List PlainChunk) (bytes : List ℕ) → IsForm chunks bytes → form_size chunks < 2 ^ 32 }
{}

/// The canonical spelling of chunks that have a form is a form of them.
pub fn canonical_is_a_form()
    ensures { (chunks : List PlainChunk) → AllByRecursion ChunkMeetsType chunks → AreDistinct chunks → form_size chunks < 2 ^ 32 → IsForm chunks (canonical_form chunks) }
{}

/// The canonical spelling of chunks is as long as its size word says, and so as long as each form of
/// them.
pub fn canonical_has_its_size()
    ensures { (chunks : List PlainChunk) → AllByRecursion ChunkMeetsType chunks → length (canonical_form chunks) ≡ 8 + form_size chunks }
{}
