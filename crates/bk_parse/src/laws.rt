//! What holds of the readings: each reads back what is written, and nothing else.

ghost use Rattle.std.specs.Prelude.{◌≡◌, ℕ, ◌<◌, ◌≤◌, ◌^◌, List, length, All, decimal, FitsSigned};
ghost use Rattle.std.specs.Fmt.{signed_decimal};
ghost use Rattle.std.specs.Int.{w128};
ghost use Rattle.std.specs.List.{join_with_byte};
ghost use Rattle.hex.specs.Hex.{encode_lower};
ghost use Rattle.bk_codec.specs.Spelling.{IsBytes};
ghost use Rattle.bk_parse.specs.HexBytes.{bytes_of};
ghost use Rattle.bk_parse.specs.Inverse.{Inverts};
ghost use Rattle.bk_parse.specs.Numbers.{number_of, signed_of};
ghost use Rattle.bk_parse.specs.Parts.{Lacks, parts_at};

/// Each number below a limit is read from the text that it is written as, and each text that is read
/// is what its number is written as.
pub fn numbers_invert()
    ensures { (limit : ℕ) → limit ≤ 10 ^ 64 → Inverts (number_of limit) (λ n. n < limit) decimal }
{}

/// The same of numbers of 128 bits with their sign.
pub fn signed_numbers_invert()
    ensures { Inverts signed_of (FitsSigned w128) signed_decimal }
{}

/// The same of bytes and their hexadecimal digits.
pub fn hex_bytes_invert()
    ensures { Inverts bytes_of IsBytes encode_lower }
{}

/// The parts of texts that are joined by a separator, which none of them holds, are these texts.
pub fn parts_of_joined_texts()
    ensures { (c : ℕ) (texts : List (List ℕ)) → 0 < length texts → All (Lacks c) texts → parts_at c (join_with_byte c texts) ≡ texts }
{}

/// The parts of a text, joined by the separator, are the text.
pub fn parts_rejoin()
    ensures { (c : ℕ) (text : List ℕ) → join_with_byte c (parts_at c text) ≡ text }
{}
