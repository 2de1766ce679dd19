//! What holds of the spellings of operands.

ghost use Rattle.std.specs.Prelude.{◌≡◌, ℕ, ℤ, ◌+◌, ◌<◌, ◌≤◌, ◌^◌, ◌++◌, List, length};
ghost use Rattle.bk_codec.specs.Exact.{IsExactInFront, RefusalsStand, FrontsAreCut};
ghost use Rattle.compact_term.specs.declared.operand.Operand.{Operand};
ghost use Rattle.compact_term.specs.Spelling.{Spells};
ghost use Rattle.compact_term.specs.Reading.{operand_at};
ghost use Rattle.compact_term.specs.Operand.{MeetsType, IsProper};
ghost use Rattle.compact_term.specs.Canonical.{canonical, canonical_number, in_many_bytes};

use crate::refusal::OperandRefusal;

/// The reading from the left gives an operand exactly where the operand is spelled at the front, with
/// the bytes behind it, and refuses exactly where no operand is spelled there.
pub fn reading_is_exact()
    ensures { IsExactInFront operand_at Spells }
{}

/// A refusal other than `Cut` stands, whatever bytes follow.
pub fn refusals_stand()
    ensures { RefusalsStand OperandRefusal.Cut operand_at }
{}

/// A front of a spelling that ends before its end is refused as `Cut`.
pub fn fronts_are_cut()
    ensures { FrontsAreCut OperandRefusal.Cut operand_at Spells }
{}

/// No spelling of an operand begins another one, and each is of one operand.
pub fn one_form()
    ensures { (a b x y : List ℕ) (o p : Operand) → Spells o a → Spells p b → a ++ x ≡ b ++ y → (a ≡ b) × (o ≡ p) }
{}

/// The canonical spelling of an operand is one of its spellings, where the operand is proper, has its
/// numbers in the ranges of their types, and is written in less than 2^63 bytes.
pub fn canonical_is_spelled()
    ensures { (o : Operand) → MeetsType o → IsProper o → length (canonical o) < 2 ^ 63 → Spells o (canonical o) }
{}

/// No spelling of an operand is shorter than its canonical one.
pub fn canonical_is_shortest()
    ensures { (o : Operand) (bytes : List ℕ) → Spells o bytes → length (canonical o) ≤ length bytes }
{}

/// A number takes 18 bytes at most, and a wide integer 18 more than its bytes.
pub fn canonical_numbers_are_short()
    ensures number { (tag : ℕ) (z : ℤ) → length (canonical_number tag z) ≤ 18 }
    ensures integer { (w : List ℕ) → length (in_many_bytes 1 w) ≤ length w + 18 }
{}
