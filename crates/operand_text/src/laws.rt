//! What holds of the texts of operands.

ghost use Rattle.std.specs.Prelude.{◌≡◌, ◌<◌, ◌≤◌, ◌*◌, true, length};
ghost use Rattle.std.specs.List.{list_all};
ghost use Rattle.bk_parse.specs.Inverse.{Inverts};
ghost use Rattle.compact_term.specs.declared.operand.Operand.{Operand};
ghost use Rattle.compact_term.specs.Canonical.{canonical};
ghost use Rattle.operand_text.specs.Listed.{IsListed};
ghost use Rattle.operand_text.specs.Operand.{operand_text};
ghost use Rattle.operand_text.specs.Reading.{operand_of};
ghost use Rattle.operand_text.specs.Words.{is_word_byte};

/// Each operand whose numbers are in their ranges, with wide integers of 17 bytes or more, is read
/// from the text that it is written as, and each text that is read is what its operand is written as.
pub fn operands_invert()
    ensures { Inverts operand_of IsListed operand_text }
{}

/// The text of such an operand is a word: it has bytes, all printable, and none of them a space or a
/// semicolon.
pub fn operand_texts_are_words()
    ensures bytes { (o : Operand) → IsListed o → list_all is_word_byte (operand_text o) ≡ true }
    ensures some { (o : Operand) → IsListed o → 0 < length (operand_text o) }
{}

/// The canonical spelling of an operand takes at most 18 bytes for each byte of its text.
pub fn canonical_is_near_its_text()
    ensures { (o : Operand) → length (canonical o) ≤ 18 * length (operand_text o) }
{
    compact_term::canonical_numbers_are_short();
}
