//! Laws of the tables' definitions.

ghost use Rattle.std.specs.Prelude.{◌≡◌, ◌↔◌, ℕ, List, Err};
ghost use Rattle.bk_codec.specs.Spelling.{IsBytes};
ghost use Rattle.bk_codec.specs.Exact.{FrontsAreCut, IsExact, RefusalsStand};
ghost use Rattle.side_tables.specs.Words.{BeginsNonzero};
ghost use Rattle.side_tables.specs.LineReading.{lines_of};
ghost use Rattle.side_tables.specs.LineRefusal.{BeginsFarSwitch, BeginsNoItem, LinesGoOn, LinesStopAt};
ghost use Rattle.side_tables.specs.LineSpelling.{SpellsLines};
ghost use Rattle.side_tables.specs.LiteralReading.{literals_of};
ghost use Rattle.side_tables.specs.LiteralSpelling.{SpellsLiterals, SpellsPlain};
ghost use Rattle.side_tables.specs.declared.lines.Lines.{Lines};
ghost use Rattle.side_tables.specs.declared.literals.Literals.{Literals};

use crate::refusal::SideRefusal;

/// The readings accept exactly the payloads that are spelled, each as its table, and refuse exactly the
/// others.
pub fn reading_is_exact()
    ensures lines { IsExact lines_of SpellsLines }
    ensures literals { IsExact literals_of SpellsLiterals }
{}

/// A refusal other than `Cut` stands, whatever bytes follow.
pub fn refusals_stand()
    ensures lines { RefusalsStand SideRefusal.Cut lines_of }
    ensures literals { RefusalsStand SideRefusal.Cut literals_of }
{}

/// A front of a table of lines, or of one of literals that isn't packed, is refused as `Cut` where it
/// ends before the table's end.
pub fn fronts_are_cut()
    ensures lines { FrontsAreCut SideRefusal.Cut lines_of SpellsLines }
    ensures literals { FrontsAreCut SideRefusal.Cut literals_of SpellsPlain }
{}

/// Why a payload is refused as a table of lines, where it isn't cut. `Version`: its first word is there
/// and isn't 0. `ItemTag` and `FileIndex`: behind the words and the items before stands what begins no
/// item, or a switch to a file above the number of file names, while lines are missing. `Rest`: bytes
/// stand behind a whole table.
pub fn lines_are_refused()
    ensures version { (bytes : List ℕ) → IsBytes bytes → (lines_of bytes ≡ Err SideRefusal.Version) ↔ BeginsNonzero bytes }
    ensures item_tag { (bytes : List ℕ) (item : ℕ) → IsBytes bytes → (lines_of bytes ≡ Err (SideRefusal.ItemTag item)) ↔ LinesStopAt (λ files. BeginsNoItem) item bytes }
    ensures file_index { (bytes : List ℕ) (item : ℕ) → IsBytes bytes → (lines_of bytes ≡ Err (SideRefusal.FileIndex item)) ↔ LinesStopAt BeginsFarSwitch item bytes }
    ensures rest { (bytes : List ℕ) → IsBytes bytes → (lines_of bytes ≡ Err SideRefusal.Rest) ↔ LinesGoOn bytes }
{}

/// A payload is the spelling of at most one table of lines.
pub fn one_table()
    ensures { (bytes : List ℕ) (l m : Lines) → SpellsLines l bytes → SpellsLines m bytes → l ≡ m }
{}

/// A payload is the spelling of at most one table of literals.
pub fn one_literal_table()
    ensures { (bytes : List ℕ) (l m : Literals) → SpellsLiterals l bytes → SpellsLiterals m bytes → l ≡ m }
{}
