//! Why a text is no listing.

use bk_base::NoMemory;
use iff_form::Id;
use thiserror::Error;

/// What is wrong with a line at which a text stops being a listing.
#[derive(Clone, Copy, Debug, PartialEq, Eq, Error)]
pub enum ListingWhy {
    /// The first line is not `beam 1`, or there is none.
    #[error("head")]
    Head,
    /// The line begins neither a chunk nor code, or stands in none.
    #[error("keyword")]
    Keyword,
    /// No id stands there, or that of the code.
    #[error("id")]
    Id,
    /// The numbers of the code, or its extra bytes, are no such numbers and bytes.
    #[error("number")]
    Number,
    /// The bytes of a payload are not 1 to 32 pairs of digits in lower case.
    #[error("hex")]
    Hex,
    /// A line of fewer than 32 bytes stands before it.
    #[error("short")]
    Short,
    /// No opcode has this name.
    #[error("op")]
    Op,
    /// The operands are not as many as the opcode has, or one is none.
    #[error("operands")]
    Operands,
}

/// Why a text is no listing: the first line at which no listing goes on as the text does.
#[derive(Clone, Copy, Debug, PartialEq, Eq, Error)]
pub enum ListingRefusal {
    /// The line with this number, counted from 1 with all lines, is none that stands there.
    #[error("line {number}: {why}")]
    Line { number: usize, why: ListingWhy },
    /// A chunk with this id stands before this line, which begins another.
    #[error("line {line}: chunk {id:?} twice")]
    Twice { line: usize, id: Id },
    /// Memory ran out.
    #[error("out of memory")]
    NoMemory,
}

impl From<NoMemory> for ListingRefusal {
    ghost use Rattle.std.specs.Prelude.{◌≡◌};
    ghost use Rattle.listing_in.specs.declared.refusal.ListingRefusal.TheVariants as refusals;

    ghost from_gives = { λ _ e. e ≡ refusals.NoMemory };

    fn from(_e: NoMemory) -> ListingRefusal {
        ListingRefusal::NoMemory
    }
}
