//! What is wrong with a line.

ghost use Rattle.std.specs.Prelude.{◌≡◌};
ghost use Rattle.listing_in.specs.Held.{stop_for};
ghost use Rattle.listing_in.specs.Reading.{numbered};

use crate::refusal::{ListingRefusal, ListingWhy};
use bk_base::NoMemory;
use bk_parse::TextRefusal;
use iff_form::Id;

/// What is wrong with a line, whose number is not said yet.
#[derive(Clone, Copy, Debug)]
pub(crate) enum LineStop {
    /// It is none that stands there.
    Wrong(ListingWhy),
    /// It begins another chunk with this id.
    Twice(Id),
    /// Memory ran out.
    NoMemory,
}

impl LineStop {
    /// The refusal of the line with this number.
    pub(crate) fn at(self, line: usize) -> ListingRefusal
        ensures { result ≡ numbered line self }
    {
        match self {
            LineStop::Wrong(why) => ListingRefusal::Line { number: line, why },
            LineStop::Twice(id) => ListingRefusal::Twice { line, id },
            LineStop::NoMemory => ListingRefusal::NoMemory,
        }
    }
}

/// The stop at a line with a text that is not read, which is wrong for this reason.
pub(crate) fn stop_for(why: ListingWhy, refusal: TextRefusal) -> LineStop
    ensures { result ≡ stop_for why refusal }
{
    match refusal {
        TextRefusal::Wrong => LineStop::Wrong(why),
        TextRefusal::NoMemory => LineStop::NoMemory,
    }
}

impl From<NoMemory> for LineStop {
    ghost use Rattle.std.specs.Prelude.{◌≡◌};
    ghost use Rattle.listing_in.specs.declared.stop.LineStop.TheVariants as stops;

    ghost from_gives = { λ _ e. e ≡ stops.NoMemory };

    fn from(_e: NoMemory) -> LineStop {
        LineStop::NoMemory
    }
}
