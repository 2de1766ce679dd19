//! The parts of a text between its separators.

ghost use Rattle.std.specs.Prelude.{◌≡◌, [], ◌∷◌, MatchOption};
ghost use Rattle.bk_parse.specs.Parts.{parts_at};

use memchr::memchr;
use std::marker::Model;

/// The parts of a text between the bytes that are its separator, from the front: one part more than
/// there are such bytes, so that a text without any is one part, and parts may be empty.
///
/// Contracts see the parts that are still to come, in order. A whole loop over them is
/// `while let Some(part) = parts.next()`.
#[derive(Debug, Drop)]
pub struct Parts<'a> {
    rest: Option<&'a [u8]>,
    separator: u8,
}

impl<'a> Model for Parts<'a> {
    ghost use Rattle.std.specs.Prelude.{ℕ, List, []};
    ghost use Rattle.std.specs.Option.{option_map_or};
    ghost use Rattle.bk_parse.specs.Parts.{parts_at};

    ghost Value = { List (List ℕ) };

    ghost view = { λ p. option_map_or (λ rest. parts_at p.separator rest.now) p.rest [] };
}

impl<'a> Parts<'a> {
    /// The parts of a text.
    pub fn new(text: &'a [u8], separator: u8) -> Parts<'a>
        ensures { result ≡ parts_at separator text.now }
    {
        Parts {
            rest: Some(text),
            separator,
        }
    }

    /// The next part. None exactly where no part is left.
    pub fn next(&mut self) -> Option<&'a [u8]>
        ensures { MatchOption result ((self.old ≡ []) × (self.new ≡ [])) (λ part. self.old ≡ part.now ∷ self.new) }
    {
        let rest = self.rest?;
        match memchr(self.separator, rest) {
            Some(at) => {
                self.rest = Some(&rest[at + 1..]);
                Some(&rest[..at])
            }
            None => {
                self.rest = None;
                Some(rest)
            }
        }
    }
}
