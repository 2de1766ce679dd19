//! Literals.

use bk_base::ItemList;
use ext_term::Term;
use std::marker::Model;

/// A literal of a table.
///
/// Contracts see its bytes without where they lie.
#[derive(Debug, Drop)]
pub struct Literal<'a> {
    /// Its bytes, without their number.
    pub bytes: &'a [u8],
    /// The term that its bytes are, or `None` where they are no term's.
    pub term: Option<Term>,
}

/// Literals in order, counted from 0, which borrow their bytes.
pub type LiteralList<'a> = ItemList<Literal<'a>>;

impl<'a> Model for Literal<'a> {
    ghost use Rattle.side_tables.specs.Literal.{PlainLiteral, literal_code};

    ghost Value = { PlainLiteral };

    ghost coded = { literal_code };

    ghost view = { λ l. record { bytes = l.bytes.now; term = l.term } };
}
