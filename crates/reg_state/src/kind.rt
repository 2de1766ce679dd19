//! What a register or a slot holds, as far as it is known.

ghost use Rattle.std.specs.Prelude.{◌≡◌};
ghost use Rattle.reg_state.specs.Kinds.{kind_below, joined_kind};
ghost use Rattle.reg_state.specs.States.{x_of};

use bk_base::ItemList;

/// What a register or a slot holds. `Context` is below `Term`, that and `Caught` are below `Loose`,
/// and all are below `Unset`.
#[derive(Clone, Copy, Debug, PartialEq, Eq)]
pub enum Kind {
    /// The context of a match, which counts as a term.
    Context,
    /// A term.
    Term,
    /// The mark that something was caught.
    Caught,
    /// A term or the mark.
    Loose,
    /// Anything, or nothing.
    Unset,
}

/// Kinds in order, of the registers from x0 on. A register past the end is `Unset`.
pub type KindList = ItemList<Kind>;

/// Whether the first kind is the second or below it.
pub(crate) fn kind_below(a: Kind, b: Kind) -> bool
    ensures { result ≡ kind_below a b }
{
    match (a, b) {
        (_, Kind::Unset) => true,
        (Kind::Unset, _) => false,
        (_, Kind::Loose) => true,
        (Kind::Context, Kind::Term) => true,
        _ => a == b,
    }
}

/// The least kind above both.
pub(crate) fn joined_kind(a: Kind, b: Kind) -> Kind
    ensures { result ≡ joined_kind a b }
{
    if kind_below(a, b) {
        b
    } else if kind_below(b, a) {
        a
    } else {
        Kind::Loose
    }
}

/// The kind of register `i`, counted from 0. A register past the end of the list is `Unset`.
pub fn kind_at(kinds: &[Kind], i: usize) -> Kind
    ensures { result ≡ x_of kinds.now i }
{
    match kinds.get(i) {
        Some(kind) => *kind,
        None => Kind::Unset,
    }
}
