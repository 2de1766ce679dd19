//! The lists that stand in operands.
//!
//! They stand in an allocation of their own: few operands are lists, and places for their items would
//! make each operand of each instruction larger.

use crate::operand::Plain;
use bk_base::ItemList;

/// The members of a list operand, in order.
pub type PlainList = ItemList<Plain>;

/// The pairs of an allocation list, each a kind and an amount, in order.
pub type PairList = ItemList<(u64, u64)>;
