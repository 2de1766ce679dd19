//! The words of a command line.

use crate::item_list::ItemList;
use crate::text::Text;

/// The words that a program was called with, in order.
pub type WordList = ItemList<Text>;
