//! What every crate of beamkit stands on: buffers, texts, lists, a cursor over bytes, and counts of
//! steps.
#![tactic(auto)]

mod byte_list;
mod bytes;
mod cursor;
mod item_list;
mod memory;
mod steps;
mod tag_kind;
mod text;
mod word_list;

pub use byte_list::ByteList;
pub use bytes::Bytes;
pub use cursor::Cursor;
pub use item_list::ItemList;
pub use memory::NoMemory;
pub use steps::Steps;
pub use tag_kind::TagKind;
pub use text::{Text, TextFault};
pub use word_list::WordList;

#[cfg(test)]
mod tests;
