//! The table of lines.

use bk_base::{ByteList, ItemList};

/// Places in source files, each the number of its file and its line. File 0 is the module's own, and
/// the others are those of the file names, counted from 1.
pub type PlaceList = ItemList<(u32, i128)>;

/// Names of files, as their bytes.
pub type BytesList = ItemList<ByteList>;

/// What the instructions of a module say of source lines.
#[derive(Debug, Drop)]
pub struct Lines {
    /// Flags, which are kept as they are.
    pub flags: u32,
    /// How many line instructions the code has, as the table states it.
    pub instructions: u32,
    /// The place of each line, counted from 1: the number of its file and the line in it.
    pub lines: PlaceList,
    /// The names of the files, counted from 1.
    pub files: BytesList,
}
