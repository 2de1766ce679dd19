//! The value of a chunk.

use bk_base::ByteList;
use code_chunk::CodeVal;

/// What a chunk holds.
#[derive(Debug, Drop)]
pub enum ChunkVal {
    /// The code, in the chunk `Code` alone.
    Code(CodeVal),
    /// The payload of every other chunk, as it is.
    Raw(ByteList),
}
