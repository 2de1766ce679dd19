//! The form that a BEAM file is: its chunks, read from bytes that they borrow, and written.
#![tactic(auto)]

mod chunk;
mod chunk_list;
mod form;
mod id;
mod id_text;
mod info;
mod laws;
mod reading;
mod refusal;
mod writing;

pub use chunk::{Chunk, chunk_len};
pub use chunk_list::{ChunkList, OwnedChunk};
pub use form::Form;
pub use id::Id;
pub use id_text::IdText;
pub use info::info_text;
pub use laws::{
    a_form_has_its_size, canonical_has_its_size, canonical_is_a_form, chunks_meet_their_type,
    one_form, payloads_are_bytes, reading_is_exact,
};
pub use reading::read_form;
pub use refusal::FormRefusal;
pub use writing::{put_chunk, put_head, write_form};

#[cfg(test)]
mod tests;
