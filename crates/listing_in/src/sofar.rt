//! What was read of a listing up to a line.

ghost use Rattle.std.specs.Prelude.{◌≡◌, IfOk};
ghost use Rattle.listing_in.specs.Held.{state_of};
ghost use Rattle.listing_in.specs.Open.{coding, filling};
ghost use Rattle.listing_in.specs.State.{chunks_of};

use crate::closed::Closed;
use beam_module::ChunkVal;
use bk_base::{ByteList, Bytes, NoMemory};
use code_chunk::CodeVal;
use iff_form::Id;
use std::alloc::Global;
use std::marker::Model;

/// The id of the chunk that holds the code.
pub(crate) const CODE: Id = Id(*b"Code");

/// What was read of a listing up to a line: a file, whose last chunk may go on.
#[derive(Drop)]
pub(crate) enum Sofar {
    /// Nothing, before the first line.
    Start,
    /// The first line.
    Begun,
    /// A payload that may go on.
    Filling(Filling),
    /// Code that may go on.
    Coding(Coding),
}

/// A payload that may go on, behind whole chunks.
#[derive(Drop)]
pub(crate) struct Filling {
    pub(crate) closed: Closed,
    pub(crate) id: Id,
    pub(crate) payload: Bytes,
}

impl Model for Filling {
    ghost use Rattle.std.specs.Prelude.{◌≡◌};
    ghost use Rattle.beam_module.specs.File.{IsNew, code_id};
    ghost use Rattle.listing_in.specs.Open.{OpenPayload};

    ghost Value = { OpenPayload };

    ghost view = { λ f. record { closed = f.closed; id = f.id; payload = f.payload.items } };

    ghost invariant = { λ f. IsNew f.id f.closed × (f.id ≡ code_id → ⊥) };
}

/// Code that may go on, behind whole chunks.
#[derive(Drop)]
pub(crate) struct Coding {
    pub(crate) closed: Closed,
    pub(crate) code: CodeVal,
}

impl Model for Coding {
    ghost use Rattle.beam_module.specs.File.{IsNew, code_id};
    ghost use Rattle.listing_in.specs.Open.{OpenCode};

    ghost Value = { OpenCode };

    ghost view = { λ c. record { closed = c.closed; code = c.code } };

    ghost invariant = { λ c. IsNew code_id c.closed };
}

impl Filling {
    // The chunks, when the payload is whole.
    fn close(self) -> Result<Closed, NoMemory>
        ensures { IfOk result (λ closed. closed ≡ chunks_of (filling self)) }
    {
        let Filling {
            closed,
            id,
            payload,
        } = self;
        closed.with(id, ChunkVal::Raw(ByteList::from(payload)))
    }
}

impl Coding {
    // The chunks, when the code is whole.
    fn close(self) -> Result<Closed, NoMemory>
        ensures { IfOk result (λ closed. closed ≡ chunks_of (coding self)) }
    {
        let Coding { closed, code } = self;
        closed.with(CODE, ChunkVal::Code(code))
    }
}

impl Sofar {
    /// The chunks, when the last is whole.
    pub(crate) fn close(self, alloc: Global) -> Result<Closed, NoMemory>
        ensures { IfOk result (λ closed. closed ≡ chunks_of (state_of self)) }
    {
        match self {
            Sofar::Start | Sofar::Begun => Ok(Closed::new(alloc)),
            Sofar::Filling(last) => last.close(),
            Sofar::Coding(last) => last.close(),
        }
    }
}
