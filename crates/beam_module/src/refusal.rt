//! Why bytes are no file, or no module.

ghost use Rattle.std.specs.Prelude.{◌≡◌};
ghost use Rattle.beam_module.specs.declared.refusal.ModuleRefusal.TheVariants as refusals;

use bk_base::NoMemory;
use code_chunk::CodeRefusal;
use func_split::{FunctionWhy, SplitRefusal};
use iff_form::{FormRefusal, Id};
use index_tables::TableRefusal;
use side_tables::SideRefusal;
use std::alloc::AllocFailed;
use thiserror::Error;

/// Why the payload of a chunk is not its table.
#[derive(Clone, Copy, Debug, PartialEq, Eq, Error)]
pub enum TableWhy {
    /// It is no table of names.
    #[error("{0}")]
    Index(TableRefusal),
    /// It is no table of literals or lines.
    #[error("{0}")]
    Side(SideRefusal),
}

/// Why bytes are no file, or no module. A refusal that is carried here is never one for want of memory.
#[derive(Clone, Copy, Debug, PartialEq, Eq, Error)]
pub enum ModuleRefusal {
    /// The bytes are no form.
    #[error("{0}")]
    Form(FormRefusal),
    /// The form has no chunk with this id, or the chunk lacks the atom that it has to have.
    #[error("no chunk {id:?}")]
    Missing { id: Id },
    /// The payload of the chunk with this id is not its table.
    #[error("{id:?}: {why}")]
    Table { id: Id, why: TableWhy },
    /// The payload of the chunk `Code` is no code.
    #[error("Code: {0}")]
    Code(CodeRefusal),
    /// The code is not functions: this is wrong at the instruction with this number, counted from 0.
    #[error("Code: {why} at instruction {at}")]
    Functions { at: usize, why: FunctionWhy },
    /// Memory ran out.
    #[error("out of memory")]
    NoMemory,
}

impl From<NoMemory> for ModuleRefusal {
    ghost from_gives = { λ _ e. e ≡ refusals.NoMemory };

    fn from(_e: NoMemory) -> ModuleRefusal {
        ModuleRefusal::NoMemory
    }
}

impl From<SplitRefusal> for ModuleRefusal {
    ghost use Rattle.beam_module.specs.Opening.{split_refusal};

    ghost from_gives = { λ d e. e ≡ split_refusal d };

    fn from(e: SplitRefusal) -> ModuleRefusal {
        match e {
            SplitRefusal::Functions { at, why } => ModuleRefusal::Functions { at, why },
            SplitRefusal::NoMemory => ModuleRefusal::NoMemory,
        }
    }
}

impl<T: Drop> From<AllocFailed<T>> for ModuleRefusal {
    ghost from_gives = { λ _ e. e ≡ refusals.NoMemory };

    fn from(_e: AllocFailed<T>) -> ModuleRefusal {
        ModuleRefusal::NoMemory
    }
}
