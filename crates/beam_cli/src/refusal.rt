//! Why a file is not what a command needs.

ghost use Rattle.std.specs.Prelude.{◌≡◌};
ghost use Rattle.beam_cli.specs.declared.refusal.Refusal.TheVariants as refusals;

use beam_module::{FunctionWhy, ModuleRefusal, TableWhy};
use bk_base::NoMemory;
use code_chunk::CodeRefusal;
use compact_term::OperandRefusal;
use ext_term::TermRefusal;
use iff_form::{FormRefusal, Id};
use index_tables::TableRefusal;
use listing_in::ListingRefusal;
use side_tables::SideRefusal;

/// Why a file is not in the grammar that a command needs, or that memory ran out. A refusal that is
/// carried here is never one for want of memory.
#[derive(Clone, Copy, Debug, PartialEq, Eq)]
pub enum Refusal {
    /// The file is no form.
    Form(FormRefusal),
    /// The form has no chunk with this id.
    Missing(Id),
    /// The payload of the chunk with this id is not its table.
    Table(Id, TableRefusal),
    /// The payload of the chunk with this id is not its literals or lines.
    Side(Id, SideRefusal),
    /// The payload of the chunk with this id is no term.
    Term(Id, TermRefusal),
    /// The payload of the chunk `Code` is no code.
    Code(CodeRefusal),
    /// The code is not functions: this is wrong at the instruction with this number, counted from 0.
    Functions(usize, FunctionWhy),
    /// The text is no listing.
    Listing(ListingRefusal),
    /// Memory ran out.
    NoMemory,
}

impl Refusal {
    ghost use Rattle.beam_cli.specs.Reasons.{IsRefusal, code_refusal, form_refusal, listing_refusal, module_refusal, side_refusal, table_refusal, term_refusal};

    /// A refusal of the form.
    pub(crate) fn of_form(refusal: FormRefusal) -> Refusal
        ensures as_stated { result ≡ form_refusal refusal }
        ensures kind { IsRefusal result }
    {
        match refusal {
            FormRefusal::NoMemory => Refusal::NoMemory,
            refusal => Refusal::Form(refusal),
        }
    }

    /// A refusal of the value of a file, or of its module.
    pub(crate) fn of_module(refusal: ModuleRefusal) -> Refusal
        ensures as_stated { result ≡ module_refusal refusal }
        ensures kind { IsRefusal result }
    {
        match refusal {
            ModuleRefusal::Form(refusal) => Refusal::of_form(refusal),
            ModuleRefusal::Missing { id } => Refusal::Missing(id),
            ModuleRefusal::Table {
                id,
                why: TableWhy::Index(refusal),
            } => Refusal::of_table(id, refusal),
            ModuleRefusal::Table {
                id,
                why: TableWhy::Side(refusal),
            } => Refusal::of_side(id, refusal),
            ModuleRefusal::Code(refusal) => Refusal::of_code(refusal),
            ModuleRefusal::Functions { at, why } => Refusal::Functions(at, why),
            ModuleRefusal::NoMemory => Refusal::NoMemory,
        }
    }

    /// A refusal of the code.
    pub(crate) fn of_code(refusal: CodeRefusal) -> Refusal
        ensures as_stated { result ≡ code_refusal refusal }
        ensures kind { IsRefusal result }
    {
        match refusal {
            CodeRefusal::NoMemory => Refusal::NoMemory,
            CodeRefusal::Operand {
                why: OperandRefusal::NoMemory,
                ..
            } => Refusal::NoMemory,
            refusal => Refusal::Code(refusal),
        }
    }

    /// A refusal of a listing.
    pub(crate) fn of_listing(refusal: ListingRefusal) -> Refusal
        ensures as_stated { result ≡ listing_refusal refusal }
        ensures kind { IsRefusal result }
    {
        match refusal {
            ListingRefusal::NoMemory => Refusal::NoMemory,
            refusal => Refusal::Listing(refusal),
        }
    }

    /// A refusal of the table in the chunk with this id.
    pub(crate) fn of_table(id: Id, refusal: TableRefusal) -> Refusal
        ensures as_stated { result ≡ table_refusal id refusal }
        ensures kind { IsRefusal result }
    {
        match refusal {
            TableRefusal::NoMemory => Refusal::NoMemory,
            refusal => Refusal::Table(id, refusal),
        }
    }

    /// A refusal of the literals or lines in the chunk with this id.
    pub(crate) fn of_side(id: Id, refusal: SideRefusal) -> Refusal
        ensures as_stated { result ≡ side_refusal id refusal }
        ensures kind { IsRefusal result }
    {
        match refusal {
            SideRefusal::NoMemory => Refusal::NoMemory,
            refusal => Refusal::Side(id, refusal),
        }
    }

    /// A refusal of the term in the chunk with this id.
    pub(crate) fn of_term(id: Id, refusal: TermRefusal) -> Refusal
        ensures as_stated { result ≡ term_refusal id refusal }
        ensures kind { IsRefusal result }
    {
        match refusal {
            TermRefusal::NoMemory => Refusal::NoMemory,
            refusal => Refusal::Term(id, refusal),
        }
    }
}

impl From<NoMemory> for Refusal {
    ghost from_gives = { λ _ e. e ≡ refusals.NoMemory };

    fn from(_e: NoMemory) -> Refusal {
        Refusal::NoMemory
    }
}
