//! Why a function has no flow.

ghost use Rattle.std.specs.Prelude.{◌≡◌};
ghost use Rattle.flow_rules.specs.declared.refusal.FlowRefusal.TheVariants as refusals;

use bk_base::NoMemory;
use code_faults::FaultList;
use thiserror::Error;

/// Why a function has no flow.
#[derive(Debug, Drop, Error)]
pub enum FlowRefusal {
    /// The opcodes or the operands of these instructions are wrong. There is at least one, and they come
    /// in the order of the code.
    #[error("wrong instructions")]
    Faults(FaultList),
    /// Memory ran out.
    #[error("out of memory")]
    NoMemory,
}

impl From<NoMemory> for FlowRefusal {
    ghost from_gives = { λ _ e. e ≡ refusals.NoMemory };

    fn from(_e: NoMemory) -> FlowRefusal {
        FlowRefusal::NoMemory
    }
}
