//! Faults: which instruction is not accepted, and why.

use action_rules::Reason;
use bk_base::ItemList;

/// An instruction that is not accepted.
#[derive(Clone, Copy, Debug, PartialEq, Eq)]
pub struct Fault {
    /// The number of its function in the module, counted from 0.
    pub function: u32,
    /// Its place in the code of the module, counted from 0.
    pub place: u32,
    /// Why it is not accepted.
    pub reason: Reason,
}

/// Faults in the order of the code.
pub type FaultList = ItemList<Fault>;
