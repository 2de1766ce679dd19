//! The judgement of a module: its report, and the text of it.
#![tactic(auto)]

mod text;
mod validating;

pub use flow_rules::{Fault, FaultList, Reason};
pub use text::report_text;
pub use validating::{Report, validate};

#[cfg(test)]
mod tests;
