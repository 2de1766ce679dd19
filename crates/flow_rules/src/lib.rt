//! How what is known of registers and the frame goes from place to place in one function.
#![tactic(auto)]

mod block_flow;
mod block_laws;
mod checking;
mod edges;
mod flow;
mod fn_flow;
mod making;
mod misuse_laws;
mod outcome_laws;
mod refusal;
mod report_laws;
mod run_laws;

pub use action_rules::Reason;
pub use block_flow::BlockFlow;
pub use block_laws::{blocks_stand_for_places, one_flow};
pub use code_faults::{Fault, FaultList};
pub use fn_flow::FnFlow;
pub use misuse_laws::each_misuse_is_met;
pub use outcome_laws::{choices_make_steps, each_need_can_fail, each_outcome_is_met};
pub use refusal::FlowRefusal;
pub use report_laws::{modules_have_reports, one_report, rounds_find_reports};
pub use run_laws::{accepted_modules_never_get_stuck, runs_go_on};

#[cfg(test)]
mod tests;
