//! The least typing of a flow: which states come to which places.
#![tactic(auto)]

mod agenda;
mod edge;
mod flow;
mod solution;
mod solving;
mod spreading;

pub use edge::{Edge, EdgeList};
pub use flow::{Flow, Walk};
pub use solution::Solution;
pub use solving::solve;

#[cfg(test)]
mod tests;
