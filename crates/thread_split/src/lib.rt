//! A plan for the task of each source: the handlers that its messages reach, and the monitors that these work on.
#![tactic(auto)]

pub mod laws;
mod plan;

pub use plan::{TaskPlan, split};
