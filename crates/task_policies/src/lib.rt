//! Rules for turns beyond that of fixed priorities: the ceiling rule, and the rule of several cores.
#![tactic(auto)]

mod among;
mod ceiling;
mod cores;
pub mod laws;

pub use ceiling::Ceiling;
pub use cores::Cores;
