//! The text of a run, read as an order.
#![tactic(auto)]

pub mod laws;
