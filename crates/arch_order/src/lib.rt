//! What a text that was read, and its linked tree, keep: order, numbers, nesting.
#![tactic(auto)]

pub mod laws;
