//! What a replay says of runs.
#![tactic(auto)]

pub mod laws;
