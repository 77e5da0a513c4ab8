//! The names in an accepted file.
#![tactic(auto)]

pub mod laws;
