//! A task that runs alone, and what a stretch of its code carries out.
#![tactic(auto)]

pub mod laws;
