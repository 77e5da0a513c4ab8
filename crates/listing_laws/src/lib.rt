//! What is known of the listing of the program of each accepted system.
#![tactic(auto)]

pub mod laws;
