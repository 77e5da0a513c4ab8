//! What a system means: the atomic steps of its marks.
#![tactic(auto)]

pub mod laws;
