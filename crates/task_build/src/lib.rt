//! The program of a system.
#![tactic(auto)]

mod building;
mod heads;
pub mod laws;
mod sizes;
mod tables;
mod tasks;

pub use building::build;
