//! A large system from a number: a file of 64 monitors, a record of 100 ticks, and 400 choices.
#![tactic(auto)]

mod body;
mod draws;
mod file;
mod items;
pub mod laws;
mod made;
mod monitor;
mod names;

pub use made::{Made, make_system};

#[cfg(test)]
mod tests;
