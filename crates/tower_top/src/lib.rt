//! The top call of towerc: words and inputs to a text and a status.
#![tactic(auto)]

mod check;
mod choices;
mod compile;
mod events;
mod fetched;
mod file;
pub mod laws;
mod run;
mod status;
mod top;
mod usage;
mod whole;

pub use status::Status;
pub use top::tower;
pub use tower_report::Rule;
pub use tower_run::{Ran, run_program};

#[cfg(test)]
mod tests;
