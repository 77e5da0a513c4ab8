//! A program that runs on an event record, and the text of its run.
#![tactic(auto)]

mod ceilings;
mod choices;
mod cores;
mod ending;
mod going;
mod only;
mod page;
mod piece;
mod run;
mod scheduler;
mod turns;
mod waits;

pub use page::Page;
pub use run::{Ran, run_program};
