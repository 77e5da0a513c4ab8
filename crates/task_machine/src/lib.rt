//! The machine of tasks as a program: tasks, locks and queues, and the rules for turns.
#![tactic(auto)]

mod action;
mod arrival;
mod bits;
mod execute;
mod lock;
mod machine;
mod message;
mod noted;
mod operations;
mod own;
mod policy;
mod queue;
mod running;
mod standing;
mod start;

pub use machine::{Came, Machine, Went};
pub use policy::{Any, Fixed, Policy};
pub use standing::Standing;

#[cfg(test)]
mod tests;
