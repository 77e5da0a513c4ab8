//! The listing of a program: its one spelling, as a text.
#![tactic(auto)]

mod fault;
mod kind;
pub mod laws;
mod listings;
mod number;
mod operation;
mod reading;
mod row;
mod rules;
mod words;
mod writing;

pub use fault::{ListFault, ListKind};
pub use listings::read;
pub use writing::write;

#[cfg(test)]
mod tests;
