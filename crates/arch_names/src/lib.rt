//! The names of a file: what each use refers to, or the first fault.
#![tactic(auto)]

mod exprs;
mod fault;
mod items;
pub mod laws;
mod names;
mod parts;
mod resolving;
mod sets;
mod stmts;
mod uses;

pub use fault::{NameFault, Sort};
pub use resolving::resolve;

#[cfg(test)]
mod tests;
