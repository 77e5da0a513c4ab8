//! Reads a text into the tree of forms, in pieces of any size.
#![tactic(auto)]

mod atom;
mod build;
mod children;
mod fault;
mod found;
mod frame;
pub mod laws;
mod lists;
mod part;
mod reader;
mod table;
mod word;

pub use fault::ReadFault;
pub use reader::{Reader, read_raw};
pub use tower_sexp::Fed;

#[cfg(test)]
mod tests;
