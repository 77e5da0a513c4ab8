//! The words of the command line: the command, FILE and the values of the options.
#![tactic(auto)]

mod words;

pub use words::{Given, Options, read_words};
