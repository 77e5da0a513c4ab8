//! Tokens and lists: bytes to tokens, one byte at a time, and a text to nodes.
#![tactic(auto)]

mod byte;
pub mod fault;
pub mod laws;
pub mod lexer;
pub mod node;
mod text;
pub mod token;

pub use fault::SexpFault;
pub use lexer::{Fed, Lexer};
pub use node::Node;
pub use text::read;
pub use token::Token;

#[cfg(test)]
mod tests;
