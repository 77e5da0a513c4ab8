//! The code of handlers: from its LOCK to its UNLOCK each does its effect.
#![tactic(auto)]

mod emits;
mod exprs;
mod framing;
pub mod laws;
mod layout;
mod measured;
mod moved;
mod part;
mod place;
mod section;
mod stmts;

pub use framing::frame_of;
pub use measured::{Measured, StartTable};
pub use section::place_body;

#[cfg(test)]
mod tests;
