//! The text of a replay: the marks of an order, tried against the atomic meaning alone.
#![tactic(auto)]

mod piece;
mod text;
mod trial;

pub use trial::{Replayed, replay};
