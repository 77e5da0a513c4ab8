//! The atomic state as a program: what handlers do with values in place, one mark after another.
#![tactic(auto)]

mod arrive;
mod draft;
mod eval;
mod execute;
mod frame;
mod handle;
mod marks;
mod parts;
mod queue;
mod start;
mod state;
mod tree;
mod trial;
mod work;
mod zero;

pub use parts::AtomicStep;
pub use state::AtomicState;
pub use tree::Tree;
pub use trial::{Verdict, replay};
