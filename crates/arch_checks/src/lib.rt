//! Whether a file is accepted: its checked system with its weights, or the first fault of its text.
#![tactic(auto)]

mod checked;
mod checking;
mod fault;
mod graph;
pub mod laws;
mod sizes;
mod widths;

pub use arch_names::Sort;
pub use arch_types::Want;
pub use checked::Checked;
pub use checking::{check, check_raw};
pub use fault::{Fault, What};
