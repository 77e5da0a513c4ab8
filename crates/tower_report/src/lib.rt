//! The texts of a run, and the calls that put them on a sink. None of them takes memory.
#![tactic(auto)]

pub mod checks;
pub mod ends;
pub mod faults;
pub mod generated;
pub mod laws;
pub mod marks;
mod pieces;
pub mod refusals;
pub mod replays;
pub mod rule;
pub mod values;
pub mod words;

pub use checks::put_check;
pub use ends::{put_core, put_count, put_end, put_held, put_lost, put_states, put_waits};
pub use faults::put_fault;
pub use generated::{Generated, put_generated};
pub use marks::{put_mark, put_out};
pub use refusals::{put_bad, put_unread, put_usage};
pub use replays::{put_message, put_misfit, put_pending, put_state_values, put_waiting};
pub use rule::Rule;
pub use values::put_value;
pub use words::put_words;

#[cfg(test)]
mod tests;
