//! The outside of the compiler and the simulator: shelves that hold texts by name, and sinks that take bytes.
#![tactic(auto)]

pub mod answers;
pub mod fetching;
pub mod file_shelves;
pub mod memory_shelves;
pub mod memory_sinks;
pub mod shelves;
pub mod sinks;
pub mod sure_shelves;
pub mod sure_sinks;
mod texts;
pub mod write_sinks;

pub use answers::{Begin, Fetch, Next, Put};
pub use fetching::fetch;
pub use file_shelves::FileShelf;
pub use memory_shelves::MemShelf;
pub use memory_sinks::MemSink;
pub use shelves::Shelf;
pub use sinks::Sink;
pub use sure_shelves::SureShelf;
pub use sure_sinks::SureSink;
pub use write_sinks::WriteSink;

#[cfg(test)]
mod tests;
