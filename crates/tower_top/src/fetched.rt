//! What came of reading an input.

/// An input that was read and tested.
#[derive(Drop)]
pub enum Fetched<T, W> {
    Valid(T),
    /// It has a fault.
    Wrong(W),
    /// It could not be read.
    Unread,
    NoMemory,
}

/// The greatest length in bytes of an input that is no file of the language.
pub const TEXT_LIMIT: usize = 16_777_216;
