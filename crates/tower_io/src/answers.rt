//! The answers of the calls that reach the outside.

/// The answer of `Shelf::begin`.
#[derive(Clone, Copy, Debug, PartialEq, Eq)]
pub enum Begin {
    Begun,
    Failed,
    NoMemory,
}

/// The answer of `Shelf::next`; `Got` has the number of bytes that came.
#[derive(Clone, Copy, Debug, PartialEq, Eq)]
pub enum Next {
    Got(usize),
    End,
    Failed,
}

/// The answer of `fetch`.
#[derive(Clone, Copy, Debug, PartialEq, Eq)]
pub enum Fetch {
    Done,
    Long,
    Failed,
    NoMemory,
}

/// The answer of `Sink::put`.
#[derive(Clone, Copy, Debug, PartialEq, Eq)]
pub enum Put {
    Done,
    Failed,
}
