use crate::arch::SourceKind;
use sqlite_items::Items;
use tower_types::Value;

/// One step of the atomic meaning. The numbers are sources.
#[derive(Clone, Copy, Debug, PartialEq, Eq)]
pub enum Mark {
    /// The next entry of the record arrives.
    Arrive,
    /// A source takes its oldest message.
    Start(u32),
    /// A source's first pending handler runs.
    Run(u32),
    /// A source's first pending output is made.
    Out(u32),
}

/// An entry of the event record: one tick of 1 ms, or a value for a signal source.
#[derive(Drop)]
pub enum Entry {
    Tick,
    Signal(u32, Value),
}

/// An event record, with the kinds and depths of the sources that it is for.
#[derive(Drop)]
pub struct Events {
    pub kinds: Items<SourceKind>,
    pub depths: Items<Option<u32>>,
    pub entries: Items<Entry>,
}

/// A scheduling choice. The last number of each is its repeat count.
#[derive(Clone, Copy, Debug, PartialEq, Eq)]
pub enum Choice {
    /// The ready task at this position executes one instruction.
    Go(u32, u32),
    /// The ready task at this position executes up to its next visible instruction.
    See(u32, u32),
    /// The next entry of the record arrives.
    Ev(u32),
    /// The first ready task executes until no task is ready.
    Idle,
}
