/// What the next instruction of a task comes to, where its condition holds.
#[derive(Clone, Copy, Debug, PartialEq, Eq)]
pub enum Action {
    /// Its condition fails, or the place is past the code.
    Stuck,
    Private(Change),
    /// A message is taken, to the private words from the address on.
    Take(usize),
    Lock(u32),
    Unlock,
    /// An output gets so many private words from an address on.
    Out(u32, usize, usize),
}

/// A change of a task's own part. `pops` words leave the operand stack.
#[derive(Clone, Copy, Debug, PartialEq, Eq)]
pub enum Change {
    Pop {
        pops: usize,
    },
    Push {
        pops: usize,
        word: i128,
    },
    /// A private word is written.
    Store {
        pops: usize,
        at: usize,
        word: i128,
    },
    /// A word of the monitor is written whose lock the task holds.
    StoreHeld {
        pops: usize,
        at: usize,
        word: i128,
    },
    Jump {
        pops: usize,
        to: usize,
    },
    Call {
        to: usize,
    },
    Return {
        to: usize,
    },
    /// A word of the message after a buffer's last is written.
    Fill {
        pops: usize,
        buffer: usize,
        at: usize,
        word: i128,
    },
    Count {
        buffer: usize,
        count: u32,
    },
}
