//! A sink that never fails.
ghost use Rattle.std.specs.Prelude.{◌≡◌, ◌+◌, ◌-◌, ◌^◌, min, length};

use crate::answers::Put;
use crate::sinks::Sink;
use std::marker::Model;

/// Counts the bytes that are put on it, and never fails. It tells none of them.
#[derive(Drop)]
pub struct SureSink {
    count: u64,
}

impl Model for SureSink {
    ghost use Rattle.std.specs.Prelude.{ℕ};

    ghost Value = { ℕ };

    ghost view = { λ a. a.count };
}

impl SureSink {
    /// A sink on which no byte was put. It takes no memory.
    pub fn new() -> SureSink
        ensures { result ≡ 0 }
    {
        SureSink { count: 0 }
    }

    /// How many bytes were put on it; the count stays at `u64::MAX` once it is there.
    pub fn count(&self) -> u64
        ensures { result ≡ self.now }
    {
        self.count
    }
}

impl Sink for SureSink {
    ghost use Rattle.std.specs.Prelude.{None};

    ghost written = { λ _. None };

    ghost faults = { λ _. 0 };

    fn faults(&self) -> u64 {
        0
    }

    fn put(&mut self, bytes: &[u8]) -> Put
        ensures sure { result ≡ Put.Done }
        ensures counts { self.new ≡ min (self.old + length bytes.now) (2 ^ 64 - 1) }
    {
        self.count = self.count.saturating_add(bytes.len() as u64);
        Put::Done
    }
}
