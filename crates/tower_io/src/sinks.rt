//! Sinks: they take bytes.
ghost use Rattle.std.specs.Prelude.{◌≡◌, ℕ, Option, ◌≤◌, List, []};
ghost use Rattle.tower_io.specs.Faults.{Rose};
ghost use Rattle.tower_io.specs.Sinks.{Adds, AddsPrefix, OnDone, OnPutFailed};

use crate::answers::Put;

/// Takes bytes, and counts its faults.
pub trait Sink {
    // The bytes that were taken, where the sink tells them.
    ghost written: { Self → Option (List ℕ) };

    // How many faults there were, as far as a `u64` counts.
    ghost faults: { Self → ℕ };

    /// How many faults there were; the count stays at `u64::MAX` once it is there.
    fn faults(&self) -> u64
        ensures { result ≡ faults self.now };

    /// Writes the bytes. It takes no memory.
    ///
    /// After `Failed` a first part of them was written, which may be none or all. A piece of no bytes
    /// is always `Done`.
    fn put(&mut self, bytes: &[u8]) -> Put
        ensures all { OnDone result (Adds (written self.old) (written self.new) bytes.now) }
        ensures calm { OnDone result (faults self.new ≡ faults self.old) }
        ensures part { OnPutFailed result (AddsPrefix (written self.old) (written self.new) bytes.now) }
        ensures rose { OnPutFailed result (Rose (faults self.old) (faults self.new)) }
        ensures empty { bytes.now ≡ [] → result ≡ Put.Done }
        ensures never_falls { faults self.old ≤ faults self.new };
}
