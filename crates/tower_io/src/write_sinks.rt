//! A sink over a writer: the trusted edge on the side of what is written.
ghost use Rattle.std.specs.Prelude.{◌≡◌};

use crate::answers::Put;
use crate::sinks::Sink;
use std::io::Write;

/// A writer, with a count of its errors. It tells the bytes that the writer tells.
#[derive(Drop)]
pub struct WriteSink<W: Write> {
    inner: W,
    faults: u64,
}

impl<W: Write> WriteSink<W> {
    /// A sink with no fault yet. It takes no memory.
    pub fn new(inner: W) -> WriteSink<W>
        ensures written { ⟦<WriteSink<W> as Sink>⟧.written result ≡ W.contents inner }
        ensures faults { ⟦<WriteSink<W> as Sink>⟧.faults result ≡ 0 }
    {
        WriteSink { inner, faults: 0 }
    }
}

impl<W: Write> Sink for WriteSink<W> {
    ghost written = { λ s. W.contents s.inner };

    ghost faults = { λ s. s.faults };

    fn faults(&self) -> u64 {
        self.faults
    }

    fn put(&mut self, bytes: &[u8]) -> Put {
        let mut rest = bytes;
        while !rest.is_empty() {
            match self.inner.write(rest) {
                Ok(0) | Err(_) => {
                    self.faults = self.faults.saturating_add(1);
                    return Put::Failed;
                }
                Ok(n) => rest = &rest[n..],
            }
        }
        Put::Done
    }
}
