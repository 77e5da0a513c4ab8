//! A page that gathers text before it goes to a sink.
ghost use Rattle.std.specs.Prelude.{◌≡◌, [], IfOk, length, take};
ghost use Rattle.tower_io.specs.Sinks.{OnDone};
ghost use Rattle.tower_report.specs.Puts.{Puts};

use std::alloc::Global;
use std::marker::Model;
use tower_io::{Put, Sink};
use tower_types::NoMemory;

/// How many bytes a page holds at most.
const PAGE_BYTES: usize = 65_536;

/// Bytes in memory that are to go to a sink. Its memory is taken when it is made. A put on it that does not fit fails,
/// and adds nothing.
#[derive(Drop)]
pub struct Page {
    bytes: Vec<u8>,
    faults: u64,
}

impl Model for Page {
    ghost use Rattle.std.specs.Prelude.{◌≤◌, vec_len, vec_capacity};
    ghost use Rattle.tower_run.specs.Paging.{Paged};

    ghost Value = { Paged };

    ghost view = { λ p. record { held = p.bytes.items; faults = p.faults } };

    ghost invariant = { λ p. (vec_len p.bytes ≤ 65536) × (65536 ≤ vec_capacity p.bytes) };
}

impl Page {
    /// An empty page.
    pub fn new(alloc: Global) -> Result<Page, NoMemory>
        ensures { IfOk result (λ page. page.held ≡ []) }
    {
        Ok(Page {
            bytes: Vec::with_capacity(alloc, PAGE_BYTES)?,
            faults: 0,
        })
    }

    /// How many bytes it holds.
    pub fn len(&self) -> usize
        ensures { result ≡ length self.now.held }
    {
        self.bytes.len()
    }

    /// Only the first `len` bytes stay.
    pub fn cut(&mut self, len: usize)
        ensures { self.new.held ≡ take len self.old.held }
    {
        self.bytes.truncate(len);
    }

    /// Puts what it holds on a sink. After `Done` it holds nothing.
    pub fn flush<O: Sink>(&mut self, out: &mut O) -> Put
        ensures puts { Puts O.written O.faults out.old out.new self.old.held result }
        ensures empty { OnDone result (self.new.held ≡ []) }
    {
        match out.put(self.bytes.as_slice()) {
            Put::Done => {
                self.bytes.clear();
                Put::Done
            }
            Put::Failed => Put::Failed,
        }
    }
}

impl Sink for Page {
    ghost use Rattle.std.specs.Prelude.{◌≡◌, Some};

    ghost written = { λ p. Some p.held };

    ghost faults = { λ p. p.faults };

    fn faults(&self) -> u64 {
        self.faults
    }

    fn put(&mut self, bytes: &[u8]) -> Put {
        if bytes.len() > PAGE_BYTES - self.bytes.len() {
            self.faults = self.faults.saturating_add(1);
            return Put::Failed;
        }
        if self.bytes.extend_from_slice(bytes).is_err() {
            unreachable!()
        }
        Put::Done
    }
}
