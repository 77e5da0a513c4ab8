//! A sink in memory, whose puts fail by their numbers.
ghost use Rattle.std.specs.Prelude.{◌≡◌, ◌≤◌, Some, length, IfOk};
ghost use Rattle.tower_io.specs.Sinks.{AddsPrefix, OnPutFailed};

use crate::answers::Put;
use crate::sinks::Sink;
use std::alloc::{AllocError, Global};
use std::marker::Model;

/// Bytes in memory, up to a number of them, with the numbers of the puts that are to fail.
///
/// Puts are counted from 0, those of empty pieces too, which never fail. A put of another piece fails
/// where its number is given or the piece does not fit the room that is left. By its number it fails
/// after the first half of what would fit, rounded down; otherwise after what fits.
#[derive(Drop)]
pub struct MemSink {
    bytes: Vec<u8>,
    room: usize,
    fails: Vec<u64>,
    puts: u64,
    faults: u64,
}

impl Model for MemSink {
    ghost use Rattle.std.specs.Prelude.{◌+◌, ◌≤◌, vec_len, vec_capacity};
    ghost use Rattle.tower_io.specs.MemorySinks.{MemorySink};

    ghost Value = { MemorySink };

    ghost view = { λ a. record {
      bytes = a.bytes.items;
      room = a.room;
      fails = a.fails.items;
      puts = a.puts;
      faults = a.faults;
    } };

    ghost invariant = { λ a. vec_len a.bytes + a.room ≤ vec_capacity a.bytes };
}

impl MemSink {
    ghost use Rattle.tower_io.specs.MemorySinks.{fresh, wrote, faulted};

    /// An empty sink with room for so many bytes, whose memory it takes now.
    pub fn new(alloc: Global, room: usize, fails: Vec<u64>) -> Result<MemSink, AllocError>
        ensures { IfOk result (λ sink. sink ≡ fresh room fails.items) }
    {
        Ok(MemSink {
            bytes: Vec::with_capacity(alloc, room)?,
            room,
            fails,
            puts: 0,
            faults: 0,
        })
    }

    /// The bytes that were written. It takes no memory.
    pub fn bytes(&self) -> &[u8]
        ensures { result.now ≡ self.now.bytes }
    {
        self.bytes.as_slice()
    }

    // Writes a piece that fits. The memory for it was taken when the sink was made.
    fn take(&mut self, piece: &[u8])
        requires { length piece.now ≤ self.old.room }
        ensures { self.new ≡ wrote self.old piece.now }
    {
        if self.bytes.extend_from_slice(piece).is_err() {
            unreachable!()
        }
        self.room -= piece.len();
    }

    // Writes the part of a piece that comes before the fault, and counts the fault.
    fn fail(&mut self, part: &[u8]) -> Put
        requires { length part.now ≤ self.old.room }
        ensures answer { result ≡ Put.Failed }
        ensures after { self.new ≡ faulted self.old part.now }
    {
        self.take(part);
        self.faults = self.faults.saturating_add(1);
        Put::Failed
    }
}

impl Sink for MemSink {
    ghost use Rattle.std.specs.Prelude.{Some};
    ghost use Rattle.tower_io.specs.MemorySinks.{put_of};

    ghost written = { λ s. Some s.bytes };

    ghost faults = { λ s. s.faults };

    fn faults(&self) -> u64 {
        self.faults
    }

    #[tactic(auto, using(crate::proofs::Adding::AddsPrefix_take))]
    fn put(&mut self, bytes: &[u8]) -> Put
        ensures answer { result ≡ (put_of self.old bytes.now).0 }
        ensures after { self.new ≡ (put_of self.old bytes.now).1 }

        ensures part { OnPutFailed result (AddsPrefix (Some self.old.bytes) (Some self.new.bytes) bytes.now) }
        ensures never_falls { self.old.faults ≤ self.new.faults }
    {
        let is_to_fail = self.fails.contains(&self.puts);
        self.puts = self.puts.saturating_add(1);
        if bytes.is_empty() {
            return Put::Done;
        }
        let fits = bytes.len().min(self.room);
        if is_to_fail {
            return self.fail(&bytes[..fits / 2]);
        }
        if fits < bytes.len() {
            return self.fail(&bytes[..fits]);
        }
        self.take(bytes);
        Put::Done
    }
}
