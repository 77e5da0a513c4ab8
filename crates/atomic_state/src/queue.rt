//! The queue of a source.
ghost use Rattle.std.specs.Prelude.{◌≡◌, ◌+◌, ◌<◌, ◌^◌, [], ◌∷◌, ◌++◌, cond, length, map, drop, IfOk, OnOk, Some, slice_get};
ghost use Rattle.std.specs.VecDeque.{deque_capacity};
ghost use Rattle.tower_types.specs.View.{value_of};
ghost use Rattle.tower_syntax.specs.Arrival.{is_full};
ghost use Rattle.atomic_state.specs.Queues.{HasRoom, waiting_of};

use std::alloc::Global;
use std::collections::VecDeque;
use tower_types::{NoMemory, Value};

/// The messages that wait for a source, the oldest first, and how many found the queue full.
#[derive(Drop)]
pub struct Queue {
    pub waiting: VecDeque<Value>,
    pub lost: u64,
}

impl Queue {
    /// A queue with no message.
    pub fn new(alloc: Global) -> Queue
        ensures waiting { waiting_of result ≡ [] }
        ensures lost { result.lost ≡ 0 }
    {
        Queue {
            waiting: VecDeque::new(alloc),
            lost: 0,
        }
    }

    /// The oldest message goes.
    pub fn take(&mut self)
        ensures waiting { waiting_of self.new ≡ drop 1 (waiting_of self.old) }
        ensures lost { self.new.lost ≡ self.old.lost }
    {
        self.waiting.pop_front();
    }

    /// Makes room for one message, and for the count of one that is lost.
    pub fn make_room(&mut self) -> Result<(), NoMemory>
        ensures waiting { waiting_of self.new ≡ waiting_of self.old }
        ensures lost { self.new.lost ≡ self.old.lost }
        ensures room { OnOk result (HasRoom self.new) }
    {
        if self.lost == u64::MAX {
            return Err(NoMemory);
        }
        self.waiting.reserve(1)?;
        Ok(())
    }

    /// A message comes. Where the queue is full it is dropped and counted.
    pub fn bring(&mut self, depth: Option<u32>, message: Value)
        requires { HasRoom self.old }
        ensures waiting { waiting_of self.new ≡ cond (is_full depth (length (waiting_of self.old))) (waiting_of self.old) (waiting_of self.old ++ value_of message ∷ []) }
        ensures lost { self.new.lost ≡ cond (is_full depth (length (waiting_of self.old))) (self.old.lost + 1) self.old.lost }
    {
        if is_full(depth, self.waiting.len()) {
            self.lost += 1;
        } else {
            self.waiting.push_back_reserved(message);
        }
    }
}

fn is_full(depth: Option<u32>, count: usize) -> bool
    ensures { result ≡ is_full depth count }
{
    match depth {
        Some(depth) => count == depth as usize,
        None => false,
    }
}
