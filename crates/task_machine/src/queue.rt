ghost use Rattle.std.specs.Prelude.{◌≡◌, ◌+◌, ◌<◌, ◌≤◌, ◌^◌, [], ◌∷◌, ◌++◌, ℕ, pos, length, cond, true, false, drop, slice_get, IfOk};
ghost use Rattle.std.specs.Option.{option_map};
ghost use Rattle.tower_syntax.specs.Arrival.{is_full};
ghost use Rattle.task_machine.specs.Message.{said_words, is_number};
ghost use Rattle.task_machine.specs.Queue.{empty, waiting, with_more, with_less};

use crate::message::Message;
use sqlite_items::Items;
use std::alloc::Global;
use std::collections::VecDeque;
use std::marker::Model;
use tower_types::NoMemory;

/// The messages that wait for a source, the oldest first, and how many found the queue full. The memory for all that
/// ever wait is taken when it is made.
#[derive(Drop)]
pub struct Queue {
    ring: Ring,
    lost: u64,
}

/// Numbers take eight bytes each, so that a source without a depth can have room for a whole record.
#[derive(Drop)]
enum Ring {
    Numbers(VecDeque<u64>),
    Words(VecDeque<Items<i128>>),
}

impl Model for Queue {
    ghost use Rattle.task_machine.specs.Queue.{Queue, queue_of};

    ghost Value = { Queue };

    ghost view = { λ q. queue_of q.ring q.lost };
}

impl Queue {
    /// A queue with room for so many numbers.
    pub fn numbers(alloc: Global, room: usize) -> Result<Queue, NoMemory>
        ensures { IfOk result (λ q. q ≡ empty room true) }
    {
        Ok(Queue {
            ring: Ring::Numbers(VecDeque::with_capacity(alloc, room)?),
            lost: 0,
        })
    }

    /// A queue with room for so many messages of a signal.
    pub fn words(alloc: Global, room: usize) -> Result<Queue, NoMemory>
        ensures { IfOk result (λ q. q ≡ empty room false) }
    {
        Ok(Queue {
            ring: Ring::Words(VecDeque::with_capacity(alloc, room)?),
            lost: 0,
        })
    }

    /// How many messages wait.
    pub fn len(&self) -> usize
        ensures { result ≡ length (waiting self.now) }
    {
        match &self.ring {
            Ring::Numbers(ring) => ring.len(),
            Ring::Words(ring) => ring.len(),
        }
    }

    /// How many messages found it full.
    pub fn lost(&self) -> u64
        ensures { result ≡ self.now.dropped }
    {
        self.lost
    }

    /// A message comes. Where the queue is full it is dropped and counted.
    pub fn bring(&mut self, depth: Option<u32>, message: Message)
        requires kind { self.old.numbered ≡ is_number message }
        requires room { is_full depth (length (waiting self.old)) ≡ false → length (waiting self.old) < self.old.room }
        requires few { self.old.dropped + 1 < 2 ^ 64 }
        ensures { self.new ≡ cond (is_full depth (length (waiting self.old))) (record self.old { dropped = self.old.dropped + 1 }) (with_more self.old (said_words message)) }
    {
        if is_full(depth, self.len()) {
            self.lost += 1;
        } else {
            self.push(message);
        }
    }

    fn push(&mut self, message: Message)
        requires kind { self.old.numbered ≡ is_number message }
        requires room { length (waiting self.old) < self.old.room }
        ensures { self.new ≡ with_more self.old (said_words message) }
    {
        match message {
            Message::Number(n) => self.push_number(n),
            Message::Words(words) => self.push_words(words),
        }
    }

    pub fn push_number(&mut self, n: u64)
        requires kind { self.old.numbered ≡ true }
        requires room { length (waiting self.old) < self.old.room }
        ensures { self.new ≡ with_more self.old (pos n ∷ []) }
    {
        match &mut self.ring {
            Ring::Numbers(ring) => ring.push_back_reserved(n),
            Ring::Words(_) => unreachable!(),
        }
    }

    fn push_words(&mut self, words: Items<i128>)
        requires kind { self.old.numbered ≡ false }
        requires room { length (waiting self.old) < self.old.room }
        ensures { self.new ≡ with_more self.old words }
    {
        match &mut self.ring {
            Ring::Words(ring) => ring.push_back_reserved(words),
            Ring::Numbers(_) => unreachable!(),
        }
    }

    /// The oldest message goes.
    pub fn take(&mut self) -> Option<Message>
        ensures first { option_map said_words result ≡ slice_get (waiting self.old) 0 }
        ensures rest { self.new ≡ with_less self.old }
    {
        match &mut self.ring {
            Ring::Numbers(ring) => match ring.pop_front() {
                Some(n) => Some(Message::Number(n)),
                None => None,
            },
            Ring::Words(ring) => match ring.pop_front() {
                Some(words) => Some(Message::Words(words)),
                None => None,
            },
        }
    }
}

fn is_full(depth: Option<u32>, count: usize) -> bool
    ensures { result ≡ is_full depth count }
{
    match depth {
        Some(depth) => count == depth as usize,
        None => false,
    }
}
