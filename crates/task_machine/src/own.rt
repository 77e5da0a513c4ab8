ghost use Rattle.std.specs.Prelude.{◌≡◌, ◌+◌, ◌<◌, ◌≤◌, ◌^◌, ◌↔◌, length, slice_get, slice_set, nat_le, ◌∷◌, IfOk};
ghost use Rattle.std.specs.Option.{option_map};
ghost use Rattle.task_code.specs.Own.{held_monitor, first_own, empty_buffer};
ghost use Rattle.task_code.specs.Does.{on, word_at, slot, with_word, with_count};
ghost use Rattle.task_machine.specs.Action.{buffer_at, with_buffer_at, held_word_at, with_held_word, changed, HasRoom, with_message, with_lock_of, without_held, popping};

use crate::action::Change;
use crate::start::{first_buffers, zero_slots, zeros};
use arrayvec::ArrayVec;
use sqlite_items::Items;
use std::alloc::Global;
use std::marker::Model;
use task_code::{Buffer, Task};
use tower_types::NoMemory;

/// A buffer of an emitter: how many messages it holds, and the words of each of its slots.
#[derive(Drop)]
pub struct Filled {
    count: u32,
    slots: Vec<Items<i128>>,
}

impl Model for Filled {
    ghost use Rattle.task_code.specs.Own.{Filled as FilledBuffer};

    ghost Value = { FilledBuffer };

    ghost view = { λ f. record { count = f.count; slots = f.slots.items } };
}

/// A lock that a task holds, with the words of its monitor.
#[derive(Drop)]
pub struct Held {
    monitor: u32,
    words: Items<i128>,
}

impl Model for Held {
    ghost use Rattle.task_code.specs.Own.{Held as HeldLock};

    ghost Value = { HeldLock };

    ghost view = { λ h. record { monitor = h.monitor; words = h.words } };
}

/// A task's own part.
#[derive(Drop)]
pub struct Own {
    place: usize,
    words: Vec<i128>,
    stack: ArrayVec<i128, 64>,
    calls: ArrayVec<usize, 256>,
    buffers: Vec<Filled>,
    held: Option<Held>,
}

impl Model for Own {
    ghost use Rattle.std.specs.Prelude.{reverse};
    ghost use Rattle.task_code.specs.Own.{Own as OwnPart};

    ghost Value = { OwnPart };

    ghost view = { λ a. record { place = a.place; words = a.words.items; stack = reverse a.stack.items; calls = reverse a.calls.items; buffers = a.buffers.items; held = a.held } };
}

impl Own {
    pub fn place(&self) -> usize
        ensures { result ≡ self.now.place }
    {
        self.place
    }

    /// The word so many below the topmost, if there is one.
    pub fn top(&self, below: usize) -> Option<i128>
        ensures value { result ≡ slice_get self.now.stack below }
        ensures fits { length self.now.stack ≤ 64 }
    {
        let stack = self.stack.as_slice();
        if below < stack.len() {
            Some(stack[stack.len() - 1 - below])
        } else {
            None
        }
    }

    pub fn is_stack_full(&self) -> bool
        ensures { result ≡ nat_le 64 (length self.now.stack) }
    {
        self.stack.is_full()
    }

    /// A private word; 0 where there is none.
    pub fn word(&self, at: usize) -> i128
        ensures { result ≡ word_at self.now.words at }
    {
        word_in(self.words.as_slice(), at)
    }

    /// The place that was called from last, if there is one.
    pub fn caller(&self) -> Option<usize>
        ensures { result ≡ slice_get self.now.calls 0 }
    {
        self.calls.as_slice().last().copied()
    }

    pub fn is_calls_full(&self) -> bool
        ensures { result ≡ nat_le 256 (length self.now.calls) }
    {
        self.calls.is_full()
    }

    /// The monitor whose lock the task holds.
    pub fn held(&self) -> Option<u32>
        ensures { result ≡ held_monitor self.now }
    {
        match &self.held {
            Some(held) => Some(held.monitor),
            None => None,
        }
    }

    /// A word of that monitor; 0 where there is none.
    pub fn held_word(&self, at: usize) -> i128
        ensures { result ≡ held_word_at self.now.held at }
    {
        match &self.held {
            Some(held) => word_in(held.words.as_slice(), at),
            None => 0,
        }
    }

    /// How many messages a buffer holds, if there is such a buffer.
    pub fn count(&self, buffer: usize) -> Option<u32>
        ensures { result ≡ option_map (λ f. f.count) (slice_get self.now.buffers buffer) }
    {
        match self.buffers.get(buffer) {
            Some(filled) => Some(filled.count),
            None => None,
        }
    }

    /// A word of a message of a buffer; 0 where there is none.
    #[tactic(auto, using(crate::proofs::Lists::get_none, crate::proofs::Lists::get_some))]
    pub fn message_word(&self, buffer: usize, message: usize, at: usize) -> i128
        ensures { result ≡ word_at (slot (buffer_at self.now buffer) message) at }
    {
        match self.buffers.get(buffer) {
            Some(filled) => filled.word(message, at),
            None => 0,
        }
    }
}

impl Filled {
    #[tactic(auto, using(crate::proofs::Lists::get_none, crate::proofs::Lists::get_some))]
    fn word(&self, message: usize, at: usize) -> i128
        ensures { result ≡ word_at (slot self.now message) at }
    {
        match self.slots.get(message) {
            Some(slot) => word_in(slot.as_slice(), at),
            None => 0,
        }
    }
}

/// The word at a place, and 0 past the end.
fn word_in(words: &[i128], at: usize) -> i128
    ensures { result ≡ word_at words.now at }
{
    if at < words.len() { words[at] } else { 0 }
}

impl Own {
    /// Words leave the operand stack.
    #[tactic(auto, using(crate::proofs::Lists::drop_reverse))]
    fn pop(&mut self, pops: usize)
        ensures { self.new ≡ popping pops self.old }
    {
        let left = self.stack.len().saturating_sub(pops);
        self.stack.truncate(left);
    }

    fn push(&mut self, word: i128)
        requires { length self.old.stack < 64 }
        ensures { self.new ≡ record self.old { stack = word ∷ self.old.stack } }
    {
        self.stack.push(word);
    }

    /// The task goes on to the next place.
    pub fn go_on(&mut self)
        requires { self.old.place + 1 < 2 ^ 64 }
        ensures { self.new ≡ on self.old }
    {
        self.place += 1;
    }

    fn store(&mut self, at: usize, word: i128)
        ensures { self.new ≡ record self.old { words = slice_set self.old.words at word } }
    {
        if at < self.words.len() {
            self.words[at] = word;
        }
    }

    fn store_held(&mut self, at: usize, word: i128)
        ensures { self.new ≡ record self.old { held = option_map (with_held_word at word) self.old.held } }
    {
        if let Some(mut held) = self.held.take() {
            held.store(at, word);
            self.held = Some(held);
        }
    }

    fn jump(&mut self, to: usize)
        ensures { self.new ≡ record self.old { place = to } }
    {
        self.place = to;
    }

    fn call(&mut self, to: usize)
        requires room { length self.old.calls < 256 }
        requires place { self.old.place + 1 < 2 ^ 64 }
        ensures { self.new ≡ changed (Change.Call to) self.old }
    {
        self.calls.push(self.place + 1);
        self.place = to;
    }

    fn leave(&mut self, to: usize)
        ensures { self.new ≡ changed (Change.Return to) self.old }
    {
        let left = self.calls.len().saturating_sub(1);
        self.calls.truncate(left);
        self.place = to;
    }

    fn fill(&mut self, buffer: usize, at: usize, word: i128)
        ensures { self.new ≡ with_buffer_at self.old buffer (with_word (buffer_at self.old buffer) (buffer_at self.old buffer).count at word) }
    {
        if buffer < self.buffers.len() {
            self.buffers[buffer].fill(at, word);
        }
    }

    fn set_count(&mut self, buffer: usize, count: u32)
        ensures { self.new ≡ with_buffer_at self.old buffer (with_count (buffer_at self.old buffer) count) }
    {
        if buffer < self.buffers.len() {
            self.buffers[buffer].count = count;
        }
    }

    /// Changes the task's own part.
    pub fn change(&mut self, change: Change)
        requires room { HasRoom change self.old }
        requires place { self.old.place + 1 < 2 ^ 64 }
        ensures { self.new ≡ changed change self.old }
    {
        match change {
            Change::Pop { pops } => {
                self.pop(pops);
                self.go_on();
            }
            Change::Push { pops, word } => {
                self.pop(pops);
                self.push(word);
                self.go_on();
            }
            Change::Store { pops, at, word } => {
                self.pop(pops);
                self.store(at, word);
                self.go_on();
            }
            Change::StoreHeld { pops, at, word } => {
                self.pop(pops);
                self.store_held(at, word);
                self.go_on();
            }
            Change::Jump { pops, to } => {
                self.pop(pops);
                self.jump(to);
            }
            Change::Call { to } => self.call(to),
            Change::Return { to } => self.leave(to),
            Change::Fill {
                pops,
                buffer,
                at,
                word,
            } => {
                self.fill(buffer, at, word);
                self.pop(pops);
                self.go_on();
            }
            Change::Count { buffer, count } => {
                self.set_count(buffer, count);
                self.go_on();
            }
        }
    }
}

impl Held {
    fn store(&mut self, at: usize, word: i128)
        ensures { self.new ≡ with_held_word at word self.old }
    {
        if at < self.words.len() {
            self.words.set(at, word);
        }
    }
}

impl Filled {
    /// A word of the message after the last is written.
    fn fill(&mut self, at: usize, word: i128)
        ensures { self.new ≡ with_word self.old self.old.count at word }
    {
        let slot = self.count as usize;
        if slot < self.slots.len() && at < self.slots[slot].len() {
            self.slots[slot].set(at, word);
        }
    }
}

impl Own {
    /// The task takes a message, to its private words from an address on.
    pub fn take(&mut self, at: usize, message: &[i128])
        requires within { at + length message.now ≤ length self.old.words }
        requires place { self.old.place + 1 < 2 ^ 64 }
        ensures { self.new ≡ with_message at self.old message.now }
    {
        prove!(message.len() <= self.words.len());
        let end = at + message.len();
        self.words[at..end].copy_from_slice(message);
        self.place += 1;
    }

    /// The task has locked a monitor, and has its words.
    pub fn lock(&mut self, monitor: u32, words: Items<i128>)
        requires { self.old.place + 1 < 2 ^ 64 }
        ensures { self.new ≡ with_lock_of monitor self.old words }
    {
        self.held = Some(Held { monitor, words });
        self.place += 1;
    }

    /// The task gives back the lock that it holds, with the monitor's words.
    pub fn unlock(&mut self) -> Option<(u32, Items<i128>)>
        requires { self.old.place + 1 < 2 ^ 64 }
        ensures held { result ≡ option_map (λ h. (h.monitor, h.words)) self.old.held }
        ensures part { self.new ≡ without_held self.old }
    {
        self.place += 1;
        match self.held.take() {
            Some(held) => Some(held.into_parts()),
            None => None,
        }
    }

    /// The private words.
    pub fn words(&self) -> &[i128]
        ensures { result.now ≡ self.now.words }
    {
        self.words.as_slice()
    }
}

impl Held {
    fn into_parts(self) -> (u32, Items<i128>)
        ensures monitor { result.0 ≡ self.monitor }
        ensures words { result.1 ≡ self.words }
    {
        let Held { monitor, words } = self;
        (monitor, words)
    }
}

impl Own {
    /// A task's own part at the start: all words and counts are 0.
    pub fn new(alloc: Global, task: &Task) -> Result<Own, NoMemory>
        ensures { IfOk result (λ own. own ≡ first_own task.now) }
    {
        Ok(Own {
            place: 0,
            words: zeros(alloc, task.room as usize)?,
            stack: ArrayVec::new(),
            calls: ArrayVec::new(),
            buffers: first_buffers(alloc, task.buffers.as_slice())?,
            held: None,
        })
    }
}

impl Filled {
    /// A buffer that holds no message.
    pub fn new(alloc: Global, buffer: &Buffer) -> Result<Filled, NoMemory>
        ensures { IfOk result (λ f. f ≡ empty_buffer buffer.now) }
    {
        Ok(Filled {
            count: 0,
            slots: zero_slots(alloc, buffer)?,
        })
    }
}
