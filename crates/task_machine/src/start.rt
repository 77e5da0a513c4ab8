ghost use Rattle.std.specs.Prelude.{◌≡◌, ℕ, ◌+◌, ◌≤◌, ◌<◌, ℤ, true, pos, [], ◌∷◌, All, IfOk, Some, None, length, map, replicate, slice_get};
ghost use Rattle.tower_syntax.specs.Arch.{Entry as EntryOf};
ghost use Rattle.tower_syntax.specs.View.{entry_of};
ghost use Rattle.task_code.specs.Own.{Own as OwnPart, Filled as FilledBuffer, empty_buffer, first_own, held_monitor};
ghost use Rattle.task_code.specs.Machine.{Free, first_queue};
ghost use Rattle.task_machine.specs.Queue.{Queue as SourceQueue, capped, empty, with_more};
ghost use Rattle.task_machine.specs.Brought.{depth_at, kind_in};
ghost use Rattle.task_machine.specs.Kept.{coming, signals};
ghost use Rattle.task_machine.specs.Start.{IsShallow, Starts};

use crate::arrival::{depth_of, is_due};
use crate::lock::Lock;
use crate::own::{Filled, Own};
use crate::queue::Queue;
use sqlite_items::Items;
use std::alloc::Global;
use std::collections::VecDeque;
use task_code::{Buffer, Task};
use tower_syntax::{Entry, SourceKind};
use tower_types::{NoMemory, flatten};

/// So many words 0.
pub fn zeros(alloc: Global, n: usize) -> Result<Vec<i128>, NoMemory>
    ensures { IfOk result (λ ws. ws.items ≡ replicate n (pos 0)) }
{
    Ok(vec![in alloc; 0; n]?)
}

/// So many tasks that hold no lock.
pub fn no_locks(alloc: Global, n: usize) -> Result<Vec<Option<u32>>, NoMemory>
    ensures { IfOk result (λ holds. holds.items ≡ replicate n None) }
{
    Ok(vec![in alloc; None; n]?)
}

/// The slots of a buffer, with all words 0.
pub fn zero_slots(alloc: Global, buffer: &Buffer) -> Result<Vec<Items<i128>>, NoMemory>
    ensures { IfOk result (λ slots. slots.items ≡ replicate buffer.now.bound (replicate buffer.now.width (pos 0))) }
{
    let mut slots = Vec::new(alloc);
    for _ in 0..buffer.bound {
        let words = zeros(alloc, buffer.width as usize)?;
        slots.push(Items::from_vec(words))?;
    }
    Ok(slots)
}

/// The buffers of a task, which hold no message.
pub fn first_buffers(alloc: Global, buffers: &[Buffer]) -> Result<Vec<Filled>, NoMemory>
    ensures { IfOk result (λ bs. bs.items ≡ map empty_buffer buffers.now) }
{
    let mut filled = Vec::new(alloc);
    for buffer in buffers {
        filled.push(Filled::new(alloc, buffer)?)?;
    }
    Ok(filled)
}

/// Each task's own part at the start.
pub fn first_parts(alloc: Global, tasks: &[Task]) -> Result<Vec<Own>, NoMemory>
    ensures { IfOk result (λ owns. owns.items ≡ map first_own tasks.now) }
{
    let mut parts = Vec::new(alloc);
    for task in tasks {
        parts.push(Own::new(alloc, task)?)?;
    }
    Ok(parts)
}

/// The lock of each monitor, which is free and has words 0.
pub fn first_locks(alloc: Global, monitors: &[u32]) -> Result<Vec<Lock>, NoMemory>
    ensures { IfOk result (λ locks. locks.items ≡ map (λ n. Free (replicate n (pos 0))) monitors.now) }
{
    let mut locks = Vec::new(alloc);
    for words in monitors {
        let words = zeros(alloc, *words as usize)?;
        locks.push(Lock::free(Items::from_vec(words)))?;
    }
    Ok(locks)
}

/// The messages of the signals.
pub fn signal_messages(alloc: Global, entries: &[Entry]) -> Result<VecDeque<Items<i128>>, NoMemory>
    requires { All IsShallow (map entry_of entries.now) }
    ensures { IfOk result (λ ms. ms.items ≡ signals (map entry_of entries.now)) }
{
    let mut messages = VecDeque::new(alloc);
    for entry in entries {
        match entry {
            Entry::Tick => {}
            Entry::Signal(_, value) => {
                let words = flatten(alloc, value)?;
                messages.push_back(Items::from_vec(words))?;
            }
        }
    }
    Ok(messages)
}

/// How many messages the entries bring to a source.
fn count_coming(kind: SourceKind, x: usize, entries: &[Entry]) -> usize
    ensures { result ≡ coming kind x 0 (map entry_of entries.now) }
{
    let mut ticks = 0;
    let mut count = 0;
    for entry in entries {
        match entry {
            Entry::Tick => {
                ticks += 1;
                if is_due(ticks, kind) {
                    count += 1;
                }
            }
            Entry::Signal(y, _) => {
                if *y as usize == x {
                    count += 1;
                }
            }
        }
    }
    count
}

/// The queue of a source, with room for all messages that will ever wait in it.
fn first_queue(
    alloc: Global,
    kind: SourceKind,
    depth: Option<u32>,
    x: usize,
    entries: &[Entry],
) -> Result<Queue, NoMemory>
    ensures { IfOk result (Starts kind depth (coming kind x 0 (map entry_of entries.now))) }
{
    let count = count_coming(kind, x, entries)
        .checked_add(1)
        .ok_or(NoMemory)?;
    match kind {
        SourceKind::Init => init_queue(alloc, count),
        SourceKind::Period(_) => Queue::numbers(alloc, at_most(depth, count)),
        SourceKind::Signal => Queue::words(alloc, at_most(depth, count)),
    }
}

/// The queue of an initialisation, in which its one message waits.
fn init_queue(alloc: Global, room: usize) -> Result<Queue, NoMemory>
    requires { 0 < room }
    ensures { IfOk result (λ q. q ≡ with_more (empty room true) (pos 0 ∷ [])) }
{
    let mut queue = Queue::numbers(alloc, room)?;
    queue.push_number(0);
    Ok(queue)
}

fn at_most(depth: Option<u32>, count: usize) -> usize
    ensures { result ≡ capped depth count }
{
    match depth {
        Some(depth) => count.min(depth as usize),
        None => count,
    }
}

/// The queue of each source.
pub fn first_queues(
    alloc: Global,
    kinds: &[SourceKind],
    depths: &[Option<u32>],
    entries: &[Entry],
) -> Result<Vec<Queue>, NoMemory>
    ensures count { IfOk result (λ qs. length qs.items ≡ length kinds.now) }
    ensures queues { IfOk result (λ qs. (x : ℕ) → (q : SourceQueue) → slice_get qs.items x ≡ Some q → Starts (kind_in kinds.now x) (depth_at depths.now x) (coming (kind_in kinds.now x) x 0 (map entry_of entries.now)) q) }
{
    let mut queues = Vec::new(alloc);
    for x in 0..kinds.len() {
        let queue = first_queue(alloc, kinds[x], depth_of(depths, x), x, entries)?;
        queues.push(queue)?;
    }
    Ok(queues)
}
