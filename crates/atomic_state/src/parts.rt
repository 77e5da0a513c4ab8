//! The parts of a state, and what a mark finds there.
ghost use Rattle.std.specs.Prelude.{◌≡◌, ◌||◌, not, Some, slice_get, slice_index_or};
ghost use Rattle.tower_syntax.specs.Arrival.{is_init};
ghost use Rattle.tower_syntax.specs.declared.arch.SourceKind.TheVariants as kind;
ghost use Rattle.tower_meaning.specs.Atomic.{are_inits_done, is_none_left};
ghost use Rattle.atomic_state.specs.Queues.{waiting_of};
ghost use Rattle.atomic_state.specs.StateView.{atomic_of, pending_of};
ghost use Rattle.atomic_state.specs.Step.{can_take, first_listener};

use crate::queue::Queue;
use crate::tree::Tree;
use tower_syntax::{Listener, SourceKind};
use tower_types::Value;

/// What came of a mark.
#[derive(Clone, Copy, Debug, PartialEq, Eq)]
pub enum AtomicStep {
    Done,
    /// The mark has no step. Nothing changed.
    Misfit,
    /// There was no memory. Nothing changed.
    NoMemory,
}

/// The parts of a state: each monitor's value, each source's queue and pending list, the outputs so far, the place in
/// the event record and the number of ticks before it. A pending list has its first item last.
#[derive(Drop)]
pub struct Parts {
    pub monitors: Vec<Tree>,
    pub queues: Vec<Queue>,
    pub pending: Vec<Vec<(Listener, Value)>>,
    pub outputs: Vec<(u32, Value)>,
    pub place: usize,
    pub ticks: u64,
}

/// Whether a source has nothing pending and a message that waits.
pub fn can_take(parts: &Parts, x: usize) -> bool
    ensures { result ≡ can_take (slice_get (atomic_of parts.now).pending x) (slice_get (atomic_of parts.now).queues x) }
{
    if x >= parts.pending.len() || x >= parts.queues.len() {
        return false;
    }
    is_free(&parts.queues[x], parts.pending[x].as_slice())
}

/// Whether a message waits and nothing is pending.
fn is_free(queue: &Queue, pending: &[(Listener, Value)]) -> bool
    ensures { result ≡ can_take (Some (pending_of pending.now)) (Some (waiting_of queue.now)) }
{
    if !pending.is_empty() {
        return false;
    }
    !queue.waiting.is_empty()
}

/// Whether a source is no initialisation, or has an empty queue and nothing pending.
fn is_settled(kind: SourceKind, queue: &Queue, pending: &[(Listener, Value)]) -> bool
    ensures { result ≡ (not (is_init kind) || is_none_left (waiting_of queue.now) (pending_of pending.now)) }
{
    if kind != SourceKind::Init {
        return true;
    }
    if !queue.waiting.is_empty() {
        return false;
    }
    pending.is_empty()
}

/// Whether each initialisation has an empty queue and nothing pending.
fn are_inits_done(kinds: &[SourceKind], parts: &Parts) -> bool
    ensures { result ≡ are_inits_done kinds.now (atomic_of parts.now).queues (atomic_of parts.now).pending }
{
    let count = kinds.len().min(parts.queues.len()).min(parts.pending.len());
    for x in 0..count {
        if !is_settled(kinds[x], &parts.queues[x], parts.pending[x].as_slice()) {
            return false;
        }
    }
    true
}

/// The handler or output of a source's first pending item.
pub fn first_listener(parts: &Parts, x: usize) -> Option<Listener>
    ensures { result ≡ first_listener (slice_get (atomic_of parts.now).pending x) }
{
    if x >= parts.pending.len() {
        return None;
    }
    match parts.pending[x].as_slice().last() {
        Some((listener, _)) => Some(*listener),
        None => None,
    }
}

/// Whether a source may start: it is an initialisation, or all initialisation has ended.
pub fn may_start(kinds: &[SourceKind], parts: &Parts, x: usize) -> bool
    ensures { result ≡ (is_init (slice_index_or kinds.now x kind.Signal) || are_inits_done kinds.now (atomic_of parts.now).queues (atomic_of parts.now).pending) }
{
    is_init(kinds, x) || are_inits_done(kinds, parts)
}

fn is_init(kinds: &[SourceKind], x: usize) -> bool
    ensures { result ≡ is_init (slice_index_or kinds.now x kind.Signal) }
{
    if x < kinds.len() {
        kinds[x] == SourceKind::Init
    } else {
        false
    }
}
