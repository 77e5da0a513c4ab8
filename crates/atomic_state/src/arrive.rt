//! What an entry of the event record brings.
ghost use Rattle.std.specs.Prelude.{◌≡◌, ◌<◌, ℕ, length, map, fold, pos, slice_index_or, slice_get, Some, None, OnOk};
ghost use Rattle.tower_types.specs.Value.{word};
ghost use Rattle.tower_types.specs.View.{value_of};
ghost use Rattle.tower_syntax.specs.Arrival.{brought_by_tick, divides, is_due};
ghost use Rattle.tower_meaning.specs.Atomic.{Atomic, bring};
ghost use Rattle.tower_meaning.specs.System.{System};
ghost use Rattle.atomic_state.specs.declared.queue.Queue.{Queue as QueueValue};
ghost use Rattle.atomic_state.specs.Queues.{HasRoom, HaveRoom, waiting_of, with_queues};

use crate::queue::Queue;
use tower_syntax::SourceKind;
use tower_types::{NoMemory, Value};

fn divides(ms: u32, k: u64) -> bool
    ensures { result ≡ divides ms k }
{
    if ms == 0 {
        k == 0
    } else {
        k % u64::from(ms) == 0
    }
}

/// Whether the `k`-th tick brings a message to a source of this kind.
fn is_due(k: u64, kind: SourceKind) -> bool
    ensures { result ≡ is_due k kind }
{
    match kind {
        SourceKind::Init => false,
        SourceKind::Period(ms) => divides(ms, k),
        SourceKind::Signal => false,
    }
}

fn depth_of(depths: &[Option<u32>], x: usize) -> Option<u32>
    ensures { result ≡ slice_index_or depths.now x None }
{
    if x < depths.len() { depths[x] } else { None }
}

/// The message of the `k`-th tick.
fn number(k: u64) -> Value
    ensures { value_of result ≡ word (pos k) }
{
    Value::Word(i128::from(k))
}

/// Makes room for one message in each queue.
pub fn make_room(queues: &mut Vec<Queue>) -> Result<(), NoMemory>
    ensures waiting { map waiting_of queues.new.items ≡ map waiting_of queues.old.items }
    ensures lost { map (λ q. q.lost) queues.new.items ≡ map (λ q. q.lost) queues.old.items }
    ensures room { OnOk result (HaveRoom queues.new.items) }
{
    for x in 0..queues.len() {
        queues[x].make_room()?;
    }
    Ok(())
}

/// A message comes to source `x`.
pub fn bring(depths: &[Option<u32>], queues: &mut Vec<Queue>, x: usize, message: Value)
    requires source { x < length queues.old.items }
    requires room { (q : QueueValue) → slice_get queues.old.items x ≡ Some q → HasRoom q }
    ensures state { (system : System) (s : Atomic) → system.depths ≡ depths.now →
        with_queues s queues.new.items ≡ bring system (with_queues s queues.old.items) (x, value_of message) }
    ensures others { (y : ℕ) → (y ≡ x → ⊥) → slice_get queues.new.items y ≡ slice_get queues.old.items y }
    ensures count { length queues.new.items ≡ length queues.old.items }
{
    let depth = depth_of(depths, x);
    queues[x].bring(depth, message);
}

/// The `k`-th tick comes: it brings its number to each period that it is due for.
pub fn bring_tick(kinds: &[SourceKind], depths: &[Option<u32>], k: u64, queues: &mut Vec<Queue>)
    requires sources { length kinds.now ≡ length queues.old.items }
    requires room { HaveRoom queues.old.items }
    ensures { (system : System) (s : Atomic) → system.depths ≡ depths.now →
        with_queues s queues.new.items ≡ fold (bring system) (with_queues s queues.old.items) (brought_by_tick k 0 kinds.now) }
{
    for x in 0..kinds.len() {
        if is_due(k, kinds[x]) {
            bring(depths, queues, x, number(k));
        }
    }
}
