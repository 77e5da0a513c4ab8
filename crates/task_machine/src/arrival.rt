ghost use Rattle.std.specs.Prelude.{◌≡◌, ℕ, suc, ◌+◌, ◌<◌, ◌≤◌, ◌^◌, pos, [], ◌∷◌, fold, drop, length, slice_get, true, false, Some};
ghost use Rattle.tower_syntax.specs.Arrival.{is_due, divides};
ghost use Rattle.task_code.specs.Machine.{Machine, bring as machine_after};
ghost use Rattle.task_machine.specs.Message.{said_words, is_number};
ghost use Rattle.task_machine.specs.Queue.{Queue as SourceQueue};
ghost use Rattle.task_machine.specs.Brought.{with_queues, depth_at, kind_in, CanBring, Brought, tick_messages};

use crate::message::Message;
use crate::queue::Queue;
use tower_syntax::SourceKind;

/// A message comes to a source. Where the queue is full it is dropped and counted.
pub fn bring(depths: &[Option<u32>], queues: &mut Vec<Queue>, x: usize, message: Message)
    requires source { x < length queues.old.items }
    requires room { (q : SourceQueue) → slice_get queues.old.items x ≡ Some q → CanBring (depth_at depths.now x) (is_number message) q }
    ensures machine { (m : Machine) → with_queues m queues.new.items ≡ machine_after depths.now (with_queues m queues.old.items) (x, said_words message) }
    ensures brought { (q : SourceQueue) → (r : SourceQueue) → slice_get queues.old.items x ≡ Some q → slice_get queues.new.items x ≡ Some r → Brought (depth_at depths.now x) (said_words message) q r }
    ensures others { (y : ℕ) → (y ≡ x → ⊥) → slice_get queues.new.items y ≡ slice_get queues.old.items y }
    ensures count { length queues.new.items ≡ length queues.old.items }
{
    let depth = depth_of(depths, x);
    queues[x].bring(depth, message);
}

/// The depth of a source's queue.
pub fn depth_of(depths: &[Option<u32>], x: usize) -> Option<u32>
    ensures { result ≡ depth_at depths.now x }
{
    if x < depths.len() { depths[x] } else { None }
}

/// The `k`-th tick comes: to each period that it is due for it brings its number.
pub fn bring_tick(kinds: &[SourceKind], depths: &[Option<u32>], k: u64, queues: &mut Vec<Queue>)
    requires sources { length kinds.now ≡ length queues.old.items }
    requires room { (x : ℕ) → (q : SourceQueue) → slice_get queues.old.items x ≡ Some q → is_due k (kind_in kinds.now x) ≡ true → CanBring (depth_at depths.now x) true q }
    ensures machine { (m : Machine) → with_queues m queues.new.items ≡ fold (machine_after depths.now) (with_queues m queues.old.items) (tick_messages kinds.now k 0) }
    ensures brought { (x : ℕ) → (q : SourceQueue) → (r : SourceQueue) → slice_get queues.old.items x ≡ Some q → slice_get queues.new.items x ≡ Some r → is_due k (kind_in kinds.now x) ≡ true → Brought (depth_at depths.now x) (pos k ∷ []) q r }
    ensures others { (x : ℕ) → is_due k (kind_in kinds.now x) ≡ false → slice_get queues.new.items x ≡ slice_get queues.old.items x }
    ensures count { length queues.new.items ≡ length queues.old.items }
{
    for x in 0..kinds.len() {
        if is_due(k, kinds[x]) {
            bring(depths, queues, x, Message::Number(k));
        }
    }
}

/// Does the `k`-th tick bring a message to a source of this kind.
pub fn is_due(k: u64, kind: SourceKind) -> bool
    ensures { result ≡ is_due k kind }
{
    match kind {
        SourceKind::Init => false,
        SourceKind::Period(ms) => divides(ms, k),
        SourceKind::Signal => false,
    }
}

fn divides(ms: u32, k: u64) -> bool
    ensures { result ≡ divides ms k }
{
    if ms == 0 {
        k == 0
    } else {
        k % u64::from(ms) == 0
    }
}
