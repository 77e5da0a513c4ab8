//! The parts of a state before any mark.
ghost use Rattle.std.specs.Prelude.{◌≡◌, [], All, IfOk, length, map};
ghost use Rattle.tower_types.specs.Records.{IsTypeAmong};
ghost use Rattle.tower_types.specs.View.{fields_of};
ghost use Rattle.tower_syntax.specs.View.{monitor_of};
ghost use Rattle.tower_syntax.specs.WellNumbered.{IsWellNumbered};
ghost use Rattle.tower_meaning.specs.Atomic.{first_queue, start};
ghost use Rattle.tower_meaning.specs.System.{system_of, zero_monitor};
ghost use Rattle.atomic_state.specs.Queues.{waiting_of};
ghost use Rattle.atomic_state.specs.StateView.{atomic_of, pending_of};
ghost use Rattle.atomic_state.specs.TreeView.{tree_of};

use crate::parts::Parts;
use crate::queue::Queue;
use crate::tree::Tree;
use crate::zero::zero_fields;
use std::alloc::Global;
use tower_syntax::{Arch, Events, Listener, Monitor, SourceKind};
use tower_types::{NoMemory, Value};

/// The zero value of a monitor.
fn zero_monitor(alloc: Global, arch: &Arch, monitor: &Monitor) -> Result<Tree, NoMemory>
    requires { All (λ f. IsTypeAmong (length arch.now.records) f.1) (fields_of monitor.now.states) }
    ensures { IfOk result (λ t. tree_of t ≡ zero_monitor arch.now (monitor_of monitor.now)) }
{
    let states = zero_fields(alloc, arch.records(), monitor.states.as_slice())?;
    Ok(Tree::Parts(states))
}

/// The zero value of each monitor.
fn zero_monitors(alloc: Global, arch: &Arch) -> Result<Vec<Tree>, NoMemory>
    ensures zeros { IfOk result (λ ms. map tree_of ms.items ≡ (system_of arch.now).zeros) }
    ensures numbered { IsWellNumbered arch.now }
{
    let mut monitors = Vec::new(alloc);
    for monitor in arch.monitors() {
        let zero = zero_monitor(alloc, arch, monitor)?;
        monitors.push(zero)?;
    }
    Ok(monitors)
}

/// The queue of a source of this kind: an initialisation has one message 0.
fn first_queue(alloc: Global, kind: SourceKind) -> Result<Queue, NoMemory>
    ensures waiting { IfOk result (λ q. waiting_of q ≡ first_queue kind) }
    ensures lost { IfOk result (λ q. q.lost ≡ 0) }
{
    let mut queue = Queue::new(alloc);
    if kind == SourceKind::Init {
        queue.waiting.push_back(Value::Word(0))?;
    }
    Ok(queue)
}

fn first_queues(alloc: Global, kinds: &[SourceKind]) -> Result<Vec<Queue>, NoMemory>
    ensures waiting { IfOk result (λ qs. map waiting_of qs.items ≡ map first_queue kinds.now) }
    ensures lost { IfOk result (λ qs. map (λ q. q.lost) qs.items ≡ map (λ k. 0) kinds.now) }
{
    let mut queues = Vec::new(alloc);
    for kind in kinds {
        let queue = first_queue(alloc, *kind)?;
        queues.push(queue)?;
    }
    Ok(queues)
}

fn no_items(alloc: Global, kinds: &[SourceKind]) -> Result<Vec<Vec<(Listener, Value)>>, NoMemory>
    ensures { IfOk result (λ ps. map (λ items. pending_of items.items) ps.items ≡ map (λ k. []) kinds.now) }
{
    let mut pending = Vec::new(alloc);
    for _kind in kinds {
        pending.push(Vec::new(alloc))?;
    }
    Ok(pending)
}

/// The parts of a state before any mark.
pub fn first_parts(alloc: Global, arch: &Arch, events: &Events) -> Result<Parts, NoMemory>
    requires { events.now.kinds ≡ (system_of arch.now).kinds }
    ensures state { IfOk result (λ parts. atomic_of parts ≡ start (system_of arch.now)) }
    ensures ticks { IfOk result (λ parts. parts.ticks ≡ 0) }
    ensures numbered { IsWellNumbered arch.now }
{
    let monitors = zero_monitors(alloc, arch)?;
    let queues = first_queues(alloc, events.kinds.as_slice())?;
    let pending = no_items(alloc, events.kinds.as_slice())?;
    Ok(Parts {
        monitors,
        queues,
        pending,
        outputs: Vec::new(alloc),
        place: 0,
        ticks: 0,
    })
}
