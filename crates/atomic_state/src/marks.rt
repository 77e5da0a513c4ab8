//! The four marks.
ghost use Rattle.std.specs.Prelude.{◌≡◌, ◌<◌, ◌+◌, ◌^◌, List, ◌∷◌, IfOk, OnOk, OnErr, Some, fold, length, map, slice_get, take};
ghost use Rattle.tower_types.specs.Value.{Value as ValueTree};
ghost use Rattle.tower_types.specs.View.{value_of};
ghost use Rattle.tower_syntax.specs.Arrival.{brought_by_tick, ticks};
ghost use Rattle.tower_syntax.specs.View.{entry_of, events_of};
ghost use Rattle.tower_syntax.specs.declared.arch.On.TheVariants as on;
ghost use Rattle.tower_syntax.specs.declared.arch.Listener.TheVariants as to;
ghost use Rattle.tower_syntax.specs.Typed.{IsTyped};
ghost use Rattle.tower_meaning.specs.Atomic as meaning;
ghost use Rattle.tower_meaning.specs.System.{System, items, system_of};
ghost use Rattle.atomic_state.specs.Fitting.{FitsState, NamesQueue};
ghost use Rattle.atomic_state.specs.Queues.{waiting_of};
ghost use Rattle.atomic_state.specs.StateView.{atomic_of, kept_of, moved_on, pending_of};
ghost use Rattle.atomic_state.specs.Step.{Steps, first_listener};

use crate::arrive::{bring, bring_tick, make_room};
use crate::handle::add_items;
use crate::parts::{AtomicStep, Parts, can_take, first_listener, may_start};
use crate::queue::Queue;
use crate::work::handle;
use channel_graph::subscribers;
use std::alloc::Global;
use tower_syntax::{Arch, Entry, Events, Listener, On};
use tower_types::{NoMemory, Value};

// ---- an entry arrives

/// A tick arrives.
fn arrive_tick(events: &Events, parts: &mut Parts) -> Result<(), NoMemory>
    requires place { parts.old.place + 1 < 2 ^ 64 }
    requires sources { length events.now.kinds ≡ length parts.old.queues.items }
    ensures ok { OnOk result ((system : System) → system.depths ≡ events.now.depths →
        atomic_of parts.new ≡ fold (meaning.bring system) (moved_on (atomic_of parts.old)) (brought_by_tick (parts.old.ticks + 1) 0 events.now.kinds)) }
    ensures ticks { OnOk result (parts.new.ticks ≡ parts.old.ticks + 1) }
    ensures place { OnOk result (parts.new.place ≡ parts.old.place + 1) }
    ensures err { OnErr result (kept_of parts.new ≡ kept_of parts.old) }
{
    let ticks = parts.ticks.checked_add(1).ok_or(NoMemory)?;
    make_room(&mut parts.queues)?;
    bring_tick(
        events.kinds.as_slice(),
        events.depths.as_slice(),
        ticks,
        &mut parts.queues,
    );
    parts.ticks = ticks;
    parts.place += 1;
    Ok(())
}

/// A value arrives for signal `x`.
fn arrive_signal(
    alloc: Global,
    events: &Events,
    parts: &mut Parts,
    x: usize,
    value: &Value,
) -> Result<(), NoMemory>
    requires place { parts.old.place + 1 < 2 ^ 64 }
    requires source { x < length parts.old.queues.items }
    ensures ok { OnOk result ((system : System) → system.depths ≡ events.now.depths →
        atomic_of parts.new ≡ meaning.bring system (moved_on (atomic_of parts.old)) (x, value_of value.now)) }
    ensures ticks { parts.new.ticks ≡ parts.old.ticks }
    ensures place { OnOk result (parts.new.place ≡ parts.old.place + 1) }
    ensures err { OnErr result (kept_of parts.new ≡ kept_of parts.old) }
{
    let value = value.copy(alloc)?;
    make_room(&mut parts.queues)?;
    bring(events.depths.as_slice(), &mut parts.queues, x, value);
    parts.place += 1;
    Ok(())
}

fn arrive_next(alloc: Global, events: &Events, parts: &mut Parts) -> Result<(), NoMemory>
    requires more { parts.old.place < length events.now.entries }
    requires sources { length events.now.kinds ≡ length parts.old.queues.items }
    requires signals { NamesQueue (length parts.old.queues.items) (slice_get (map entry_of events.now.entries) parts.old.place) }
    requires counted { parts.old.ticks ≡ ticks (take parts.old.place (map entry_of events.now.entries)) }
    ensures ok { OnOk result ((system : System) → system.kinds ≡ events.now.kinds → system.depths ≡ events.now.depths →
        meaning.arrive system (events_of events.now) (atomic_of parts.old) (slice_get (map entry_of events.now.entries) parts.old.place) ≡ Some (atomic_of parts.new)) }
    ensures counted { OnOk result (parts.new.ticks ≡ ticks (take parts.new.place (map entry_of events.now.entries))) }
    ensures err { OnErr result (kept_of parts.new ≡ kept_of parts.old) }
{
    match &events.entries.as_slice()[parts.place] {
        Entry::Tick => arrive_tick(events, parts)?,
        Entry::Signal(x, value) => arrive_signal(alloc, events, parts, *x as usize, value)?,
    }
    Ok(())
}

/// The next entry of the record arrives.
pub fn arrive(alloc: Global, events: &Events, parts: &mut Parts) -> AtomicStep
    requires sources { length events.now.kinds ≡ length parts.old.queues.items }
    requires signals { NamesQueue (length parts.old.queues.items) (slice_get (map entry_of events.now.entries) parts.old.place) }
    requires counted { parts.old.ticks ≡ ticks (take parts.old.place (map entry_of events.now.entries)) }
    ensures steps { (system : System) → system.kinds ≡ events.now.kinds → system.depths ≡ events.now.depths → Steps (atomic_of parts.old)
        (meaning.arrive system (events_of events.now) (atomic_of parts.old) (slice_get (map entry_of events.now.entries) parts.old.place)) result (atomic_of parts.new) }
    ensures counted { parts.new.ticks ≡ ticks (take parts.new.place (map entry_of events.now.entries)) }
{
    if parts.place >= events.entries.len() {
        return AtomicStep::Misfit;
    }
    match arrive_next(alloc, events, parts) {
        Ok(()) => AtomicStep::Done,
        Err(_) => AtomicStep::NoMemory,
    }
}

// ---- a source takes a message

/// An item for each subscriber of a source, with the message, the first one last.
fn items_for(
    alloc: Global,
    arch: &Arch,
    x: u32,
    message: &Value,
) -> Result<Vec<(Listener, Value)>, NoMemory>
    ensures { IfOk result (λ is. pending_of is.items ≡ items arch.now (on.Source x) (value_of message.now)) }
{
    let listeners = subscribers(alloc, arch, On::Source(x))?;
    let mut items = Vec::new(alloc);
    add_items(alloc, listeners.as_slice(), message, &mut items)?;
    items.reverse();
    Ok(items)
}

/// Those of a source's oldest message.
fn first_items(
    alloc: Global,
    arch: &Arch,
    x: u32,
    queue: &Queue,
) -> Result<Vec<(Listener, Value)>, NoMemory>
    ensures { IfOk result (λ is. (v : ValueTree) → (rest : List ValueTree) → waiting_of queue.now ≡ v ∷ rest → pending_of is.items ≡ items arch.now (on.Source x) v) }
{
    match queue.waiting.front() {
        Some(message) => {
            let items = items_for(alloc, arch, x, message)?;
            Ok(items)
        }
        None => Ok(Vec::new(alloc)),
    }
}

/// A source takes its oldest message.
pub fn begin(alloc: Global, arch: &Arch, events: &Events, parts: &mut Parts, x: u32) -> AtomicStep
    requires { (system_of arch.now).kinds ≡ events.now.kinds }
    ensures steps { Steps (atomic_of parts.old)
        (meaning.begin (system_of arch.now) (atomic_of parts.old) x (slice_get (atomic_of parts.old).pending x) (slice_get (atomic_of parts.old).queues x)) result (atomic_of parts.new) }
    ensures place { parts.new.place ≡ parts.old.place }
    ensures ticks { parts.new.ticks ≡ parts.old.ticks }
{
    let source = x as usize;
    if !can_take(parts, source) || !may_start(events.kinds.as_slice(), parts, source) {
        return AtomicStep::Misfit;
    }
    match first_items(alloc, arch, x, &parts.queues[source]) {
        Ok(items) => {
            parts.queues[source].take();
            parts.pending[source] = items;
            AtomicStep::Done
        }
        Err(_) => AtomicStep::NoMemory,
    }
}

// ---- a source's first pending item

/// A source's first pending handler runs.
pub fn run(alloc: Global, arch: &Arch, parts: &mut Parts, x: u32) -> AtomicStep
    requires typed { IsTyped arch.now }
    requires fits { FitsState arch.now (atomic_of parts.old) }
    ensures steps { Steps (atomic_of parts.old)
        (meaning.run (system_of arch.now) (atomic_of parts.old) x (slice_get (atomic_of parts.old).pending x)) result (atomic_of parts.new) }
    ensures place { parts.new.place ≡ parts.old.place }
    ensures ticks { parts.new.ticks ≡ parts.old.ticks }
{
    let source = x as usize;
    match first_listener(parts, source) {
        Some(Listener::Handler(h)) => handle(alloc, arch, parts, source, h),
        Some(Listener::Output(_)) => AtomicStep::Misfit,
        None => AtomicStep::Misfit,
    }
}

/// Puts a source's first pending item, which is an output, to the outputs.
fn put_first(parts: &mut Parts, x: usize, o: u32) -> AtomicStep
    requires { first_listener (slice_get (atomic_of parts.old).pending x) ≡ Some (to.Output o) }
    ensures steps { Steps (atomic_of parts.old) (meaning.put (atomic_of parts.old) x (slice_get (atomic_of parts.old).pending x)) result (atomic_of parts.new) }
    ensures place { parts.new.place ≡ parts.old.place }
    ensures ticks { parts.new.ticks ≡ parts.old.ticks }
{
    if parts.outputs.reserve(1).is_err() {
        return AtomicStep::NoMemory;
    }
    match parts.pending[x].pop() {
        Some((_, message)) => {
            parts.outputs.push_reserved((o, message));
            AtomicStep::Done
        }
        None => AtomicStep::Misfit,
    }
}

/// A source's first pending output is made.
pub fn put(parts: &mut Parts, x: u32) -> AtomicStep
    ensures steps { Steps (atomic_of parts.old) (meaning.put (atomic_of parts.old) x (slice_get (atomic_of parts.old).pending x)) result (atomic_of parts.new) }
    ensures place { parts.new.place ≡ parts.old.place }
    ensures ticks { parts.new.ticks ≡ parts.old.ticks }
{
    let source = x as usize;
    match first_listener(parts, source) {
        Some(Listener::Output(o)) => put_first(parts, source, o),
        Some(Listener::Handler(_)) => AtomicStep::Misfit,
        None => AtomicStep::Misfit,
    }
}
