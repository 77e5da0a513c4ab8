//! A handler at work on a state.
ghost use Rattle.std.specs.Prelude.{◌≡◌, ◌<◌, ◌≤◌, ◌+◌, ◌∷◌, ◌++◌, List, IfOk, Some, drop, fold, length, map, slice_get, vec_capacity, vec_len};
ghost use Rattle.tower_types.specs.Ty.{table_of};
ghost use Rattle.tower_types.specs.Value.{Value as ValueTree};
ghost use Rattle.tower_types.specs.View.{value_of};
ghost use Rattle.tower_syntax.specs.View.{body_of, emitter_of, handler_of};
ghost use Rattle.tower_syntax.specs.WellNumbered.{IsNumberedHandler};
ghost use Rattle.tower_syntax.specs.Typed.{IsTyped};
ghost use Rattle.tower_syntax.specs.declared.arch.Listener.TheVariants as to;
ghost use Rattle.tower_meaning.specs.Atomic as meaning;
ghost use Rattle.tower_meaning.specs.Body.{after_callback};
ghost use Rattle.tower_meaning.specs.System.{Item, follow_from, system_of};
ghost use Rattle.atomic_state.specs.Fitting.{FitsState};
ghost use Rattle.atomic_state.specs.Items.{CanHandle, effect_in, item_of};
ghost use Rattle.atomic_state.specs.StateView.{atomic_of, pending_of};
ghost use Rattle.atomic_state.specs.Step.{Steps, first_listener};
ghost use Rattle.atomic_state.specs.TreeView.{tree_of};

use crate::draft::Draft;
use crate::frame::Frame;
use crate::handle::{call_all, empty_lists, follow};
use crate::parts::{AtomicStep, Parts};
use crate::tree::Tree;
use sqlite_items::Items;
use std::alloc::Global;
use std::mem::replace;
use tower_syntax::{Arch, Handler, Listener};
use tower_types::{NoMemory, Value};

/// A frame for a handler whose monitor has this value.
fn new_frame(alloc: Global, value: Tree, lists: Vec<Items<Value>>) -> Frame
    ensures value { result.states.value ≡ tree_of value }
    ensures before { result.states.before ≡ tree_of value }
    ensures lists { result.lists ≡ lists }
{
    Frame {
        message: Tree::Word(0),
        binders: Vec::new(alloc),
        states: Draft::new(value, Vec::new(alloc)),
        lists,
    }
}

/// The monitor's value that a frame has come to.
fn finish(frame: Frame) -> Tree
    ensures { tree_of result ≡ frame.states.value }
{
    let Frame {
        message: _,
        binders: _,
        states,
        lists: _,
    } = frame;
    states.finish()
}

/// The monitor's value that a frame began with.
fn undo(frame: Frame) -> Tree
    ensures { tree_of result ≡ frame.states.before }
{
    let Frame {
        message: _,
        binders: _,
        states,
        lists: _,
    } = frame;
    states.undo()
}

/// Runs a handler on the message of the last of these items, and answers what follows, for which there is room then.
fn carry_out(
    alloc: Global,
    arch: &Arch,
    handler: &Handler,
    pending: &mut Vec<(Listener, Value)>,
    frame: &mut Frame,
) -> Result<Vec<(Listener, Value)>, NoMemory>
    requires numbered { IsNumberedHandler arch.now (handler_of handler.now) }
    requires some { 0 < vec_len pending.old }
    ensures effect { IfOk result (λ is. (i : Item) → (rest : List Item) → pending_of pending.old.items ≡ i ∷ rest → CanHandle arch.now (handler_of handler.now) i.1 (effect_in frame.old) →
        effect_in frame.new ≡ fold (after_callback (table_of arch.now.records) i.1) (effect_in frame.old) (map body_of handler.now.callbacks)) }
    ensures follows { IfOk result (λ is. map item_of is.items ≡ follow_from arch.now (map emitter_of handler.now.emitters) (effect_in frame.new).lists) }
    ensures room { IfOk result (λ is. vec_len pending.new + vec_len is ≤ vec_capacity pending.new) }
    ensures before { frame.new.states.before ≡ frame.old.states.before }
    ensures pending { pending.new.items ≡ pending.old.items }
{
    let (_, message) = &pending[pending.len() - 1];
    call_all(alloc, arch, handler, message, frame)?;
    let items = follow(
        alloc,
        arch,
        handler.emitters.as_slice(),
        frame.lists.as_slice(),
    )?;
    pending.reserve(items.len())?;
    Ok(items)
}

/// Puts items in place of the last one, so that the first of them is the last.
fn put_in_place(pending: &mut Vec<(Listener, Value)>, items: Vec<(Listener, Value)>)
    requires some { 0 < vec_len pending.old }
    requires room { vec_len pending.old + vec_len items ≤ vec_capacity pending.old }
    ensures { pending_of pending.new.items ≡ map item_of items.items ++ drop 1 (pending_of pending.old.items) }
{
    pending.truncate(pending.len() - 1);
    push_all(pending, items);
}

/// Adds items from the last to the first.
fn push_all(pending: &mut Vec<(Listener, Value)>, items: Vec<(Listener, Value)>)
    requires { vec_len pending.old + vec_len items ≤ vec_capacity pending.old }
    ensures { pending_of pending.new.items ≡ map item_of items.items ++ pending_of pending.old.items }
{
    let mut items = items;
    while let Some(item) = items.pop() {
        pending.push_reserved(item);
    }
}

/// Runs the handler of a source's first pending item.
pub fn handle(alloc: Global, arch: &Arch, parts: &mut Parts, x: usize, h: u32) -> AtomicStep
    requires typed { IsTyped arch.now }
    requires fits { FitsState arch.now (atomic_of parts.old) }
    requires first { first_listener (slice_get (atomic_of parts.old).pending x) ≡ Some (to.Handler h) }
    ensures steps { Steps (atomic_of parts.old)
        (meaning.run (system_of arch.now) (atomic_of parts.old) x (slice_get (atomic_of parts.old).pending x)) result (atomic_of parts.new) }
    ensures place { parts.new.place ≡ parts.old.place }
    ensures ticks { parts.new.ticks ≡ parts.old.ticks }
{
    let handler = arch.handler(h);
    let m = handler.monitor as usize;
    let Ok(lists) = empty_lists(alloc, handler.emitters.len()) else {
        return AtomicStep::NoMemory;
    };
    let value = replace(&mut parts.monitors[m], Tree::Word(0));
    let mut frame = new_frame(alloc, value, lists);
    match carry_out(alloc, arch, handler, &mut parts.pending[x], &mut frame) {
        Ok(items) => {
            parts.monitors[m] = finish(frame);
            put_in_place(&mut parts.pending[x], items);
            AtomicStep::Done
        }
        Err(_) => {
            parts.monitors[m] = undo(frame);
            AtomicStep::NoMemory
        }
    }
}
