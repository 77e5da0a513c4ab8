//! What a handler does with its monitor's value and a message, and what follows from it.
ghost use Rattle.std.specs.Prelude.{◌≡◌, [], ◌++◌, ◌+◌, ◌≤◌, All, IfOk, OnOk, flat_map, fold, length, map, replicate, vec_capacity, vec_len};
ghost use Rattle.tower_types.specs.Records.{IsTypeAmong};
ghost use Rattle.tower_types.specs.Ty.{table_of};
ghost use Rattle.tower_types.specs.View.{value_of, fields_of};
ghost use Rattle.tower_syntax.specs.View.{body_of, emitter_of, handler_of};
ghost use Rattle.tower_syntax.specs.WellNumbered.{IsNumberedHandler};
ghost use Rattle.tower_meaning.specs.Body.{after_callback};
ghost use Rattle.tower_meaning.specs.Fitting.{RunsCallback};
ghost use Rattle.tower_meaning.specs.System.{follow_from};
ghost use Rattle.atomic_state.specs.Items.{item_of, effect_in, CanHandle};

use crate::draft::Draft;
use crate::execute::execute_all;
use crate::frame::Frame;
use crate::tree::{Tree, copy_all};
use crate::zero::zero_fields;
use channel_graph::subscribers;
use sqlite_items::Items;
use std::alloc::Global;
use tower_syntax::{Arch, Body, Emitter, Handler, Listener, On};
use tower_types::{NoMemory, Value};

/// So many lists with no message.
pub fn empty_lists(alloc: Global, n: usize) -> Result<Vec<Items<Value>>, NoMemory>
    ensures { IfOk result (λ lists. lists.items ≡ replicate n []) }
{
    let mut lists = Vec::new(alloc);
    for _i in 0..n {
        lists.push(Items::new(alloc))?;
    }
    Ok(lists)
}

/// Executes a callback on a message. The names that it binds begin with their zero values.
fn call(
    alloc: Global,
    arch: &Arch,
    body: &Body,
    message: &Value,
    frame: &mut Frame,
) -> Result<(), NoMemory>
    requires { All (λ f. IsTypeAmong (length arch.now.records) f.1) (fields_of body.now.binders) }
    ensures effect { OnOk result (RunsCallback arch.now (value_of message.now) (effect_in frame.old) (body_of body.now) →
        effect_in frame.new ≡ after_callback (table_of arch.now.records) (value_of message.now) (effect_in frame.old) (body_of body.now)) }
    ensures before { frame.new.states.before ≡ frame.old.states.before }
{
    let zeros = zero_fields(alloc, arch.records(), body.binders.as_slice())?;
    let binders = copy_all(alloc, zeros.as_slice())?;
    let tree = Tree::of(message, alloc)?;
    frame.binders = binders;
    frame.message = tree;
    execute_all(body.stmts.as_slice(), alloc, zeros.as_slice(), frame)?;
    Ok(())
}

/// Executes the callbacks of a handler in text order.
pub fn call_all(
    alloc: Global,
    arch: &Arch,
    handler: &Handler,
    message: &Value,
    frame: &mut Frame,
) -> Result<(), NoMemory>
    requires { IsNumberedHandler arch.now (handler_of handler.now) }
    ensures effect { OnOk result (CanHandle arch.now (handler_of handler.now) (value_of message.now) (effect_in frame.old) →
        effect_in frame.new ≡ fold (after_callback (table_of arch.now.records) (value_of message.now)) (effect_in frame.old) (map body_of handler.now.callbacks)) }
    ensures before { frame.new.states.before ≡ frame.old.states.before }
{
    for body in handler.callbacks.as_slice() {
        call(alloc, arch, body, message, frame)?;
    }
    Ok(())
}

/// Adds an item for each of these, with the message.
pub fn add_items(
    alloc: Global,
    listeners: &[Listener],
    message: &Value,
    items: &mut Vec<(Listener, Value)>,
) -> Result<(), NoMemory>
    ensures { OnOk result (map item_of items.new.items ≡ map item_of items.old.items ++ map (λ l. (l, value_of message.now)) listeners.now) }
{
    for listener in listeners {
        let value = message.copy(alloc)?;
        items.push((*listener, value))?;
    }
    Ok(())
}

/// The same for each message of a list.
fn add_all(
    alloc: Global,
    listeners: &[Listener],
    messages: &[Value],
    items: &mut Vec<(Listener, Value)>,
) -> Result<(), NoMemory>
    ensures { OnOk result (map item_of items.new.items
        ≡ map item_of items.old.items ++ flat_map (λ v. map (λ l. (l, v)) listeners.now) (map value_of messages.now)) }
{
    for message in messages {
        add_items(alloc, listeners, message, items)?;
    }
    Ok(())
}

/// What a handler's lists lead to: by emitter, by message, by subscriber.
pub fn follow(
    alloc: Global,
    arch: &Arch,
    emitters: &[Emitter],
    lists: &[Items<Value>],
) -> Result<Vec<(Listener, Value)>, NoMemory>
    ensures { IfOk result (λ items. map item_of items.items ≡ follow_from arch.now (map emitter_of emitters.now) (map (map value_of) lists.now)) }
{
    let mut items = Vec::new(alloc);
    let count = emitters.len().min(lists.len());
    for i in 0..count {
        let listeners = subscribers(alloc, arch, On::Channel(emitters[i].channel))?;
        add_all(alloc, listeners.as_slice(), lists[i].as_slice(), &mut items)?;
    }
    Ok(items)
}
