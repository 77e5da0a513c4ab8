//! The types of a whole file.
ghost use Rattle.std.specs.Prelude.{◌≡◌, ◌⊎◌, ℕ, map, OnOk, IfOk, IfErr};
ghost use Rattle.tower_syntax.specs.RawView.{id_of};
ghost use Rattle.tower_syntax.specs.NamedView.{link_of, all_named_stmts_of, named_hpart_of, named_part_of, named_item_of, named_of};
ghost use Rattle.tower_syntax.specs.View.{arch_of, body_of, handler_of, emitter_of};
ghost use Rattle.tower_syntax.specs.Typed.{IsTyped};
ghost use Rattle.arch_types.specs.Offence.{IsClean, IsFirst};
ghost use Rattle.arch_types.specs.Outline.{each, written_of, Written, callback_of, emitter_of as emitter_in, on_of, handlers_from};
ghost use Rattle.arch_types.specs.File.{IsChecked, Offence, AscendsFile, message_on};
ghost use Rattle.arch_types.specs.Numbered.{IsNumbered};
ghost use Rattle.arch_types.specs.Walk.{Gives};
ghost use Rattle.arch_types.specs.Seen.{known_at_entry, type_in};
ghost use Rattle.arch_types.specs.Turns.{in_turn, Went, Stops, bodied, handled, WentItem, StopsItem};
ghost use Rattle.arch_types.specs.declared.fault.TypeFault.TheVariants as fault;

use crate::fault::TypeFault;
use crate::listeners::next;
use crate::outline::{emitters, on_of, outline};
use crate::scope::{Bound, Scope, message_on};
use crate::stmts::check_stmts;
use crate::system::System;
use sqlite_items::Items;
use std::alloc::Global;
use tower_syntax::{
    Arch, ArchParts, Body, Handler, Id, Link, Named, NamedHpart, NamedItem, NamedPart, NamedStmt,
};
use tower_types::NoMemory;

fn check_body(
    alloc: Global,
    system: &System,
    scope: &Scope,
    name: &Id,
    stmts: &[NamedStmt],
) -> Result<Body, TypeFault>
    ensures { Gives body_of (bodied (known_at_entry system.now scope.now) (id_of name.now, all_named_stmts_of stmts.now)) result }
{
    let mut bound = Bound {
        names: Items::new(alloc),
        writable: Items::new(alloc),
    };
    let checked = check_stmts(alloc, system, scope, &mut bound, stmts)?;
    if let Some(high) = checked.high {
        return Err(high.fault());
    }
    let param = name.name.copy(alloc)?;
    let Bound { names, .. } = bound;
    Ok(Body {
        param,
        binders: names,
        stmts: checked.trees,
    })
}

fn add_body(
    alloc: Global,
    system: &System,
    scope: &Scope,
    made: &mut Items<Body>,
    part: &NamedHpart,
) -> Result<(), TypeFault>
    ensures ok { OnOk result (Went (map body_of made.old) (bodied (known_at_entry system.now scope.now)) (callback_of (named_hpart_of part.now)) (map body_of made.new)) }
    ensures err { IfErr result (Stops (bodied (known_at_entry system.now scope.now)) (callback_of (named_hpart_of part.now))) }
{
    match part {
        NamedHpart::Emitter { .. } => Ok(()),
        NamedHpart::Callback { name, stmts, .. } => {
            let body = check_body(alloc, system, scope, name, stmts.as_slice())?;
            made.push(body)?;
            Ok(())
        }
    }
}

fn check_bodies(
    alloc: Global,
    system: &System,
    scope: &Scope,
    parts: &[NamedHpart],
) -> Result<Items<Body>, TypeFault>
    ensures { Gives (map body_of) (in_turn (bodied (known_at_entry system.now scope.now)) (each callback_of (map named_hpart_of parts.now))) result }
{
    let mut made = Items::new(alloc);
    for part in parts {
        add_body(alloc, system, scope, &mut made, part)?;
    }
    Ok(made)
}

fn scope_of<'a>(
    alloc: Global,
    system: &System<'a>,
    monitor: u32,
    on: &Link,
    parts: &[NamedHpart],
) -> Result<Scope<'a>, NoMemory>
    ensures monitor { IfOk result (λ scope. scope.monitor ≡ monitor) }
    ensures message { IfOk result (λ scope. type_in scope.message ≡ message_on (system.now) (on_of on.now.target)) }
    ensures emitters { IfOk result (λ scope. map emitter_of scope.emitters ≡ each emitter_in (map named_hpart_of parts.now)) }
{
    let message = message_on(system.parts(), on_of(on.target));
    let emitters = emitters(alloc, parts)?;
    Ok(Scope {
        monitor,
        message,
        emitters,
    })
}

fn check_handler(
    alloc: Global,
    system: &System,
    monitor: u32,
    name: &Id,
    on: &Link,
    parts: &[NamedHpart],
) -> Result<Handler, TypeFault>
    ensures { let written : Written = record { monitor = monitor; name = id_of name.now; on = link_of on.now; parts = map named_hpart_of parts.now } in Gives handler_of (handled (system.now) written) result }
{
    let scope = scope_of(alloc, system, monitor, on, parts)?;
    let callbacks = check_bodies(alloc, system, &scope, parts)?;
    let name = name.name.copy(alloc)?;
    let Scope { emitters, .. } = scope;
    Ok(Handler {
        name,
        monitor,
        on: on_of(on.target),
        emitters,
        callbacks,
    })
}

fn add_handler(
    alloc: Global,
    system: &System,
    made: &mut Items<Handler>,
    monitor: u32,
    part: &NamedPart,
) -> Result<(), TypeFault>
    ensures ok { OnOk result (Went (map handler_of made.old) (handled (system.now)) (written_of monitor (named_part_of part.now)) (map handler_of made.new)) }
    ensures err { IfErr result (Stops (handled (system.now)) (written_of monitor (named_part_of part.now))) }
{
    match part {
        NamedPart::State { .. } => Ok(()),
        NamedPart::Handler {
            name,
            on,
            parts,
            ..
        } => {
            let handler = check_handler(alloc, system, monitor, name, on, parts.as_slice())?;
            made.push(handler)?;
            Ok(())
        }
    }
}

/// Adds the handlers of a monitor.
fn add_handlers(
    alloc: Global,
    system: &System,
    made: &mut Items<Handler>,
    monitor: u32,
    parts: &[NamedPart],
) -> Result<(), TypeFault>
    ensures ok { OnOk result (Went (map handler_of made.old) (handled (system.now)) (each (written_of monitor) (map named_part_of parts.now)) (map handler_of made.new)) }
    ensures err { IfErr result (Stops (handled (system.now)) (each (written_of monitor) (map named_part_of parts.now))) }
{
    for part in parts {
        add_handler(alloc, system, made, monitor, part)?;
    }
    Ok(())
}

/// Adds the handlers of an item. The number of the next monitor is answered.
fn add_monitor(
    alloc: Global,
    system: &System,
    made: &mut Items<Handler>,
    monitor: u32,
    item: &NamedItem,
) -> Result<u32, TypeFault>
    ensures ok { IfOk result (λ n. WentItem (handled (system.now)) (map handler_of made.old) monitor (named_item_of item.now) (map handler_of made.new) n) }
    ensures err { IfErr result (StopsItem (handled (system.now)) monitor (named_item_of item.now)) }
{
    match item {
        NamedItem::Monitor { parts, .. } => {
            let after = next(monitor)?;
            add_handlers(alloc, system, made, monitor, parts.as_slice())?;
            Ok(after)
        }
        _ => Ok(monitor),
    }
}

fn check_handlers(
    alloc: Global,
    system: &System,
    items: &[NamedItem],
) -> Result<Items<Handler>, TypeFault>
    ensures { Gives (map handler_of) (in_turn (handled (system.now)) (handlers_from 0 (map named_item_of items.now))) result }
{
    let mut made = Items::new(alloc);
    let mut monitor: u32 = 0;
    for item in items {
        monitor = add_monitor(alloc, system, &mut made, monitor, item)?;
    }
    Ok(made)
}

/// The checked handlers of a file that declares this.
fn handlers_with(
    alloc: Global,
    declared: &ArchParts,
    items: &[NamedItem],
) -> Result<Items<Handler>, TypeFault>
    ensures { Gives (map handler_of) (in_turn (handled (arch_of declared.now)) (handlers_from 0 (map named_item_of items.now))) result }
{
    let system = System::new(alloc, declared)?;
    let handlers = check_handlers(alloc, &system, items)?;
    Ok(handlers)
}

/// The checked tree of a file, or the first fault of its types.
pub fn check_types(alloc: Global, named: &Named) -> Result<Arch, TypeFault>
    // The file is one whose names were looked up.
    requires numbered { IsNumbered (named_of named.now) }

    // There is no offence, and the tree is the one that the text becomes. It is typed, as its meaning wants it.
    ensures clean { OnOk result (IsClean (Offence (named_of named.now))) }
    ensures checked { IfOk result (IsChecked (named_of named.now)) }
    ensures typed { IfOk result IsTyped }

    // A fault is the offence with the least offset, where the offsets stand in text order.
    ensures first { (end : ℕ) → AscendsFile (named_of named.now) end → IfErr result (λ f. (f ≡ fault.NoMemory) ⊎ IsFirst (Offence (named_of named.now)) f) }
{
    let mut parts = outline(alloc, named)?;
    let handlers = handlers_with(alloc, &parts, named.items.as_slice())?;
    parts.handlers = handlers;
    Ok(Arch::new(parts))
}
