//! The items of a file with their names looked up.
ghost use Rattle.std.specs.Prelude.{◌≡◌, ◌⊎◌, [], ◌∷◌, ◌++◌, map, None, Some, IfOk, IfErr};
ghost use Rattle.tower_syntax.specs.RawView.{id_of, raw_item_of};
ghost use Rattle.tower_syntax.specs.NamedView.{named_item_of};
ghost use Rattle.arch_names.specs.Names.{find};
ghost use Rattle.arch_names.specs.Sets.{each};
ghost use Rattle.arch_names.specs.Sites.{item_sites};
ghost use Rattle.arch_names.specs.Linked.{linked_item};
ghost use Rattle.arch_names.specs.Walk.{meant, IsMade, IsFault};

use crate::exprs::name_type;
use crate::fault::{NameFault, Sort};
use crate::names::{Names, Thing};
use crate::parts::{name_fields, name_parts};
use crate::uses::{declared_once, refer};
use sqlite_items::Items;
use std::alloc::Global;
use tower_syntax::{Id, NamedItem, RawField, RawItem, RawPart, RawType};

fn named_record(
    alloc: Global,
    file: &Names<Thing>,
    at: u32,
    name: &Id,
    fields: &[RawField],
) -> Result<NamedItem, NameFault>
    ensures ok { let item = RawItem.Record at name.now fields.now in IfOk result (IsMade (item_sites (find file.now) (raw_item_of item)) named_item_of (linked_item meant (find file.now) (raw_item_of item))) }
    ensures err { IfErr result (IsFault (item_sites (find file.now) (raw_item_of (RawItem.Record at name.now fields.now)))) }
{
    declared_once(file, name)?;
    let fields = name_fields(alloc, file, name.at, fields)?;
    let name = name.copy(alloc)?;
    Ok(NamedItem::Record { at, name, fields })
}

fn named_init(
    alloc: Global,
    file: &Names<Thing>,
    at: u32,
    name: &Id,
    priority: u8,
) -> Result<NamedItem, NameFault>
    ensures ok { let item = RawItem.Init at name.now priority in IfOk result (IsMade (item_sites (find file.now) (raw_item_of item)) named_item_of (linked_item meant (find file.now) (raw_item_of item))) }
    ensures err { IfErr result (IsFault (item_sites (find file.now) (raw_item_of (RawItem.Init at name.now priority)))) }
{
    declared_once(file, name)?;
    let name = name.copy(alloc)?;
    Ok(NamedItem::Init { at, name, priority })
}

fn named_period(
    alloc: Global,
    file: &Names<Thing>,
    at: u32,
    name: &Id,
    ms: u32,
    priority: u8,
    depth: Option<u32>,
) -> Result<NamedItem, NameFault>
    ensures ok { let item = RawItem.Period at name.now ms priority depth in IfOk result (IsMade (item_sites (find file.now) (raw_item_of item)) named_item_of (linked_item meant (find file.now) (raw_item_of item))) }
    ensures err { IfErr result (IsFault (item_sites (find file.now) (raw_item_of (RawItem.Period at name.now ms priority depth)))) }
{
    declared_once(file, name)?;
    let name = name.copy(alloc)?;
    Ok(NamedItem::Period {
        at,
        name,
        ms,
        priority,
        depth,
    })
}

fn named_signal(
    alloc: Global,
    file: &Names<Thing>,
    at: u32,
    name: &Id,
    message: &RawType,
    priority: u8,
    depth: Option<u32>,
) -> Result<NamedItem, NameFault>
    ensures ok { let item = RawItem.Signal at name.now message.now priority depth in IfOk result (IsMade (item_sites (find file.now) (raw_item_of item)) named_item_of (linked_item meant (find file.now) (raw_item_of item))) }
    ensures err { IfErr result (IsFault (item_sites (find file.now) (raw_item_of (RawItem.Signal at name.now message.now priority depth)))) }
{
    declared_once(file, name)?;
    let message = name_type(alloc, file, None, message)?;
    let name = name.copy(alloc)?;
    Ok(NamedItem::Signal {
        at,
        name,
        message,
        priority,
        depth,
    })
}

fn named_channel(
    alloc: Global,
    file: &Names<Thing>,
    at: u32,
    name: &Id,
    message: &RawType,
) -> Result<NamedItem, NameFault>
    ensures ok { let item = RawItem.Channel at name.now message.now in IfOk result (IsMade (item_sites (find file.now) (raw_item_of item)) named_item_of (linked_item meant (find file.now) (raw_item_of item))) }
    ensures err { IfErr result (IsFault (item_sites (find file.now) (raw_item_of (RawItem.Channel at name.now message.now)))) }
{
    declared_once(file, name)?;
    let message = name_type(alloc, file, None, message)?;
    let name = name.copy(alloc)?;
    Ok(NamedItem::Channel { at, name, message })
}

fn named_output(
    alloc: Global,
    file: &Names<Thing>,
    at: u32,
    name: &Id,
    channel: &Id,
) -> Result<NamedItem, NameFault>
    ensures ok { let item = RawItem.Output at name.now channel.now in IfOk result (IsMade (item_sites (find file.now) (raw_item_of item)) named_item_of (linked_item meant (find file.now) (raw_item_of item))) }
    ensures err { IfErr result (IsFault (item_sites (find file.now) (raw_item_of (RawItem.Output at name.now channel.now)))) }
{
    declared_once(file, name)?;
    let channel = refer(file, Sort::Channel, channel)?;
    let name = name.copy(alloc)?;
    Ok(NamedItem::Output { at, name, channel })
}

fn named_monitor(
    alloc: Global,
    file: &Names<Thing>,
    at: u32,
    name: &Id,
    parts: &[RawPart],
) -> Result<NamedItem, NameFault>
    ensures ok { let item = RawItem.Monitor at name.now parts.now in IfOk result (IsMade (item_sites (find file.now) (raw_item_of item)) named_item_of (linked_item meant (find file.now) (raw_item_of item))) }
    ensures err { IfErr result (IsFault (item_sites (find file.now) (raw_item_of (RawItem.Monitor at name.now parts.now)))) }
{
    declared_once(file, name)?;
    let parts = name_parts(alloc, file, parts)?;
    let name = name.copy(alloc)?;
    Ok(NamedItem::Monitor { at, name, parts })
}

fn name_item(alloc: Global, file: &Names<Thing>, item: &RawItem) -> Result<NamedItem, NameFault>
    ensures ok { IfOk result (IsMade (item_sites (find file.now) (raw_item_of item.now)) named_item_of (linked_item meant (find file.now) (raw_item_of item.now))) }
    ensures err { IfErr result (IsFault (item_sites (find file.now) (raw_item_of item.now))) }
{
    match item {
        RawItem::Record { at, name, fields } => {
            named_record(alloc, file, *at, name, fields.as_slice())
        }
        RawItem::Init { at, name, priority } => named_init(alloc, file, *at, name, *priority),
        RawItem::Period {
            at,
            name,
            ms,
            priority,
            depth,
        } => named_period(alloc, file, *at, name, *ms, *priority, *depth),
        RawItem::Signal {
            at,
            name,
            message,
            priority,
            depth,
        } => named_signal(alloc, file, *at, name, message, *priority, *depth),
        RawItem::Channel { at, name, message } => named_channel(alloc, file, *at, name, message),
        RawItem::Output { at, name, channel } => named_output(alloc, file, *at, name, channel),
        RawItem::Monitor { at, name, parts } => {
            named_monitor(alloc, file, *at, name, parts.as_slice())
        }
    }
}

/// The items of a file, in whose one set the names of all of them are.
pub fn name_items(
    alloc: Global,
    file: &Names<Thing>,
    items: &[RawItem],
) -> Result<Items<NamedItem>, NameFault>
    ensures ok { let is = map raw_item_of items.now in IfOk result (IsMade (each (item_sites (find file.now)) is) (map named_item_of) (map (linked_item meant (find file.now)) is)) }
    ensures err { let is = map raw_item_of items.now in IfErr result (IsFault (each (item_sites (find file.now)) is)) }
{
    let mut made = Items::new(alloc);
    for item in items {
        let item = name_item(alloc, file, item)?;
        made.push(item)?;
    }
    Ok(made)
}
