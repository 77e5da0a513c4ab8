//! What a file declares: all of its checked tree but the handlers.
ghost use Rattle.std.specs.Prelude.{◌≡◌, ◌≤◌, ◌<◌, ◌^◌, ◌++◌, ◌∷◌, [], All, length, map, IfOk, OnOk};
ghost use Rattle.tower_types.specs.View.{fields_of};
ghost use Rattle.tower_syntax.specs.NamedView.{named_field_of, named_hpart_of, named_part_of, named_item_of, named_of};
ghost use Rattle.tower_syntax.specs.View.{source_of as source_in, channel_of as channel_in, output_of as output_in, monitor_of as monitor_in, emitter_of as emitter_in, arch_of};
ghost use Rattle.arch_types.specs.Outline.{each, field, record_of, record_name_of, source_of, channel_of, channel_number, output_of, state_of, monitor_of, on_of, emitter_of, outline};
ghost use Rattle.arch_types.specs.Numbered.{IsNumbered, DeclaresFields, DeclareRecords};

use crate::listeners::listeners;
use crate::scope::type_of;
use sqlite_items::Items;
use std::alloc::Global;
use tower_syntax::{
    ArchParts, Channel, Emitter, Monitor, Named, NamedField, NamedHpart, NamedItem, NamedPart, On,
    Output, Source, SourceKind, Target,
};
use tower_types::{Name, NoMemory, Records, Scalar, Ty};

fn add_field(
    alloc: Global,
    made: &mut Vec<(Name, Ty)>,
    written: &NamedField,
) -> Result<(), NoMemory>
    ensures { OnOk result (fields_of made.new.items ≡ fields_of made.old.items ++ field (named_field_of written.now) ∷ []) }
{
    let ty = type_of(alloc, &written.ty)?;
    let name = written.name.name.copy(alloc)?;
    made.push((name, ty))?;
    Ok(())
}

fn record_fields(alloc: Global, fields: &[NamedField]) -> Result<Vec<(Name, Ty)>, NoMemory>
    ensures { IfOk result (λ made. fields_of made.items ≡ map field (map named_field_of fields.now)) }
{
    let mut made = Vec::new(alloc);
    for field in fields {
        add_field(alloc, &mut made, field)?;
    }
    Ok(made)
}

fn add_record(alloc: Global, made: &mut Records, item: &NamedItem) -> Result<(), NoMemory>
    requires room { length made.old < 2 ^ 32 }
    requires known { DeclaresFields (length made.old) (named_item_of item.now) }
    ensures { OnOk result (made.new ≡ made.old ++ record_of (named_item_of item.now)) }
{
    match item {
        NamedItem::Record { fields, .. } => {
            let fields = record_fields(alloc, fields.as_slice())?;
            made.push(fields)?;
            Ok(())
        }
        _ => Ok(()),
    }
}

fn records(alloc: Global, items: &[NamedItem]) -> Result<Records, NoMemory>
    requires few { length items.now ≤ 2 ^ 32 }
    requires known { DeclareRecords 0 (map named_item_of items.now) }
    ensures { IfOk result (λ made. made ≡ each record_of (map named_item_of items.now)) }
{
    let mut made = Records::new(alloc);
    for item in items {
        add_record(alloc, &mut made, item)?;
    }
    Ok(made)
}

fn add_record_name(alloc: Global, made: &mut Items<Name>, item: &NamedItem) -> Result<(), NoMemory>
    ensures { OnOk result (made.new ≡ made.old ++ record_name_of (named_item_of item.now)) }
{
    match item {
        NamedItem::Record { name, .. } => {
            let name = name.name.copy(alloc)?;
            made.push(name)?;
            Ok(())
        }
        _ => Ok(()),
    }
}

fn record_names(alloc: Global, items: &[NamedItem]) -> Result<Items<Name>, NoMemory>
    ensures { IfOk result (λ made. made ≡ each record_name_of (map named_item_of items.now)) }
{
    let mut made = Items::new(alloc);
    for item in items {
        add_record_name(alloc, &mut made, item)?;
    }
    Ok(made)
}

fn add_source(alloc: Global, made: &mut Items<Source>, item: &NamedItem) -> Result<(), NoMemory>
    ensures { OnOk result (map source_in made.new ≡ map source_in made.old ++ source_of (named_item_of item.now)) }
{
    match item {
        NamedItem::Init { name, priority, .. } => {
            let name = name.name.copy(alloc)?;
            made.push(Source {
                name,
                kind: SourceKind::Init,
                priority: *priority,
                message: Ty::Scalar(Scalar::I64),
                depth: None,
            })?;
            Ok(())
        }
        NamedItem::Period {
            name,
            ms,
            priority,
            depth,
            ..
        } => {
            let name = name.name.copy(alloc)?;
            made.push(Source {
                name,
                kind: SourceKind::Period(*ms),
                priority: *priority,
                message: Ty::Scalar(Scalar::I64),
                depth: *depth,
            })?;
            Ok(())
        }
        NamedItem::Signal {
            name,
            message,
            priority,
            depth,
            ..
        } => {
            let message = type_of(alloc, message)?;
            let name = name.name.copy(alloc)?;
            made.push(Source {
                name,
                kind: SourceKind::Signal,
                priority: *priority,
                message,
                depth: *depth,
            })?;
            Ok(())
        }
        _ => Ok(()),
    }
}

fn sources(alloc: Global, items: &[NamedItem]) -> Result<Items<Source>, NoMemory>
    ensures { IfOk result (λ made. map source_in made ≡ each source_of (map named_item_of items.now)) }
{
    let mut made = Items::new(alloc);
    for item in items {
        add_source(alloc, &mut made, item)?;
    }
    Ok(made)
}

fn add_channel(alloc: Global, made: &mut Items<Channel>, item: &NamedItem) -> Result<(), NoMemory>
    ensures { OnOk result (map channel_in made.new ≡ map channel_in made.old ++ channel_of (named_item_of item.now)) }
{
    match item {
        NamedItem::Channel { name, message, .. } => {
            let message = type_of(alloc, message)?;
            let name = name.name.copy(alloc)?;
            made.push(Channel { name, message })?;
            Ok(())
        }
        _ => Ok(()),
    }
}

fn channels(alloc: Global, items: &[NamedItem]) -> Result<Items<Channel>, NoMemory>
    ensures { IfOk result (λ made. map channel_in made ≡ each channel_of (map named_item_of items.now)) }
{
    let mut made = Items::new(alloc);
    for item in items {
        add_channel(alloc, &mut made, item)?;
    }
    Ok(made)
}

fn channel_number(target: Target) -> u32
    ensures { result ≡ channel_number target }
{
    match target {
        Target::Channel(c) => c,
        _ => 0,
    }
}

fn add_output(alloc: Global, made: &mut Items<Output>, item: &NamedItem) -> Result<(), NoMemory>
    ensures { OnOk result (map output_in made.new ≡ map output_in made.old ++ output_of (named_item_of item.now)) }
{
    match item {
        NamedItem::Output { name, channel, .. } => {
            let name = name.name.copy(alloc)?;
            let channel = channel_number(channel.target);
            made.push(Output { name, channel })?;
            Ok(())
        }
        _ => Ok(()),
    }
}

fn outputs(alloc: Global, items: &[NamedItem]) -> Result<Items<Output>, NoMemory>
    ensures { IfOk result (λ made. map output_in made ≡ each output_of (map named_item_of items.now)) }
{
    let mut made = Items::new(alloc);
    for item in items {
        add_output(alloc, &mut made, item)?;
    }
    Ok(made)
}

fn add_state(alloc: Global, made: &mut Items<(Name, Ty)>, part: &NamedPart) -> Result<(), NoMemory>
    ensures { OnOk result (fields_of made.new ≡ fields_of made.old ++ state_of (named_part_of part.now)) }
{
    match part {
        NamedPart::State { name, ty, .. } => {
            let ty = type_of(alloc, ty)?;
            let name = name.name.copy(alloc)?;
            made.push((name, ty))?;
            Ok(())
        }
        NamedPart::Handler { .. } => Ok(()),
    }
}

fn states(alloc: Global, parts: &[NamedPart]) -> Result<Items<(Name, Ty)>, NoMemory>
    ensures { IfOk result (λ made. fields_of made ≡ each state_of (map named_part_of parts.now)) }
{
    let mut made = Items::new(alloc);
    for part in parts {
        add_state(alloc, &mut made, part)?;
    }
    Ok(made)
}

fn add_monitor(alloc: Global, made: &mut Items<Monitor>, item: &NamedItem) -> Result<(), NoMemory>
    ensures { OnOk result (map monitor_in made.new ≡ map monitor_in made.old ++ monitor_of (named_item_of item.now)) }
{
    match item {
        NamedItem::Monitor { name, parts, .. } => {
            let states = states(alloc, parts.as_slice())?;
            let name = name.name.copy(alloc)?;
            made.push(Monitor { name, states })?;
            Ok(())
        }
        _ => Ok(()),
    }
}

fn monitors(alloc: Global, items: &[NamedItem]) -> Result<Items<Monitor>, NoMemory>
    ensures { IfOk result (λ made. map monitor_in made ≡ each monitor_of (map named_item_of items.now)) }
{
    let mut made = Items::new(alloc);
    for item in items {
        add_monitor(alloc, &mut made, item)?;
    }
    Ok(made)
}

fn add_emitter(alloc: Global, made: &mut Items<Emitter>, part: &NamedHpart) -> Result<(), NoMemory>
    ensures { OnOk result (map emitter_in made.new ≡ map emitter_in made.old ++ emitter_of (named_hpart_of part.now)) }
{
    match part {
        NamedHpart::Emitter {
            name,
            channel,
            bound,
            ..
        } => {
            let name = name.name.copy(alloc)?;
            let channel = channel_number(channel.target);
            made.push(Emitter {
                name,
                channel,
                bound: *bound,
            })?;
            Ok(())
        }
        NamedHpart::Callback { .. } => Ok(()),
    }
}

/// The emitters of a handler.
pub fn emitters(alloc: Global, parts: &[NamedHpart]) -> Result<Items<Emitter>, NoMemory>
    ensures { IfOk result (λ made. map emitter_in made ≡ each emitter_of (map named_hpart_of parts.now)) }
{
    let mut made = Items::new(alloc);
    for part in parts {
        add_emitter(alloc, &mut made, part)?;
    }
    Ok(made)
}

/// What a handler is attached to.
pub fn on_of(target: Target) -> On
    ensures { result ≡ on_of target }
{
    match target {
        Target::Source(s) => On::Source(s),
        Target::Channel(c) => On::Channel(c),
        _ => On::Source(0),
    }
}

/// What a file declares. There are no handlers yet.
pub fn outline(alloc: Global, named: &Named) -> Result<ArchParts, NoMemory>
    requires numbered { IsNumbered (named_of named.now) }
    ensures { IfOk result (λ parts. arch_of parts ≡ outline (named_of named.now)) }
{
    let items = named.items.as_slice();
    let records = records(alloc, items)?;
    let record_names = record_names(alloc, items)?;
    let sources = sources(alloc, items)?;
    let channels = channels(alloc, items)?;
    let outputs = outputs(alloc, items)?;
    let monitors = monitors(alloc, items)?;
    let listeners = listeners(alloc, items)?;
    let name = named.name.name.copy(alloc)?;
    Ok(ArchParts {
        version: named.version,
        name,
        records,
        record_names,
        sources,
        channels,
        outputs,
        monitors,
        handlers: Items::new(alloc),
        listeners,
    })
}
