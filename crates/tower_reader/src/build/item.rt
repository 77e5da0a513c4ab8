//! Items of a file.
ghost use Rattle.std.specs.Prelude.{◌≡◌, IfOk};
ghost use Rattle.std.specs.Vec.Iter.{into_iter_items};
ghost use Rattle.tower_reader.specs.Part.{item_part};
ghost use Rattle.tower_reader.specs.View.{seen, all_seen};

use crate::children::{byte, fields, name, number, parts, ty};
use crate::part::{Children, Part};
use crate::table::ItemRow;
use std::alloc::Global;
use tower_syntax::RawItem;
use tower_types::NoMemory;

fn record(alloc: Global, at: u32, mut children: Children) -> Result<Part, NoMemory>
    ensures { IfOk result (λ p. seen p ≡ item_part ItemRow.Record at (all_seen (into_iter_items children))) }
{
    let id = name(alloc, &mut children)?;
    let fields = fields(alloc, children)?;
    Ok(Part::Item(RawItem::Record {
        at,
        name: id,
        fields,
    }))
}

fn init(alloc: Global, at: u32, mut children: Children) -> Result<Part, NoMemory>
    ensures { IfOk result (λ p. seen p ≡ item_part ItemRow.Init at (all_seen (into_iter_items children))) }
{
    let id = name(alloc, &mut children)?;
    let priority = byte(&mut children);
    Ok(Part::Item(RawItem::Init {
        at,
        name: id,
        priority,
    }))
}

fn period(alloc: Global, at: u32, mut children: Children) -> Result<Part, NoMemory>
    ensures { IfOk result (λ p. seen p ≡ item_part ItemRow.Period at (all_seen (into_iter_items children))) }
{
    let id = name(alloc, &mut children)?;
    let ms = number(&mut children);
    let priority = byte(&mut children);
    Ok(Part::Item(RawItem::Period {
        at,
        name: id,
        ms,
        priority,
        depth: None,
    }))
}

fn period2(alloc: Global, at: u32, mut children: Children) -> Result<Part, NoMemory>
    ensures { IfOk result (λ p. seen p ≡ item_part ItemRow.Period2 at (all_seen (into_iter_items children))) }
{
    let id = name(alloc, &mut children)?;
    let ms = number(&mut children);
    let priority = byte(&mut children);
    let depth = number(&mut children);
    Ok(Part::Item(RawItem::Period {
        at,
        name: id,
        ms,
        priority,
        depth: Some(depth),
    }))
}

fn signal(alloc: Global, at: u32, mut children: Children) -> Result<Part, NoMemory>
    ensures { IfOk result (λ p. seen p ≡ item_part ItemRow.Signal at (all_seen (into_iter_items children))) }
{
    let id = name(alloc, &mut children)?;
    let message = ty(alloc, &mut children)?;
    let priority = byte(&mut children);
    Ok(Part::Item(RawItem::Signal {
        at,
        name: id,
        message,
        priority,
        depth: None,
    }))
}

fn signal2(alloc: Global, at: u32, mut children: Children) -> Result<Part, NoMemory>
    ensures { IfOk result (λ p. seen p ≡ item_part ItemRow.Signal2 at (all_seen (into_iter_items children))) }
{
    let id = name(alloc, &mut children)?;
    let message = ty(alloc, &mut children)?;
    let priority = byte(&mut children);
    let depth = number(&mut children);
    Ok(Part::Item(RawItem::Signal {
        at,
        name: id,
        message,
        priority,
        depth: Some(depth),
    }))
}

fn channel(alloc: Global, at: u32, mut children: Children) -> Result<Part, NoMemory>
    ensures { IfOk result (λ p. seen p ≡ item_part ItemRow.Channel at (all_seen (into_iter_items children))) }
{
    let id = name(alloc, &mut children)?;
    let message = ty(alloc, &mut children)?;
    Ok(Part::Item(RawItem::Channel {
        at,
        name: id,
        message,
    }))
}

fn output(alloc: Global, at: u32, mut children: Children) -> Result<Part, NoMemory>
    ensures { IfOk result (λ p. seen p ≡ item_part ItemRow.Output at (all_seen (into_iter_items children))) }
{
    let id = name(alloc, &mut children)?;
    let channel = name(alloc, &mut children)?;
    Ok(Part::Item(RawItem::Output {
        at,
        name: id,
        channel,
    }))
}

fn monitor(alloc: Global, at: u32, mut children: Children) -> Result<Part, NoMemory>
    ensures { IfOk result (λ p. seen p ≡ item_part ItemRow.Monitor at (all_seen (into_iter_items children))) }
{
    let id = name(alloc, &mut children)?;
    let parts = parts(alloc, children)?;
    Ok(Part::Item(RawItem::Monitor {
        at,
        name: id,
        parts,
    }))
}

/// The item that a row makes of its children's parts.
pub(crate) fn item_part(
    alloc: Global,
    row: ItemRow,
    at: u32,
    children: Children,
) -> Result<Part, NoMemory>
    ensures { IfOk result (λ p. seen p ≡ item_part row at (all_seen (into_iter_items children))) }
{
    match row {
        ItemRow::Record => record(alloc, at, children),
        ItemRow::Init => init(alloc, at, children),
        ItemRow::Period => period(alloc, at, children),
        ItemRow::Period2 => period2(alloc, at, children),
        ItemRow::Signal => signal(alloc, at, children),
        ItemRow::Signal2 => signal2(alloc, at, children),
        ItemRow::Channel => channel(alloc, at, children),
        ItemRow::Output => output(alloc, at, children),
        ItemRow::Monitor => monitor(alloc, at, children),
    }
}
