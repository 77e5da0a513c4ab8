//! Parts of records, monitors and handlers, and types.
ghost use Rattle.std.specs.Prelude.{◌≡◌, IfOk};
ghost use Rattle.std.specs.Vec.Iter.{into_iter_items};
ghost use Rattle.tower_reader.specs.Part.{part_part};
ghost use Rattle.tower_reader.specs.View.{seen, all_seen};

use crate::children::{boxed_type, hparts, name, number, stmts, ty};
use crate::part::{Children, Part};
use crate::table::PartRow;
use std::alloc::Global;
use tower_syntax::{RawField, RawHpart, RawPart, RawType};
use tower_types::{NoMemory, Scalar};

fn field(alloc: Global, at: u32, mut children: Children) -> Result<Part, NoMemory>
    ensures { IfOk result (λ p. seen p ≡ part_part PartRow.Field at (all_seen (into_iter_items children))) }
{
    let id = name(alloc, &mut children)?;
    let ty = ty(alloc, &mut children)?;
    Ok(Part::Field(RawField { at, name: id, ty }))
}

fn state(alloc: Global, at: u32, mut children: Children) -> Result<Part, NoMemory>
    ensures { IfOk result (λ p. seen p ≡ part_part PartRow.State at (all_seen (into_iter_items children))) }
{
    let id = name(alloc, &mut children)?;
    let ty = ty(alloc, &mut children)?;
    Ok(Part::Part(RawPart::State { at, name: id, ty }))
}

fn handler(alloc: Global, at: u32, mut children: Children) -> Result<Part, NoMemory>
    ensures { IfOk result (λ p. seen p ≡ part_part PartRow.Handler at (all_seen (into_iter_items children))) }
{
    let id = name(alloc, &mut children)?;
    let on = name(alloc, &mut children)?;
    let parts = hparts(alloc, children)?;
    Ok(Part::Part(RawPart::Handler {
        at,
        name: id,
        on,
        parts,
    }))
}

fn emitter(alloc: Global, at: u32, mut children: Children) -> Result<Part, NoMemory>
    ensures { IfOk result (λ p. seen p ≡ part_part PartRow.Emitter at (all_seen (into_iter_items children))) }
{
    let id = name(alloc, &mut children)?;
    let channel = name(alloc, &mut children)?;
    let bound = number(&mut children);
    Ok(Part::Hpart(RawHpart::Emitter {
        at,
        name: id,
        channel,
        bound,
    }))
}

fn callback(alloc: Global, at: u32, mut children: Children) -> Result<Part, NoMemory>
    ensures { IfOk result (λ p. seen p ≡ part_part PartRow.Callback at (all_seen (into_iter_items children))) }
{
    let id = name(alloc, &mut children)?;
    let stmts = stmts(alloc, children)?;
    Ok(Part::Hpart(RawHpart::Callback {
        at,
        name: id,
        stmts,
    }))
}

fn ix(at: u32, mut children: Children) -> Result<Part, NoMemory>
    ensures { IfOk result (λ p. seen p ≡ part_part PartRow.Ix at (all_seen (into_iter_items children))) }
{
    let size = number(&mut children);
    Ok(Part::Type(RawType::Word {
        at,
        scalar: Scalar::Ix(size),
    }))
}

fn array(alloc: Global, at: u32, mut children: Children) -> Result<Part, NoMemory>
    ensures { IfOk result (λ p. seen p ≡ part_part PartRow.Array at (all_seen (into_iter_items children))) }
{
    let len = number(&mut children);
    let item = boxed_type(alloc, &mut children)?;
    Ok(Part::Type(RawType::Array { at, len, item }))
}

/// The part that a row makes of its children's parts.
pub(crate) fn part_part(
    alloc: Global,
    row: PartRow,
    at: u32,
    children: Children,
) -> Result<Part, NoMemory>
    ensures { IfOk result (λ p. seen p ≡ part_part row at (all_seen (into_iter_items children))) }
{
    match row {
        PartRow::Field => field(alloc, at, children),
        PartRow::State => state(alloc, at, children),
        PartRow::Handler => handler(alloc, at, children),
        PartRow::Emitter => emitter(alloc, at, children),
        PartRow::Callback => callback(alloc, at, children),
        PartRow::Ix => ix(at, children),
        PartRow::Array => array(alloc, at, children),
    }
}
