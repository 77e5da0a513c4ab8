//! How each row makes its part of the tree of its children's parts.
ghost use Rattle.std.specs.Prelude.{◌≡◌, IfOk};
ghost use Rattle.std.specs.Vec.Iter.{into_iter_items};
ghost use Rattle.tower_reader.specs.Part.{tower_part, build};
ghost use Rattle.tower_reader.specs.View.{seen, all_seen};

mod expr;
mod item;
mod part;
mod stmt;

use crate::children::{items, name, next};
use crate::part::{Children, Part};
use crate::table::Row;
use expr::expr_part;
use item::item_part;
use part::part_part;
use std::alloc::Global;
use stmt::stmt_part;
use tower_syntax::Raw;
use tower_types::NoMemory;

fn tower_part(alloc: Global, version: u8, at: u32, mut children: Children) -> Result<Part, NoMemory>
    ensures { IfOk result (λ p. seen p ≡ tower_part version at (all_seen (into_iter_items children))) }
{
    let id = name(alloc, &mut children)?;
    let items = items(alloc, children)?;
    Ok(Part::Tower(Raw {
        at,
        version,
        name: id,
        items,
    }))
}

/// The part of the tree that a row makes of its children's parts.
pub(crate) fn build(alloc: Global, row: Row, at: u32, parts: Vec<Part>) -> Result<Part, NoMemory>
    ensures { IfOk result (λ p. seen p ≡ build row at (all_seen parts.items)) }
{
    let children = parts.into_iter();
    build_of(alloc, row, at, children)
}

fn build_of(alloc: Global, row: Row, at: u32, mut children: Children) -> Result<Part, NoMemory>
    ensures { IfOk result (λ p. seen p ≡ build row at (all_seen (into_iter_items children))) }
{
    match row {
        Row::File => Ok(next(&mut children)),
        Row::Tower => tower_part(alloc, 1, at, children),
        Row::Tower2 => tower_part(alloc, 2, at, children),
        Row::Item(row) => item_part(alloc, row, at, children),
        Row::Part(row) => part_part(alloc, row, at, children),
        Row::Stmt(row) => stmt_part(alloc, row, at, children),
        Row::Expr(row) => expr_part(alloc, row, at, children),
    }
}
