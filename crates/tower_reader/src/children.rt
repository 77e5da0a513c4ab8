//! What a row takes from its children's parts, one after the other.
ghost use Rattle.std.specs.Prelude.{◌≡◌, ◌++◌, IfOk, OnOk, MatchOption, List, [], ◌∷◌, map};
ghost use Rattle.std.specs.List.{filter_map, cons_option};
ghost use Rattle.std.specs.Vec.Iter.{into_iter_items};
ghost use Rattle.tower_syntax.specs.RawTree.{rec, root, read, no_stmts};
ghost use Rattle.tower_syntax.specs.RawView.{id_of, raw_type_of, raw_place_of, raw_expr_of, raw_stmt_of, all_raw_stmts_of, raw_field_of, raw_hpart_of, raw_part_of, raw_item_of, raw_of};
ghost use Rattle.tower_reader.specs.Part.{first, rest, no_id, no_raw, as_tower, as_name, as_number, as_byte, as_literal, as_type, as_place, as_expr, as_block, block_at, if_stmt, if_field, if_hpart, if_part, if_item, stmts};
ghost use Rattle.tower_reader.specs.View.{seen, all_seen};

use crate::part::{Block, Children, Part};
use sqlite_items::{Boxed, Items};
use std::alloc::Global;
use tower_syntax::{
    Id, Raw, RawExpr, RawField, RawHpart, RawItem, RawPart, RawPlace, RawStmt, RawType,
};
use tower_types::{Name, NoMemory};

/// The next part, or nothing.
pub(crate) fn next(children: &mut Children) -> Part
    ensures value { seen result ≡ first (all_seen (into_iter_items children.old)) }
    ensures left { all_seen (into_iter_items children.new) ≡ rest (all_seen (into_iter_items children.old)) }
{
    match children.next() {
        None => Part::Nothing,
        Some(part) => part,
    }
}

fn no_id(alloc: Global) -> Result<Id, NoMemory>
    ensures { IfOk result (λ id. id_of id ≡ no_id) }
{
    let name = Name::new(alloc, &[])?;
    Ok(Id { at: 0, name })
}

pub(crate) fn name(alloc: Global, children: &mut Children) -> Result<Id, NoMemory>
    ensures value { IfOk result (λ x. id_of x ≡ as_name (first (all_seen (into_iter_items children.old)))) }
    ensures left { OnOk result (all_seen (into_iter_items children.new) ≡ rest (all_seen (into_iter_items children.old))) }
{
    match next(children).into_name() {
        Some(found) => Ok(found),
        None => no_id(alloc),
    }
}

pub(crate) fn number(children: &mut Children) -> u32
    ensures value { result ≡ as_number (first (all_seen (into_iter_items children.old))) }
    ensures left { all_seen (into_iter_items children.new) ≡ rest (all_seen (into_iter_items children.old)) }
{
    match next(children).into_number() {
        Some(n) => n,
        None => 0,
    }
}

/// A number of one byte.
pub(crate) fn byte(children: &mut Children) -> u8
    ensures value { result ≡ as_byte (first (all_seen (into_iter_items children.old))) }
    ensures left { all_seen (into_iter_items children.new) ≡ rest (all_seen (into_iter_items children.old)) }
{
    number(children).min(255) as u8
}

pub(crate) fn literal(children: &mut Children) -> i128
    ensures value { result ≡ as_literal (first (all_seen (into_iter_items children.old))) }
    ensures left { all_seen (into_iter_items children.new) ≡ rest (all_seen (into_iter_items children.old)) }
{
    match next(children).into_literal() {
        Some(n) => n,
        None => 0,
    }
}

fn no_place(alloc: Global) -> Result<RawPlace, NoMemory>
    ensures { IfOk result (λ p. raw_place_of p ≡ root no_id) }
{
    let id = no_id(alloc)?;
    Ok(RawPlace::Root(id))
}

fn no_type(alloc: Global) -> Result<RawType, NoMemory>
    ensures { IfOk result (λ t. raw_type_of t ≡ rec no_id) }
{
    let id = no_id(alloc)?;
    Ok(RawType::Rec(id))
}

fn no_expr(alloc: Global) -> Result<RawExpr, NoMemory>
    ensures { IfOk result (λ e. raw_expr_of e ≡ read (root no_id)) }
{
    let place = no_place(alloc)?;
    Ok(RawExpr::Read(place))
}

fn no_raw(alloc: Global) -> Result<Raw, NoMemory>
    ensures { IfOk result (λ r. raw_of r ≡ no_raw) }
{
    let name = no_id(alloc)?;
    let items = Items::new(alloc);
    Ok(Raw {
        at: 0,
        version: 1,
        name,
        items,
    })
}

pub(crate) fn ty(alloc: Global, children: &mut Children) -> Result<RawType, NoMemory>
    ensures value { IfOk result (λ x. raw_type_of x ≡ as_type (first (all_seen (into_iter_items children.old)))) }
    ensures left { OnOk result (all_seen (into_iter_items children.new) ≡ rest (all_seen (into_iter_items children.old))) }
{
    match next(children).into_type() {
        Some(found) => Ok(found),
        None => no_type(alloc),
    }
}

pub(crate) fn place(alloc: Global, children: &mut Children) -> Result<RawPlace, NoMemory>
    ensures value { IfOk result (λ x. raw_place_of x ≡ as_place (first (all_seen (into_iter_items children.old)))) }
    ensures left { OnOk result (all_seen (into_iter_items children.new) ≡ rest (all_seen (into_iter_items children.old))) }
{
    match next(children).into_place() {
        Some(found) => Ok(found),
        None => no_place(alloc),
    }
}

/// An expression; a place is read.
pub(crate) fn expr(alloc: Global, children: &mut Children) -> Result<RawExpr, NoMemory>
    ensures value { IfOk result (λ x. raw_expr_of x ≡ as_expr (first (all_seen (into_iter_items children.old)))) }
    ensures left { OnOk result (all_seen (into_iter_items children.new) ≡ rest (all_seen (into_iter_items children.old))) }
{
    match next(children).into_expr() {
        Some(found) => Ok(found),
        None => no_expr(alloc),
    }
}

pub(crate) fn tower(alloc: Global, part: Part) -> Result<Raw, NoMemory>
    ensures { IfOk result (λ r. raw_of r ≡ as_tower (seen part)) }
{
    match part.into_tower() {
        Some(raw) => Ok(raw),
        None => no_raw(alloc),
    }
}

pub(crate) fn boxed_type(alloc: Global, children: &mut Children) -> Result<Boxed<RawType>, NoMemory>
    ensures value { IfOk result (λ x. raw_type_of x ≡ as_type (first (all_seen (into_iter_items children.old)))) }
    ensures left { OnOk result (all_seen (into_iter_items children.new) ≡ rest (all_seen (into_iter_items children.old))) }
{
    let found = ty(alloc, children)?;
    let boxed = Boxed::new(alloc, found)?;
    Ok(boxed)
}

pub(crate) fn boxed_place(
    alloc: Global,
    children: &mut Children,
) -> Result<Boxed<RawPlace>, NoMemory>
    ensures value { IfOk result (λ x. raw_place_of x ≡ as_place (first (all_seen (into_iter_items children.old)))) }
    ensures left { OnOk result (all_seen (into_iter_items children.new) ≡ rest (all_seen (into_iter_items children.old))) }
{
    let found = place(alloc, children)?;
    let boxed = Boxed::new(alloc, found)?;
    Ok(boxed)
}

pub(crate) fn boxed_expr(alloc: Global, children: &mut Children) -> Result<Boxed<RawExpr>, NoMemory>
    ensures value { IfOk result (λ x. raw_expr_of x ≡ as_expr (first (all_seen (into_iter_items children.old)))) }
    ensures left { OnOk result (all_seen (into_iter_items children.new) ≡ rest (all_seen (into_iter_items children.old))) }
{
    let found = expr(alloc, children)?;
    let boxed = Boxed::new(alloc, found)?;
    Ok(boxed)
}

/// The offset of a list `then` or `else`, and its statements.
pub(crate) fn block(alloc: Global, children: &mut Children) -> (u32, Items<RawStmt>)
    ensures at { result.0 ≡ block_at (first (all_seen (into_iter_items children.old))) }
    ensures stmts { all_raw_stmts_of result.1 ≡ as_block (first (all_seen (into_iter_items children.old))) }
    ensures left { all_seen (into_iter_items children.new) ≡ rest (all_seen (into_iter_items children.old)) }
{
    match next(children).into_block() {
        Some(Block { at, stmts }) => (at, stmts),
        None => (0, Items::new(alloc)),
    }
}

fn push_stmt(items: &mut Items<RawStmt>, part: Part) -> Result<(), NoMemory>
    ensures { OnOk result (map raw_stmt_of items.new ≡ map raw_stmt_of items.old ++ cons_option (if_stmt (seen part)) []) }
{
    if let Some(item) = part.into_stmt() {
        items.push(item)?;
    }
    Ok(())
}

#[tactic(auto, using(crate::proofs::Parts::filter_step, std::proofs::lemmas::Grind::common_steps))]
pub(crate) fn stmts(alloc: Global, mut children: Children) -> Result<Items<RawStmt>, NoMemory>
    ensures { IfOk result (λ items. map raw_stmt_of items ≡ filter_map if_stmt (all_seen (into_iter_items children))) }
{
    let mut items = Items::new(alloc);
    while let Some(part) = children.next() {
        push_stmt(&mut items, part)?;
    }
    Ok(items)
}

fn push_field(items: &mut Items<RawField>, part: Part) -> Result<(), NoMemory>
    ensures { OnOk result (map raw_field_of items.new ≡ map raw_field_of items.old ++ cons_option (if_field (seen part)) []) }
{
    if let Some(item) = part.into_field() {
        items.push(item)?;
    }
    Ok(())
}

#[tactic(auto, using(crate::proofs::Parts::filter_step, std::proofs::lemmas::Grind::common_steps))]
pub(crate) fn fields(alloc: Global, mut children: Children) -> Result<Items<RawField>, NoMemory>
    ensures { IfOk result (λ items. map raw_field_of items ≡ filter_map if_field (all_seen (into_iter_items children))) }
{
    let mut items = Items::new(alloc);
    while let Some(part) = children.next() {
        push_field(&mut items, part)?;
    }
    Ok(items)
}

fn push_hpart(items: &mut Items<RawHpart>, part: Part) -> Result<(), NoMemory>
    ensures { OnOk result (map raw_hpart_of items.new ≡ map raw_hpart_of items.old ++ cons_option (if_hpart (seen part)) []) }
{
    if let Some(item) = part.into_hpart() {
        items.push(item)?;
    }
    Ok(())
}

#[tactic(auto, using(crate::proofs::Parts::filter_step, std::proofs::lemmas::Grind::common_steps))]
pub(crate) fn hparts(alloc: Global, mut children: Children) -> Result<Items<RawHpart>, NoMemory>
    ensures { IfOk result (λ items. map raw_hpart_of items ≡ filter_map if_hpart (all_seen (into_iter_items children))) }
{
    let mut items = Items::new(alloc);
    while let Some(part) = children.next() {
        push_hpart(&mut items, part)?;
    }
    Ok(items)
}

fn push_part(items: &mut Items<RawPart>, part: Part) -> Result<(), NoMemory>
    ensures { OnOk result (map raw_part_of items.new ≡ map raw_part_of items.old ++ cons_option (if_part (seen part)) []) }
{
    if let Some(item) = part.into_part() {
        items.push(item)?;
    }
    Ok(())
}

#[tactic(auto, using(crate::proofs::Parts::filter_step, std::proofs::lemmas::Grind::common_steps))]
pub(crate) fn parts(alloc: Global, mut children: Children) -> Result<Items<RawPart>, NoMemory>
    ensures { IfOk result (λ items. map raw_part_of items ≡ filter_map if_part (all_seen (into_iter_items children))) }
{
    let mut items = Items::new(alloc);
    while let Some(part) = children.next() {
        push_part(&mut items, part)?;
    }
    Ok(items)
}

fn push_item(items: &mut Items<RawItem>, part: Part) -> Result<(), NoMemory>
    ensures { OnOk result (map raw_item_of items.new ≡ map raw_item_of items.old ++ cons_option (if_item (seen part)) []) }
{
    if let Some(item) = part.into_item() {
        items.push(item)?;
    }
    Ok(())
}

#[tactic(auto, using(crate::proofs::Parts::filter_step, std::proofs::lemmas::Grind::common_steps))]
pub(crate) fn items(alloc: Global, mut children: Children) -> Result<Items<RawItem>, NoMemory>
    ensures { IfOk result (λ items. map raw_item_of items ≡ filter_map if_item (all_seen (into_iter_items children))) }
{
    let mut items = Items::new(alloc);
    while let Some(part) = children.next() {
        push_item(&mut items, part)?;
    }
    Ok(items)
}
