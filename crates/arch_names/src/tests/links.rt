//! The links of a tree in text order, for the forms that the files of the tests have.

use std::alloc::Global;
use tower_syntax::{
    Link, Named, NamedExpr, NamedField, NamedHpart, NamedItem, NamedPart, NamedPlace, NamedStmt,
    NamedType,
};
use tower_types::NoMemory;

fn in_type(links: &mut Vec<Link>, ty: &NamedType) -> Result<(), NoMemory> {
    if let NamedType::Rec(link) = ty {
        links.push(*link)?;
    }
    Ok(())
}

fn in_place(links: &mut Vec<Link>, place: &NamedPlace) -> Result<(), NoMemory> {
    if let NamedPlace::Root(link) = place {
        links.push(*link)?;
    }
    Ok(())
}

fn in_expr(links: &mut Vec<Link>, expr: &NamedExpr) -> Result<(), NoMemory> {
    if let NamedExpr::Read(place) = expr {
        in_place(links, place)?;
    }
    Ok(())
}

#[cycle(stmts)]
fn in_stmt(links: &mut Vec<Link>, stmt: &NamedStmt) -> Result<(), NoMemory> {
    match stmt {
        NamedStmt::Bind { value, .. } => in_expr(links, value)?,
        NamedStmt::Set { place, value, .. } => {
            in_place(links, place)?;
            in_expr(links, value)?;
        }
        NamedStmt::Copy { to, from, .. } => {
            in_place(links, to)?;
            in_place(links, from)?;
        }
        NamedStmt::Loop { body, .. } => in_stmts(links, body.as_slice())?,
        NamedStmt::Emit { emitter, value, .. } => {
            links.push(*emitter)?;
            in_expr(links, value)?;
        }
        _ => {}
    }
    Ok(())
}

#[cycle(stmts)]
fn in_stmts(links: &mut Vec<Link>, stmts: &[NamedStmt]) -> Result<(), NoMemory> {
    for stmt in stmts {
        in_stmt(links, stmt)?;
    }
    Ok(())
}

fn in_hpart(links: &mut Vec<Link>, part: &NamedHpart) -> Result<(), NoMemory> {
    match part {
        NamedHpart::Emitter { channel, .. } => links.push(*channel)?,
        NamedHpart::Callback { stmts, .. } => in_stmts(links, stmts.as_slice())?,
    }
    Ok(())
}

fn in_part(links: &mut Vec<Link>, part: &NamedPart) -> Result<(), NoMemory> {
    match part {
        NamedPart::State { ty, .. } => in_type(links, ty)?,
        NamedPart::Handler { on, parts, .. } => {
            links.push(*on)?;
            for part in parts.as_slice() {
                in_hpart(links, part)?;
            }
        }
    }
    Ok(())
}

fn in_fields(links: &mut Vec<Link>, fields: &[NamedField]) -> Result<(), NoMemory> {
    for field in fields {
        in_type(links, &field.ty)?;
    }
    Ok(())
}

fn in_item(links: &mut Vec<Link>, item: &NamedItem) -> Result<(), NoMemory> {
    match item {
        NamedItem::Record { fields, .. } => in_fields(links, fields.as_slice())?,
        NamedItem::Signal { message, .. } | NamedItem::Channel { message, .. } => {
            in_type(links, message)?;
        }
        NamedItem::Output { channel, .. } => links.push(*channel)?,
        NamedItem::Monitor { parts, .. } => {
            for part in parts.as_slice() {
                in_part(links, part)?;
            }
        }
        _ => {}
    }
    Ok(())
}

pub fn links_of(alloc: Global, named: &Named) -> Result<Vec<Link>, NoMemory> {
    let mut links = Vec::new(alloc);
    for item in named.items.as_slice() {
        in_item(&mut links, item)?;
    }
    Ok(links)
}
