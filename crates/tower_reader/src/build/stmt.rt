//! Statements and their parts.
ghost use Rattle.std.specs.Prelude.{◌≡◌, IfOk};
ghost use Rattle.std.specs.Vec.Iter.{into_iter_items};
ghost use Rattle.tower_reader.specs.Part.{stmt_part};
ghost use Rattle.tower_reader.specs.View.{seen, all_seen};

use crate::children::{block, expr, name, number, place, stmts, ty};
use crate::part::{Block, Children, Part};
use crate::table::StmtRow;
use std::alloc::Global;
use tower_syntax::RawStmt;
use tower_types::NoMemory;

fn bind(alloc: Global, at: u32, mut children: Children) -> Result<Part, NoMemory>
    ensures { IfOk result (λ p. seen p ≡ stmt_part StmtRow.Let at (all_seen (into_iter_items children))) }
{
    let id = name(alloc, &mut children)?;
    let value = expr(alloc, &mut children)?;
    Ok(Part::Stmt(RawStmt::Bind {
        at,
        name: id,
        value,
    }))
}

fn local(alloc: Global, at: u32, mut children: Children) -> Result<Part, NoMemory>
    ensures { IfOk result (λ p. seen p ≡ stmt_part StmtRow.Local at (all_seen (into_iter_items children))) }
{
    let id = name(alloc, &mut children)?;
    let ty = ty(alloc, &mut children)?;
    Ok(Part::Stmt(RawStmt::Local { at, name: id, ty }))
}

fn set(alloc: Global, at: u32, mut children: Children) -> Result<Part, NoMemory>
    ensures { IfOk result (λ p. seen p ≡ stmt_part StmtRow.Set at (all_seen (into_iter_items children))) }
{
    let place = place(alloc, &mut children)?;
    let value = expr(alloc, &mut children)?;
    Ok(Part::Stmt(RawStmt::Set { at, place, value }))
}

fn copy(alloc: Global, at: u32, mut children: Children) -> Result<Part, NoMemory>
    ensures { IfOk result (λ p. seen p ≡ stmt_part StmtRow.Copy at (all_seen (into_iter_items children))) }
{
    let to = place(alloc, &mut children)?;
    let from = place(alloc, &mut children)?;
    Ok(Part::Stmt(RawStmt::Copy { at, to, from }))
}

fn branch(alloc: Global, at: u32, mut children: Children) -> Result<Part, NoMemory>
    ensures { IfOk result (λ p. seen p ≡ stmt_part StmtRow.If at (all_seen (into_iter_items children))) }
{
    let test = expr(alloc, &mut children)?;
    let (yes_at, yes) = block(alloc, &mut children);
    let (no_at, no) = block(alloc, &mut children);
    Ok(Part::Stmt(RawStmt::Branch {
        at,
        test,
        yes_at,
        yes,
        no_at,
        no,
    }))
}

fn block_then(alloc: Global, at: u32, children: Children) -> Result<Part, NoMemory>
    ensures { IfOk result (λ p. seen p ≡ stmt_part StmtRow.Then at (all_seen (into_iter_items children))) }
{
    let stmts = stmts(alloc, children)?;
    Ok(Part::Block(Block { at, stmts }))
}

fn block_else(alloc: Global, at: u32, children: Children) -> Result<Part, NoMemory>
    ensures { IfOk result (λ p. seen p ≡ stmt_part StmtRow.Else at (all_seen (into_iter_items children))) }
{
    let stmts = stmts(alloc, children)?;
    Ok(Part::Block(Block { at, stmts }))
}

fn repeat(alloc: Global, at: u32, mut children: Children) -> Result<Part, NoMemory>
    ensures { IfOk result (λ p. seen p ≡ stmt_part StmtRow.For at (all_seen (into_iter_items children))) }
{
    let id = name(alloc, &mut children)?;
    let times = number(&mut children);
    let body = stmts(alloc, children)?;
    Ok(Part::Stmt(RawStmt::Loop {
        at,
        name: id,
        times,
        body,
    }))
}

fn emit(alloc: Global, at: u32, mut children: Children) -> Result<Part, NoMemory>
    ensures { IfOk result (λ p. seen p ≡ stmt_part StmtRow.Emit at (all_seen (into_iter_items children))) }
{
    let emitter = name(alloc, &mut children)?;
    let value = expr(alloc, &mut children)?;
    Ok(Part::Stmt(RawStmt::Emit { at, emitter, value }))
}

/// The statement, or part of one, that a row makes of its children's parts.
pub(crate) fn stmt_part(
    alloc: Global,
    row: StmtRow,
    at: u32,
    children: Children,
) -> Result<Part, NoMemory>
    ensures { IfOk result (λ p. seen p ≡ stmt_part row at (all_seen (into_iter_items children))) }
{
    match row {
        StmtRow::Let => bind(alloc, at, children),
        StmtRow::Local => local(alloc, at, children),
        StmtRow::Set => set(alloc, at, children),
        StmtRow::Copy => copy(alloc, at, children),
        StmtRow::If => branch(alloc, at, children),
        StmtRow::Then => block_then(alloc, at, children),
        StmtRow::Else => block_else(alloc, at, children),
        StmtRow::For => repeat(alloc, at, children),
        StmtRow::Emit => emit(alloc, at, children),
    }
}
