//! Places and expressions.
ghost use Rattle.std.specs.Prelude.{◌≡◌, IfOk};
ghost use Rattle.std.specs.Vec.Iter.{into_iter_items};
ghost use Rattle.tower_reader.specs.Part.{expr_part};
ghost use Rattle.tower_reader.specs.View.{seen, all_seen};

use crate::children::{boxed_expr, boxed_place, literal, name, number, ty};
use crate::part::{Children, Part};
use crate::table::ExprRow;
use std::alloc::Global;
use tower_syntax::{RawExpr, RawPlace};
use tower_types::{BinOp, NoMemory, Scalar, UnOp};

fn get(alloc: Global, at: u32, mut children: Children) -> Result<Part, NoMemory>
    ensures { IfOk result (λ p. seen p ≡ expr_part ExprRow.Get at (all_seen (into_iter_items children))) }
{
    let base = boxed_place(alloc, &mut children)?;
    let field = name(alloc, &mut children)?;
    Ok(Part::Place(RawPlace::Get { at, base, field }))
}

fn index(alloc: Global, at: u32, mut children: Children) -> Result<Part, NoMemory>
    ensures { IfOk result (λ p. seen p ≡ expr_part ExprRow.At at (all_seen (into_iter_items children))) }
{
    let base = boxed_place(alloc, &mut children)?;
    let index = boxed_expr(alloc, &mut children)?;
    Ok(Part::Place(RawPlace::At { at, base, index }))
}

fn lit_ix(at: u32, mut children: Children) -> Result<Part, NoMemory>
    ensures { IfOk result (λ p. seen p ≡ expr_part ExprRow.LitIx at (all_seen (into_iter_items children))) }
{
    let size = number(&mut children);
    let value = literal(&mut children);
    Ok(Part::Expr(RawExpr::Lit {
        at,
        scalar: Scalar::Ix(size),
        value,
    }))
}

fn choose(alloc: Global, at: u32, mut children: Children) -> Result<Part, NoMemory>
    ensures { IfOk result (λ p. seen p ≡ expr_part ExprRow.Cond at (all_seen (into_iter_items children))) }
{
    let test = boxed_expr(alloc, &mut children)?;
    let yes = boxed_expr(alloc, &mut children)?;
    let no = boxed_expr(alloc, &mut children)?;
    Ok(Part::Expr(RawExpr::Cond { at, test, yes, no }))
}

fn cast(alloc: Global, at: u32, mut children: Children) -> Result<Part, NoMemory>
    ensures { IfOk result (λ p. seen p ≡ expr_part ExprRow.Cast at (all_seen (into_iter_items children))) }
{
    let ty = ty(alloc, &mut children)?;
    let a = boxed_expr(alloc, &mut children)?;
    Ok(Part::Expr(RawExpr::Cast { at, ty, a }))
}

fn lit(scalar: Scalar, at: u32, mut children: Children) -> Result<Part, NoMemory>
    ensures { IfOk result (λ p. seen p ≡ expr_part (ExprRow.Lit scalar) at (all_seen (into_iter_items children))) }
{
    let value = literal(&mut children);
    Ok(Part::Expr(RawExpr::Lit { at, scalar, value }))
}

fn bin(alloc: Global, op: BinOp, at: u32, mut children: Children) -> Result<Part, NoMemory>
    ensures { IfOk result (λ p. seen p ≡ expr_part (ExprRow.Bin op) at (all_seen (into_iter_items children))) }
{
    let a = boxed_expr(alloc, &mut children)?;
    let b = boxed_expr(alloc, &mut children)?;
    Ok(Part::Expr(RawExpr::Bin { at, op, a, b }))
}

fn un(alloc: Global, op: UnOp, at: u32, mut children: Children) -> Result<Part, NoMemory>
    ensures { IfOk result (λ p. seen p ≡ expr_part (ExprRow.Un op) at (all_seen (into_iter_items children))) }
{
    let a = boxed_expr(alloc, &mut children)?;
    Ok(Part::Expr(RawExpr::Un { at, op, a }))
}

/// The place or expression that a row makes of its children's parts.
pub(crate) fn expr_part(
    alloc: Global,
    row: ExprRow,
    at: u32,
    children: Children,
) -> Result<Part, NoMemory>
    ensures { IfOk result (λ p. seen p ≡ expr_part row at (all_seen (into_iter_items children))) }
{
    match row {
        ExprRow::Get => get(alloc, at, children),
        ExprRow::At => index(alloc, at, children),
        ExprRow::Lit(scalar) => lit(scalar, at, children),
        ExprRow::LitIx => lit_ix(at, children),
        ExprRow::Bin(op) => bin(alloc, op, at, children),
        ExprRow::Un(op) => un(alloc, op, at, children),
        ExprRow::Cond => choose(alloc, at, children),
        ExprRow::Cast => cast(alloc, at, children),
    }
}
