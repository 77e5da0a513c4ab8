//! Places and expressions with their types.
ghost use Rattle.std.specs.Prelude.{◌≡◌};
ghost use Rattle.tower_syntax.specs.NamedView.{named_type_of, named_place_of, named_expr_of};
ghost use Rattle.tower_syntax.specs.RawTree.{un, bin, choose, cast};
ghost use Rattle.arch_types.specs.Walk.{Gives, typed_place, typed};
ghost use Rattle.arch_types.specs.Seen.{known, expr_in, place_in, kept_in};

use crate::fault::TypeFault;
use crate::lent::TypeRef;
use crate::rows::{
    TypedExpr, TypedPlace, bin_row, cast_row, choose_row, get_row, index_row, literal, read_row,
    un_row,
};
use crate::scope::{Bound, Scope, name_type, root_at, type_of};
use crate::system::System;
use sqlite_items::Items;
use std::alloc::Global;
use tower_syntax::{Expr, NamedExpr, NamedPlace, NamedType};
use tower_types::{BinOp, Scalar, Ty, UnOp};

/// An expression of the checked tree with a type that lends nothing.
#[derive(Drop)]
pub struct KeptExpr {
    pub tree: Expr,
    pub ty: Ty,
}

#[cycle(exprs)]
pub fn check_place<'a>(
    alloc: Global,
    system: &System<'a>,
    scope: &Scope<'a>,
    bound: &'a Bound,
    place: &NamedPlace,
) -> Result<TypedPlace<'a>, TypeFault>
    ensures { Gives place_in (typed_place (known system.now scope.now bound.now) (named_place_of place.now)) result }
{
    let parts = system.parts();
    let names = parts.record_names.as_slice();
    match place {
        NamedPlace::Root(link) => {
            let ty = name_type(parts, scope, bound, link.target);
            let root = root_at(link.target);
            let steps = Items::new(alloc);
            Ok(TypedPlace { root, steps, ty })
        }
        NamedPlace::Get { base, field, .. } => {
            let whole = check_place(alloc, system, scope, bound, base.get())?;
            let part = get_row(alloc, system, base.get().at(), whole, field)?;
            Ok(part)
        }
        NamedPlace::At { base, index, .. } => {
            let whole = check_place(alloc, system, scope, bound, base.get())?;
            let number = check_expr(alloc, system, scope, bound, index.get())?;
            let part = index_row(
                alloc,
                names,
                base.get().at(),
                whole,
                index.get().at(),
                number,
            )?;
            Ok(part)
        }
    }
}

#[cycle(exprs)]
pub fn check_expr<'a>(
    alloc: Global,
    system: &System<'a>,
    scope: &Scope<'a>,
    bound: &'a Bound,
    expr: &NamedExpr,
) -> Result<TypedExpr<'a>, TypeFault>
    ensures { Gives expr_in (typed (known system.now scope.now bound.now) (named_expr_of expr.now)) result }
{
    match expr {
        NamedExpr::Truth { yes, .. } => Ok(TypedExpr {
            tree: Expr::Lit(Scalar::Bool, i128::from(*yes)),
            ty: TypeRef::Scalar(Scalar::Bool),
        }),
        NamedExpr::Read(place) => {
            let read = check_place(alloc, system, scope, bound, place)?;
            let made = read_row(read);
            Ok(made)
        }
        NamedExpr::Lit { at, scalar, value } => literal(*at, *scalar, *value),
        NamedExpr::Un { op, a, .. } => check_un(alloc, system, scope, bound, *op, a.get()),
        NamedExpr::Bin { op, a, b, .. } => {
            check_bin(alloc, system, scope, bound, *op, a.get(), b.get())
        }
        NamedExpr::Cond { test, yes, no, .. } => {
            let (yes, no) = (yes.get(), no.get());
            check_cond(alloc, system, scope, bound, test.get(), yes, no)
        }
        NamedExpr::Cast { ty, a, .. } => check_cast(alloc, system, scope, bound, ty, a.get()),
    }
}

#[cycle(exprs)]
fn check_un<'a>(
    alloc: Global,
    system: &System<'a>,
    scope: &Scope<'a>,
    bound: &'a Bound,
    op: UnOp,
    a: &NamedExpr,
) -> Result<TypedExpr<'a>, TypeFault>
    ensures { Gives expr_in (typed (known system.now scope.now bound.now) (un 0 op (named_expr_of a.now))) result }
{
    let names = system.parts().record_names.as_slice();
    let x = check_expr(alloc, system, scope, bound, a)?;
    let made = un_row(alloc, names, op, a.at(), x)?;
    Ok(made)
}

#[cycle(exprs)]
fn check_bin<'a>(
    alloc: Global,
    system: &System<'a>,
    scope: &Scope<'a>,
    bound: &'a Bound,
    op: BinOp,
    a: &NamedExpr,
    b: &NamedExpr,
) -> Result<TypedExpr<'a>, TypeFault>
    ensures { Gives expr_in (typed (known system.now scope.now bound.now) (bin 0 op (named_expr_of a.now) (named_expr_of b.now))) result }
{
    let names = system.parts().record_names.as_slice();
    let x = check_expr(alloc, system, scope, bound, a)?;
    let y = check_expr(alloc, system, scope, bound, b)?;
    let made = bin_row(alloc, names, op, a.at(), x, b.at(), y)?;
    Ok(made)
}

#[cycle(exprs)]
fn check_cond<'a>(
    alloc: Global,
    system: &System<'a>,
    scope: &Scope<'a>,
    bound: &'a Bound,
    test: &NamedExpr,
    yes: &NamedExpr,
    no: &NamedExpr,
) -> Result<TypedExpr<'a>, TypeFault>
    ensures { Gives expr_in (typed (known system.now scope.now bound.now) (choose 0 (named_expr_of test.now) (named_expr_of yes.now) (named_expr_of no.now))) result }
{
    let names = system.parts().record_names.as_slice();
    let w = check_expr(alloc, system, scope, bound, test)?;
    let x = check_expr(alloc, system, scope, bound, yes)?;
    let y = check_expr(alloc, system, scope, bound, no)?;
    let w = (test.at(), w);
    let x = (yes.at(), x);
    let y = (no.at(), y);
    let made = choose_row(alloc, names, w, x, y)?;
    Ok(made)
}

#[cycle(exprs)]
fn check_cast<'a>(
    alloc: Global,
    system: &System<'a>,
    scope: &Scope<'a>,
    bound: &'a Bound,
    ty: &NamedType,
    a: &NamedExpr,
) -> Result<TypedExpr<'a>, TypeFault>
    ensures { Gives expr_in (typed (known system.now scope.now bound.now) (cast 0 (named_type_of ty.now) (named_expr_of a.now))) result }
{
    let names = system.parts().record_names.as_slice();
    let to = type_of(alloc, ty)?;
    let x = check_expr(alloc, system, scope, bound, a)?;
    let made = cast_row(alloc, names, ty.at(), TypeRef::of(&to), a.at(), x)?;
    Ok(made)
}

/// An expression with its type copied, because names are bound while the type is still needed.
pub fn keep_expr(
    alloc: Global,
    system: &System,
    scope: &Scope,
    bound: &Bound,
    expr: &NamedExpr,
) -> Result<KeptExpr, TypeFault>
    ensures { Gives kept_in (typed (known system.now scope.now bound.now) (named_expr_of expr.now)) result }
{
    let TypedExpr { tree, ty } = check_expr(alloc, system, scope, bound, expr)?;
    let ty = ty.copy(alloc)?;
    Ok(KeptExpr { tree, ty })
}
