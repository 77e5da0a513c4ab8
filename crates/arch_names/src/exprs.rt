//! Types, places and expressions with their names looked up.
ghost use Rattle.std.specs.Prelude.{◌≡◌, [], ◌∷◌, None, Option, IfOk, IfErr};
ghost use Rattle.tower_syntax.specs.RawView.{raw_type_of, raw_place_of, raw_expr_of};
ghost use Rattle.tower_syntax.specs.NamedView.{named_type_of, named_place_of, named_expr_of};
ghost use Rattle.arch_names.specs.Names.{find};
ghost use Rattle.arch_names.specs.Sites.{in_scope, type_sites, place_sites, expr_sites};
ghost use Rattle.arch_names.specs.Linked.{linked_type, linked_place, linked_expr};
ghost use Rattle.arch_names.specs.Walk.{meant, IsMade, IsFault};

use crate::fault::{NameFault, Sort};
use crate::names::{Names, Scope, Thing};
use crate::uses::{known, pick, refer, refer_before};
use sqlite_items::Boxed;
use std::alloc::Global;
use tower_syntax::{Link, NamedExpr, NamedPlace, NamedType, RawExpr, RawPlace, RawType, Target};
use tower_types::{BinOp, UnOp};

/// A type. In a field of a record it is told where that record is declared.
pub fn name_type(
    alloc: Global,
    file: &Names<Thing>,
    within: Option<u32>,
    ty: &RawType,
) -> Result<NamedType, NameFault>
    ensures ok { IfOk result (IsMade (type_sites (find file.now) within (raw_type_of ty.now)) named_type_of (linked_type meant (find file.now) within (raw_type_of ty.now))) }
    ensures err { IfErr result (IsFault (type_sites (find file.now) within (raw_type_of ty.now))) }
{
    match ty {
        RawType::Word { at, scalar } => Ok(NamedType::Word {
            at: *at,
            scalar: *scalar,
        }),
        RawType::Rec(used) => {
            let link = match within {
                None => refer(file, Sort::Record, used)?,
                Some(record_at) => refer_before(file, record_at, used)?,
            };
            Ok(NamedType::Rec(link))
        }
        RawType::Array { at, len, item } => {
            let item = name_type(alloc, file, within, item.get())?;
            let item = Boxed::new(alloc, item)?;
            Ok(NamedType::Array {
                at: *at,
                len: *len,
                item,
            })
        }
    }
}

#[cycle(exprs)]
pub fn name_place(
    alloc: Global,
    file: &Names<Thing>,
    states: &Names<Target>,
    scope: &Scope,
    place: &RawPlace,
) -> Result<NamedPlace, NameFault>
    ensures ok { let known = in_scope (find states.now) scope.now in IfOk result (IsMade (place_sites (find file.now) known (raw_place_of place.now)) named_place_of (linked_place meant (find file.now) known (raw_place_of place.now))) }
    ensures err { IfErr result (IsFault (place_sites (find file.now) (in_scope (find states.now) scope.now) (raw_place_of place.now))) }
{
    match place {
        RawPlace::Root(used) => {
            let found = known(states, scope, &used.name);
            let link = pick(found, used)?;
            Ok(NamedPlace::Root(link))
        }
        RawPlace::Get { at, base, field } => {
            let base = name_place(alloc, file, states, scope, base.get())?;
            let base = Boxed::new(alloc, base)?;
            let field = field.copy(alloc)?;
            Ok(NamedPlace::Get {
                at: *at,
                base,
                field,
            })
        }
        RawPlace::At { at, base, index } => {
            let base = name_place(alloc, file, states, scope, base.get())?;
            let index = name_expr(alloc, file, states, scope, index.get())?;
            let base = Boxed::new(alloc, base)?;
            let index = Boxed::new(alloc, index)?;
            Ok(NamedPlace::At {
                at: *at,
                base,
                index,
            })
        }
    }
}

#[cycle(exprs)]
pub fn name_expr(
    alloc: Global,
    file: &Names<Thing>,
    states: &Names<Target>,
    scope: &Scope,
    expr: &RawExpr,
) -> Result<NamedExpr, NameFault>
    ensures ok { let known = in_scope (find states.now) scope.now in IfOk result (IsMade (expr_sites (find file.now) known (raw_expr_of expr.now)) named_expr_of (linked_expr meant (find file.now) known (raw_expr_of expr.now))) }
    ensures err { IfErr result (IsFault (expr_sites (find file.now) (in_scope (find states.now) scope.now) (raw_expr_of expr.now))) }
{
    match expr {
        RawExpr::Truth { at, yes } => Ok(NamedExpr::Truth { at: *at, yes: *yes }),
        RawExpr::Read(place) => {
            let place = name_place(alloc, file, states, scope, place)?;
            Ok(NamedExpr::Read(place))
        }
        RawExpr::Lit { at, scalar, value } => Ok(NamedExpr::Lit {
            at: *at,
            scalar: *scalar,
            value: *value,
        }),
        RawExpr::Un { at, op, a } => named_un(alloc, file, states, scope, *at, *op, a.get()),
        RawExpr::Bin { at, op, a, b } => {
            named_bin(alloc, file, states, scope, *at, *op, a.get(), b.get())
        }
        RawExpr::Cond { at, test, yes, no } => {
            let (yes, no) = (yes.get(), no.get());
            named_cond(alloc, file, states, scope, *at, test.get(), yes, no)
        }
        RawExpr::Cast { at, ty, a } => named_cast(alloc, file, states, scope, *at, ty, a.get()),
    }
}

#[cycle(exprs)]
fn named_un(
    alloc: Global,
    file: &Names<Thing>,
    states: &Names<Target>,
    scope: &Scope,
    at: u32,
    op: UnOp,
    a: &RawExpr,
) -> Result<NamedExpr, NameFault>
    ensures ok { let known = in_scope (find states.now) scope.now in let expr = RawExpr.Un at op a.now in IfOk result (IsMade (expr_sites (find file.now) known (raw_expr_of expr)) named_expr_of (linked_expr meant (find file.now) known (raw_expr_of expr))) }
    ensures err { IfErr result (IsFault (expr_sites (find file.now) (in_scope (find states.now) scope.now) (raw_expr_of (RawExpr.Un at op a.now)))) }
{
    let a = name_boxed(alloc, file, states, scope, a)?;
    Ok(NamedExpr::Un { at, op, a })
}

#[cycle(exprs)]
fn named_bin(
    alloc: Global,
    file: &Names<Thing>,
    states: &Names<Target>,
    scope: &Scope,
    at: u32,
    op: BinOp,
    a: &RawExpr,
    b: &RawExpr,
) -> Result<NamedExpr, NameFault>
    ensures ok { let known = in_scope (find states.now) scope.now in let expr = RawExpr.Bin at op a.now b.now in IfOk result (IsMade (expr_sites (find file.now) known (raw_expr_of expr)) named_expr_of (linked_expr meant (find file.now) known (raw_expr_of expr))) }
    ensures err { IfErr result (IsFault (expr_sites (find file.now) (in_scope (find states.now) scope.now) (raw_expr_of (RawExpr.Bin at op a.now b.now)))) }
{
    let a = name_boxed(alloc, file, states, scope, a)?;
    let b = name_boxed(alloc, file, states, scope, b)?;
    Ok(NamedExpr::Bin { at, op, a, b })
}

#[cycle(exprs)]
fn named_cond(
    alloc: Global,
    file: &Names<Thing>,
    states: &Names<Target>,
    scope: &Scope,
    at: u32,
    test: &RawExpr,
    yes: &RawExpr,
    no: &RawExpr,
) -> Result<NamedExpr, NameFault>
    ensures ok { let known = in_scope (find states.now) scope.now in let expr = RawExpr.Cond at test.now yes.now no.now in IfOk result (IsMade (expr_sites (find file.now) known (raw_expr_of expr)) named_expr_of (linked_expr meant (find file.now) known (raw_expr_of expr))) }
    ensures err { IfErr result (IsFault (expr_sites (find file.now) (in_scope (find states.now) scope.now) (raw_expr_of (RawExpr.Cond at test.now yes.now no.now)))) }
{
    let test = name_boxed(alloc, file, states, scope, test)?;
    let yes = name_boxed(alloc, file, states, scope, yes)?;
    let no = name_boxed(alloc, file, states, scope, no)?;
    Ok(NamedExpr::Cond { at, test, yes, no })
}

#[cycle(exprs)]
fn named_cast(
    alloc: Global,
    file: &Names<Thing>,
    states: &Names<Target>,
    scope: &Scope,
    at: u32,
    ty: &RawType,
    a: &RawExpr,
) -> Result<NamedExpr, NameFault>
    ensures ok { let known = in_scope (find states.now) scope.now in let expr = RawExpr.Cast at ty.now a.now in IfOk result (IsMade (expr_sites (find file.now) known (raw_expr_of expr)) named_expr_of (linked_expr meant (find file.now) known (raw_expr_of expr))) }
    ensures err { IfErr result (IsFault (expr_sites (find file.now) (in_scope (find states.now) scope.now) (raw_expr_of (RawExpr.Cast at ty.now a.now)))) }
{
    let ty = name_type(alloc, file, None, ty)?;
    let a = name_boxed(alloc, file, states, scope, a)?;
    Ok(NamedExpr::Cast { at, ty, a })
}

#[cycle(exprs)]
fn name_boxed(
    alloc: Global,
    file: &Names<Thing>,
    states: &Names<Target>,
    scope: &Scope,
    expr: &RawExpr,
) -> Result<Boxed<NamedExpr>, NameFault>
    ensures ok { let known = in_scope (find states.now) scope.now in IfOk result (IsMade (expr_sites (find file.now) known (raw_expr_of expr.now)) named_expr_of (linked_expr meant (find file.now) known (raw_expr_of expr.now))) }
    ensures err { IfErr result (IsFault (expr_sites (find file.now) (in_scope (find states.now) scope.now) (raw_expr_of expr.now))) }
{
    let made = name_expr(alloc, file, states, scope, expr)?;
    Ok(Boxed::new(alloc, made)?)
}
