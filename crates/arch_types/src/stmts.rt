//! Statements with their types. Where nothing but the height of expressions and places is wrong, the first that is
//! too high is told beside the tree; any other fault ends the walk.
ghost use Rattle.std.specs.Prelude.{◌≡◌, ◌++◌, ◌∷◌, [], None, length, map, slice_index_or, IfOk, IfErr, OnOk};
ghost use Rattle.tower_types.specs.View.{ty_of, fields_of};
ghost use Rattle.tower_syntax.specs.NamedView.{named_type_of, named_place_of, named_expr_of, named_stmt_of, all_named_stmts_of, link_of};
ghost use Rattle.tower_syntax.specs.RawView.{id_of};
ghost use Rattle.tower_syntax.specs.View.{stmt_of};
ghost use Rattle.tower_syntax.specs.RawTree.{bind, local, set, copy, branch, loop, emit};
ghost use Rattle.arch_types.specs.Body.{emitter_number, base, if_writable};
ghost use Rattle.tower_syntax.specs.Offset.{link_offset, place_offset};
ghost use Rattle.arch_types.specs.Typing.{type_of};
ghost use Rattle.arch_types.specs.Walk.{Gives, Passes, set_row, copy_row, branch_row, loop_row, write_misfit, walked, walked_all, may_write_among};
ghost use Rattle.arch_types.specs.Seen.{known, expr_in, kept_in, place_in, stmt_in, stmts_in};
ghost use Rattle.arch_types.specs.declared.fault.TypeFault.TheVariants.{NoMemory};

use crate::exprs::{KeptExpr, check_expr, check_place, keep_expr};
use crate::fault::TypeFault;
use crate::high::{High, earlier, first_high, high_expr, high_place};
use crate::lent::TypeRef;
use crate::rows::{TypedExpr, TypedPlace};
use crate::scope::{Bound, Scope, base, emitter_message, type_of, writable};
use crate::system::System;
use crate::wanted::{Asked, ask, ask_same};
use sqlite_items::Items;
use std::alloc::Global;
use tower_syntax::{Id, Link, NamedExpr, NamedPlace, NamedStmt, NamedType, Stmt, Target};
use tower_types::{Name, Scalar, Ty};

/// A statement of the checked tree, and the first of its expressions and places that is too high.
#[derive(Drop)]
pub struct Checked {
    pub tree: Stmt,
    pub high: Option<High>,
}

/// The same of a list of statements.
#[derive(Drop)]
pub struct AllChecked {
    pub trees: Items<Stmt>,
    pub high: Option<High>,
}

/// Binds the next name, whose number is answered.
fn bind(
    alloc: Global,
    bound: &mut Bound,
    name: &Id,
    ty: Ty,
    writable: bool,
) -> Result<u32, TypeFault>
    ensures number { IfOk result (λ n. n ≡ length (fields_of bound.old.names)) }
    ensures names { OnOk result (fields_of bound.new.names ≡ fields_of bound.old.names ++ ((id_of name.now).name, ty_of ty) ∷ []) }
    ensures writable { OnOk result (bound.new.writable ≡ bound.old.writable ++ writable ∷ []) }
    ensures memory { IfErr result (λ f. f ≡ NoMemory) }
{
    let Ok(number) = u32::try_from(bound.names.len()) else {
        return Err(TypeFault::NoMemory);
    };
    let name = name.name.copy(alloc)?;
    bound.names.push((name, ty))?;
    bound.writable.push(writable)?;
    Ok(number)
}

fn check_let(
    alloc: Global,
    system: &System,
    scope: &Scope,
    bound: &mut Bound,
    name: &Id,
    value: &NamedExpr,
) -> Result<Checked, TypeFault>
    ensures { Gives (λ c. stmt_in c bound.new) (walked (known system.now scope.now bound.old) (bind 0 (id_of name.now) (named_expr_of value.now))) result }
{
    let typed = keep_expr(alloc, system, scope, bound, value)?;
    let names = system.parts().record_names.as_slice();
    ask(
        alloc,
        names,
        value.at(),
        Asked::Scalar,
        TypeRef::of(&typed.ty),
    )?;
    let number = bind(alloc, bound, name, typed.ty, false)?;
    Ok(Checked {
        tree: Stmt::Bind(number, typed.tree),
        high: high_expr(value),
    })
}

fn check_local(
    alloc: Global,
    system: &System,
    scope: &Scope,
    bound: &mut Bound,
    name: &Id,
    ty: &NamedType,
) -> Result<Checked, TypeFault>
    ensures { Gives (λ c. stmt_in c bound.new) (walked (known system.now scope.now bound.old) (local 0 (id_of name.now) (named_type_of ty.now))) result }
{
    let ty = type_of(alloc, ty)?;
    let number = bind(alloc, bound, name, ty, true)?;
    Ok(Checked {
        tree: Stmt::Local(number),
        high: None,
    })
}

fn ask_writable(bound: &Bound, place: &NamedPlace) -> Result<(), TypeFault>
    ensures { Passes (if_writable (may_write_among bound.now.writable (base (named_place_of place.now))) (place_offset link_offset (named_place_of place.now)) None) result }
{
    if writable(bound, base(place)) {
        Ok(())
    } else {
        Err(TypeFault::NotPlace { at: place.at() })
    }
}

fn set_row(
    alloc: Global,
    system: &System,
    scope: &Scope,
    bound: &Bound,
    place: &NamedPlace,
    value: &NamedExpr,
    to: TypedPlace,
    from: TypedExpr,
) -> Result<Checked, TypeFault>
    ensures { Gives (λ c. stmt_in c bound.now) (set_row (known system.now scope.now bound.now) (named_place_of place.now) (named_expr_of value.now) (place_in to.entry) (expr_in from.entry)) result }
{
    let names = system.parts().record_names.as_slice();
    ask_writable(bound, place)?;
    ask(alloc, names, place.at(), Asked::Scalar, to.ty)?;
    let high = high_place(place);
    match ask_same(alloc, names, value.at(), to.ty, from.ty) {
        Ok(()) => {
            let next = high_expr(value);
            let place = to.place();
            Ok(Checked {
                tree: Stmt::Set(place, from.tree),
                high: first_high(high, next),
            })
        }
        Err(fault) => Err(earlier(high, fault)),
    }
}

fn check_set(
    alloc: Global,
    system: &System,
    scope: &Scope,
    bound: &Bound,
    place: &NamedPlace,
    value: &NamedExpr,
) -> Result<Checked, TypeFault>
    ensures { Gives (λ c. stmt_in c bound.now) (walked (known system.now scope.now bound.now) (set 0 (named_place_of place.now) (named_expr_of value.now))) result }
{
    let to = check_place(alloc, system, scope, bound, place)?;
    match check_expr(alloc, system, scope, bound, value) {
        Ok(from) => {
            let made = set_row(alloc, system, scope, bound, place, value, to, from)?;
            Ok(made)
        }
        Err(fault) => {
            let high = high_place(place);
            Err(earlier(high, fault))
        }
    }
}

fn copy_row(
    alloc: Global,
    system: &System,
    scope: &Scope,
    bound: &Bound,
    place: &NamedPlace,
    value: &NamedPlace,
    to: TypedPlace,
    from: TypedPlace,
) -> Result<Checked, TypeFault>
    ensures { Gives (λ c. stmt_in c bound.now) (copy_row (known system.now scope.now bound.now) (named_place_of place.now) (named_place_of value.now) (place_in to.entry) (place_in from.entry)) result }
{
    ask_writable(bound, place)?;
    let high = high_place(place);
    let names = system.parts().record_names.as_slice();
    match ask_same(alloc, names, value.at(), to.ty, from.ty) {
        Ok(()) => {
            let next = high_place(value);
            let place = to.place();
            let value = from.place();
            Ok(Checked {
                tree: Stmt::Copy(place, value),
                high: first_high(high, next),
            })
        }
        Err(fault) => Err(earlier(high, fault)),
    }
}

fn check_copy(
    alloc: Global,
    system: &System,
    scope: &Scope,
    bound: &Bound,
    place: &NamedPlace,
    value: &NamedPlace,
) -> Result<Checked, TypeFault>
    ensures { Gives (λ c. stmt_in c bound.now) (walked (known system.now scope.now bound.now) (copy 0 (named_place_of place.now) (named_place_of value.now))) result }
{
    let to = check_place(alloc, system, scope, bound, place)?;
    match check_place(alloc, system, scope, bound, value) {
        Ok(from) => {
            let made = copy_row(alloc, system, scope, bound, place, value, to, from)?;
            Ok(made)
        }
        Err(fault) => {
            let high = high_place(place);
            Err(earlier(high, fault))
        }
    }
}

fn emitter_number(target: Target) -> u32
    ensures { result ≡ emitter_number target }
{
    match target {
        Target::Emitter(k) => k,
        _ => 0,
    }
}

fn check_emit(
    alloc: Global,
    system: &System,
    scope: &Scope,
    bound: &Bound,
    emitter: &Link,
    value: &NamedExpr,
) -> Result<Checked, TypeFault>
    ensures { Gives (λ c. stmt_in c bound.now) (walked (known system.now scope.now bound.now) (emit 0 (link_of emitter.now) (named_expr_of value.now))) result }
{
    let typed = check_expr(alloc, system, scope, bound, value)?;
    let k = emitter_number(emitter.target);
    let parts = system.parts();
    let names = parts.record_names.as_slice();
    let message = emitter_message(parts, scope, k);
    ask_same(alloc, names, value.at(), message, typed.ty)?;
    Ok(Checked {
        tree: Stmt::Emit(k, typed.tree),
        high: high_expr(value),
    })
}

/// An `if` whose branches are checked, and what is too high in it. The type of its test is asked behind them.
fn branch_row(
    alloc: Global,
    names: &[Name],
    bound: &Bound,
    test: &NamedExpr,
    typed: KeptExpr,
    high: Option<High>,
    left: Items<Stmt>,
    right: AllChecked,
) -> Result<Checked, TypeFault>
    ensures { Gives (λ c. stmt_in c bound.now) (branch_row names.now (named_expr_of test.now) (kept_in typed) high (map stmt_of left) (stmts_in right bound.now)) result }
{
    ask(
        alloc,
        names,
        test.at(),
        Asked::Truth,
        TypeRef::of(&typed.ty),
    )?;
    Ok(Checked {
        tree: Stmt::Branch(typed.tree, left, right.trees),
        high: first_high(high, right.high),
    })
}

/// An `if`. What is wrong with its test's type is told behind what is wrong in its branches.
#[cycle(stmts)]
fn check_branch(
    alloc: Global,
    system: &System,
    scope: &Scope,
    bound: &mut Bound,
    test: &NamedExpr,
    yes: &[NamedStmt],
    no: &[NamedStmt],
) -> Result<Checked, TypeFault>
    ensures { Gives (λ c. stmt_in c bound.new) (walked (known system.now scope.now bound.old) (branch 0 (named_expr_of test.now) 0 (all_named_stmts_of yes.now) 0 (all_named_stmts_of no.now))) result }
{
    let names = system.parts().record_names.as_slice();
    let typed = keep_expr(alloc, system, scope, bound, test)?;
    let high = high_expr(test);
    let left = match check_stmts(alloc, system, scope, bound, yes) {
        Ok(left) => left,
        Err(fault) => return Err(earlier(high, fault)),
    };
    let high = first_high(high, left.high);
    let right = match check_stmts(alloc, system, scope, bound, no) {
        Ok(right) => right,
        Err(fault) => return Err(earlier(high, fault)),
    };
    let made = branch_row(alloc, names, bound, test, typed, high, left.trees, right)?;
    Ok(made)
}

#[cycle(stmts)]
fn check_loop(
    alloc: Global,
    system: &System,
    scope: &Scope,
    bound: &mut Bound,
    name: &Id,
    times: u32,
    body: &[NamedStmt],
) -> Result<Checked, TypeFault>
    ensures { Gives (λ c. stmt_in c bound.new) (walked (known system.now scope.now bound.old) (loop 0 (id_of name.now) times (all_named_stmts_of body.now))) result }
{
    let number = bind(alloc, bound, name, Ty::Scalar(Scalar::Ix(times)), false)?;
    let inner = check_stmts(alloc, system, scope, bound, body)?;
    Ok(Checked {
        tree: Stmt::Loop(number, times, inner.trees),
        high: inner.high,
    })
}

#[cycle(stmts)]
fn check_stmt(
    alloc: Global,
    system: &System,
    scope: &Scope,
    bound: &mut Bound,
    stmt: &NamedStmt,
) -> Result<Checked, TypeFault>
    ensures { Gives (λ c. stmt_in c bound.new) (walked (known system.now scope.now bound.old) (named_stmt_of stmt.now)) result }
{
    match stmt {
        NamedStmt::Bind { name, value, .. } => check_let(alloc, system, scope, bound, name, value),
        NamedStmt::Local { name, ty, .. } => check_local(alloc, system, scope, bound, name, ty),
        NamedStmt::Set { place, value, .. } => check_set(alloc, system, scope, bound, place, value),
        NamedStmt::Copy { to, from, .. } => check_copy(alloc, system, scope, bound, to, from),
        NamedStmt::Branch { test, yes, no, .. } => {
            let (yes, no) = (yes.as_slice(), no.as_slice());
            check_branch(alloc, system, scope, bound, test, yes, no)
        }
        NamedStmt::Loop {
            name,
            times,
            body,
            ..
        } => check_loop(alloc, system, scope, bound, name, *times, body.as_slice()),
        NamedStmt::Emit { emitter, value, .. } => {
            check_emit(alloc, system, scope, bound, emitter, value)
        }
    }
}

/// A list of statements. The names that it binds stay bound.
#[cycle(stmts)]
pub fn check_stmts(
    alloc: Global,
    system: &System,
    scope: &Scope,
    bound: &mut Bound,
    stmts: &[NamedStmt],
) -> Result<AllChecked, TypeFault>
    ensures { Gives (λ c. stmts_in c bound.new) (walked_all (known system.now scope.now bound.old) (all_named_stmts_of stmts.now)) result }
{
    let mut trees = Items::new(alloc);
    let mut high = None;
    for stmt in stmts {
        let made = match check_stmt(alloc, system, scope, bound, stmt) {
            Ok(made) => made,
            Err(fault) => return Err(earlier(high, fault)),
        };
        high = first_high(high, made.high);
        trees.push(made.tree)?;
    }
    Ok(AllChecked { trees, high })
}
