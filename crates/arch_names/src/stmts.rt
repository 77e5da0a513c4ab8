//! Statements with their names looked up.
ghost use Rattle.std.specs.Prelude.{◌≡◌, ◌+◌, [], ◌∷◌, None, OnOk, IfOk, IfErr};
ghost use Rattle.tower_syntax.specs.RawTree.{bind, local, set, copy, branch, loop, emit};
ghost use Rattle.tower_syntax.specs.RawView.{id_of, raw_type_of, raw_place_of, raw_expr_of, raw_stmt_of, all_raw_stmts_of};
ghost use Rattle.tower_syntax.specs.NamedView.{named_type_of, named_expr_of, named_stmt_of, all_named_stmts_of};
ghost use Rattle.arch_names.specs.Names.{find};
ghost use Rattle.arch_names.specs.Sites.{around_of, in_scope, new_name, type_sites, expr_sites, stmt_sites, all_sites, bound_by_all, past, with_name, after};
ghost use Rattle.arch_names.specs.Linked.{linked_type, linked_expr, linked_stmt, linked_all};
ghost use Rattle.arch_names.specs.Walk.{meant, IsMade, IsFault};

use crate::exprs::{name_expr, name_place, name_type};
use crate::fault::NameFault;
use crate::names::{Declared, Names, Scope, Thing};
use crate::uses::{bound_once, pick};
use sqlite_items::Items;
use std::alloc::Global;
use tower_syntax::{Id, NamedStmt, RawExpr, RawPlace, RawStmt, RawType, Target};

/// What stands around a callback: the file's set, the states of its monitor and the emitters of its handler.
#[derive(Clone, Copy)]
struct Around<'a> {
    file: &'a Names<Thing>,
    states: &'a Names<Target>,
    emitters: &'a Names<Target>,
}

/// Brings a name into scope.
fn add_name(alloc: Global, scope: &mut Scope, id: &Id) -> Result<(), NameFault>
    ensures ok { OnOk result (find scope.old.names id.now.name ≡ None → scope.new ≡ with_name scope.old (id_of id.now)) }
    ensures err { IfErr result (IsFault []) }
{
    let number = scope.binders;
    let Some(binders) = number.checked_add(1) else {
        return Err(NameFault::NoMemory);
    };
    let declared = Declared {
        at: id.at,
        what: Target::Binder(number),
    };
    scope.names.declare(alloc, &id.name, declared)?;
    scope.binders = binders;
    Ok(())
}

fn named_bind(
    alloc: Global,
    around: &Around,
    scope: &mut Scope,
    at: u32,
    name: &Id,
    value: &RawExpr,
) -> Result<NamedStmt, NameFault>
    ensures ok { let a = around_of (find around.now.file.now) (find around.now.states.now) (find around.now.emitters.now) in let stmt = bind at (id_of name.now) (raw_expr_of value.now) in IfOk result (IsMade (stmt_sites a scope.old stmt) named_stmt_of (linked_stmt meant a scope.old stmt)) }
    ensures err { let a = around_of (find around.now.file.now) (find around.now.states.now) (find around.now.emitters.now) in IfErr result (IsFault (stmt_sites a scope.old (bind at (id_of name.now) (raw_expr_of value.now)))) }
    ensures scope { OnOk result (scope.new ≡ after scope.old (bind at (id_of name.now) (raw_expr_of value.now))) }
{
    bound_once(around.states, scope, name)?;
    let value = name_expr(alloc, around.file, around.states, scope, value)?;
    add_name(alloc, scope, name)?;
    let name = name.copy(alloc)?;
    Ok(NamedStmt::Bind { at, name, value })
}

fn named_local(
    alloc: Global,
    around: &Around,
    scope: &mut Scope,
    at: u32,
    name: &Id,
    ty: &RawType,
) -> Result<NamedStmt, NameFault>
    ensures ok { let a = around_of (find around.now.file.now) (find around.now.states.now) (find around.now.emitters.now) in let stmt = local at (id_of name.now) (raw_type_of ty.now) in IfOk result (IsMade (stmt_sites a scope.old stmt) named_stmt_of (linked_stmt meant a scope.old stmt)) }
    ensures err { let a = around_of (find around.now.file.now) (find around.now.states.now) (find around.now.emitters.now) in IfErr result (IsFault (stmt_sites a scope.old (local at (id_of name.now) (raw_type_of ty.now)))) }
    ensures scope { OnOk result (scope.new ≡ after scope.old (local at (id_of name.now) (raw_type_of ty.now))) }
{
    bound_once(around.states, scope, name)?;
    let ty = name_type(alloc, around.file, None, ty)?;
    add_name(alloc, scope, name)?;
    let name = name.copy(alloc)?;
    Ok(NamedStmt::Local { at, name, ty })
}

fn named_set(
    alloc: Global,
    around: &Around,
    scope: &mut Scope,
    at: u32,
    place: &RawPlace,
    value: &RawExpr,
) -> Result<NamedStmt, NameFault>
    ensures ok { let a = around_of (find around.now.file.now) (find around.now.states.now) (find around.now.emitters.now) in let stmt = set at (raw_place_of place.now) (raw_expr_of value.now) in IfOk result (IsMade (stmt_sites a scope.old stmt) named_stmt_of (linked_stmt meant a scope.old stmt)) }
    ensures err { let a = around_of (find around.now.file.now) (find around.now.states.now) (find around.now.emitters.now) in IfErr result (IsFault (stmt_sites a scope.old (set at (raw_place_of place.now) (raw_expr_of value.now)))) }
    ensures scope { OnOk result (scope.new ≡ after scope.old (set at (raw_place_of place.now) (raw_expr_of value.now))) }
{
    let place = name_place(alloc, around.file, around.states, scope, place)?;
    let value = name_expr(alloc, around.file, around.states, scope, value)?;
    Ok(NamedStmt::Set { at, place, value })
}

fn named_copy(
    alloc: Global,
    around: &Around,
    scope: &mut Scope,
    at: u32,
    to: &RawPlace,
    from: &RawPlace,
) -> Result<NamedStmt, NameFault>
    ensures ok { let a = around_of (find around.now.file.now) (find around.now.states.now) (find around.now.emitters.now) in let stmt = copy at (raw_place_of to.now) (raw_place_of from.now) in IfOk result (IsMade (stmt_sites a scope.old stmt) named_stmt_of (linked_stmt meant a scope.old stmt)) }
    ensures err { let a = around_of (find around.now.file.now) (find around.now.states.now) (find around.now.emitters.now) in IfErr result (IsFault (stmt_sites a scope.old (copy at (raw_place_of to.now) (raw_place_of from.now)))) }
    ensures scope { OnOk result (scope.new ≡ after scope.old (copy at (raw_place_of to.now) (raw_place_of from.now))) }
{
    let to = name_place(alloc, around.file, around.states, scope, to)?;
    let from = name_place(alloc, around.file, around.states, scope, from)?;
    Ok(NamedStmt::Copy { at, to, from })
}

fn named_emit(
    alloc: Global,
    around: &Around,
    scope: &mut Scope,
    at: u32,
    emitter: &Id,
    value: &RawExpr,
) -> Result<NamedStmt, NameFault>
    ensures ok { let a = around_of (find around.now.file.now) (find around.now.states.now) (find around.now.emitters.now) in let stmt = emit at (id_of emitter.now) (raw_expr_of value.now) in IfOk result (IsMade (stmt_sites a scope.old stmt) named_stmt_of (linked_stmt meant a scope.old stmt)) }
    ensures err { let a = around_of (find around.now.file.now) (find around.now.states.now) (find around.now.emitters.now) in IfErr result (IsFault (stmt_sites a scope.old (emit at (id_of emitter.now) (raw_expr_of value.now)))) }
    ensures scope { OnOk result (scope.new ≡ after scope.old (emit at (id_of emitter.now) (raw_expr_of value.now))) }
{
    let found = around.emitters.get(&emitter.name);
    let emitter = pick(found, emitter)?;
    let value = name_expr(alloc, around.file, around.states, scope, value)?;
    Ok(NamedStmt::Emit { at, emitter, value })
}

#[cycle(stmts)]
fn named_branch(
    alloc: Global,
    around: &Around,
    scope: &mut Scope,
    at: u32,
    test: &RawExpr,
    yes_at: u32,
    yes: &[RawStmt],
    no_at: u32,
    no: &[RawStmt],
) -> Result<NamedStmt, NameFault>
    ensures ok { let a = around_of (find around.now.file.now) (find around.now.states.now) (find around.now.emitters.now) in let stmt = branch at (raw_expr_of test.now) yes_at (all_raw_stmts_of yes.now) no_at (all_raw_stmts_of no.now) in IfOk result (IsMade (stmt_sites a scope.old stmt) named_stmt_of (linked_stmt meant a scope.old stmt)) }
    ensures err { let a = around_of (find around.now.file.now) (find around.now.states.now) (find around.now.emitters.now) in IfErr result (IsFault (stmt_sites a scope.old (branch at (raw_expr_of test.now) yes_at (all_raw_stmts_of yes.now) no_at (all_raw_stmts_of no.now)))) }
    ensures scope { OnOk result (scope.new ≡ after scope.old (branch at (raw_expr_of test.now) yes_at (all_raw_stmts_of yes.now) no_at (all_raw_stmts_of no.now))) }
{
    let test = name_expr(alloc, around.file, around.states, scope, test)?;
    let yes = name_stmts(
        alloc,
        around.file,
        around.states,
        around.emitters,
        scope,
        yes,
    )?;
    let no = name_stmts(
        alloc,
        around.file,
        around.states,
        around.emitters,
        scope,
        no,
    )?;
    Ok(NamedStmt::Branch {
        at,
        test,
        yes_at,
        yes,
        no_at,
        no,
    })
}

#[cycle(stmts)]
fn named_loop(
    alloc: Global,
    around: &Around,
    scope: &mut Scope,
    at: u32,
    name: &Id,
    times: u32,
    body: &[RawStmt],
) -> Result<NamedStmt, NameFault>
    ensures ok { let a = around_of (find around.now.file.now) (find around.now.states.now) (find around.now.emitters.now) in let stmt = loop at (id_of name.now) times (all_raw_stmts_of body.now) in IfOk result (IsMade (stmt_sites a scope.old stmt) named_stmt_of (linked_stmt meant a scope.old stmt)) }
    ensures err { let a = around_of (find around.now.file.now) (find around.now.states.now) (find around.now.emitters.now) in IfErr result (IsFault (stmt_sites a scope.old (loop at (id_of name.now) times (all_raw_stmts_of body.now)))) }
    ensures scope { OnOk result (scope.new ≡ after scope.old (loop at (id_of name.now) times (all_raw_stmts_of body.now))) }
{
    bound_once(around.states, scope, name)?;
    let outer = scope.names.len();
    add_name(alloc, scope, name)?;
    let body = name_stmts(
        alloc,
        around.file,
        around.states,
        around.emitters,
        scope,
        body,
    )?;
    scope.names.truncate(outer);
    let name = name.copy(alloc)?;
    Ok(NamedStmt::Loop {
        at,
        name,
        times,
        body,
    })
}

/// A list of statements. Its names are out of scope afterwards.
#[cycle(stmts)]
pub fn name_stmts(
    alloc: Global,
    file: &Names<Thing>,
    states: &Names<Target>,
    emitters: &Names<Target>,
    scope: &mut Scope,
    stmts: &[RawStmt],
) -> Result<Items<NamedStmt>, NameFault>
    ensures ok { let around = around_of (find file.now) (find states.now) (find emitters.now) in IfOk result (IsMade (all_sites around scope.old (all_raw_stmts_of stmts.now)) all_named_stmts_of (linked_all meant around scope.old (all_raw_stmts_of stmts.now))) }
    ensures err { let around = around_of (find file.now) (find states.now) (find emitters.now) in IfErr result (IsFault (all_sites around scope.old (all_raw_stmts_of stmts.now))) }
    ensures scope { OnOk result (scope.new ≡ past scope.old (bound_by_all (all_raw_stmts_of stmts.now))) }
{
    let around = Around {
        file,
        states,
        emitters,
    };
    let before = scope.names.len();
    let mut made = Items::new(alloc);
    for stmt in stmts {
        let stmt = name_stmt(alloc, &around, scope, stmt)?;
        made.push(stmt)?;
    }
    scope.names.truncate(before);
    Ok(made)
}

#[cycle(stmts)]
fn name_stmt(
    alloc: Global,
    around: &Around,
    scope: &mut Scope,
    stmt: &RawStmt,
) -> Result<NamedStmt, NameFault>
    ensures ok { let a = around_of (find around.now.file.now) (find around.now.states.now) (find around.now.emitters.now) in IfOk result (IsMade (stmt_sites a scope.old (raw_stmt_of stmt.now)) named_stmt_of (linked_stmt meant a scope.old (raw_stmt_of stmt.now))) }
    ensures err { let a = around_of (find around.now.file.now) (find around.now.states.now) (find around.now.emitters.now) in IfErr result (IsFault (stmt_sites a scope.old (raw_stmt_of stmt.now))) }
    ensures scope { OnOk result (scope.new ≡ after scope.old (raw_stmt_of stmt.now)) }
{
    match stmt {
        RawStmt::Bind { at, name, value } => named_bind(alloc, around, scope, *at, name, value),
        RawStmt::Local { at, name, ty } => named_local(alloc, around, scope, *at, name, ty),
        RawStmt::Set { at, place, value } => named_set(alloc, around, scope, *at, place, value),
        RawStmt::Copy { at, to, from } => named_copy(alloc, around, scope, *at, to, from),
        RawStmt::Branch {
            at,
            test,
            yes_at,
            yes,
            no_at,
            no,
        } => {
            let (yes, no) = (yes.as_slice(), no.as_slice());
            named_branch(alloc, around, scope, *at, test, *yes_at, yes, *no_at, no)
        }
        RawStmt::Loop {
            at,
            name,
            times,
            body,
        } => named_loop(alloc, around, scope, *at, name, *times, body.as_slice()),
        RawStmt::Emit { at, emitter, value } => {
            named_emit(alloc, around, scope, *at, emitter, value)
        }
    }
}
