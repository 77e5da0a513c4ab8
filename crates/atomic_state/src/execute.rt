//! What statements do.
ghost use Rattle.std.specs.Prelude.{◌≡◌, map, IfOk, OnOk, slice_index_or, pos};
ghost use Rattle.tower_types.specs.Value.{word};
ghost use Rattle.tower_syntax.specs.View.{expr_of, place_of, stmt_of, all_stmts_of};
ghost use Rattle.tower_meaning.specs.Body.{expr_value, place_value, with_place, in_env, emitted, after_stmt, after_stmts};
ghost use Rattle.tower_meaning.specs.Fitting.{IsNumber, IsPlace, IsValue, Runs, RunsAll};
ghost use Rattle.atomic_state.specs.FrameView.{env_of, execution_of};
ghost use Rattle.atomic_state.specs.TreeView.{tree_of};

use crate::eval::{copy_at, number, path, value};
use crate::frame::Frame;
use crate::tree::Tree;
use std::alloc::Global;
use tower_syntax::{Expr, Place, Stmt};
use tower_types::NoMemory;

/// The zero value of a name.
fn zero_at(alloc: Global, zeros: &[Tree], b: u32) -> Result<Tree, NoMemory>
    ensures { IfOk result (λ t. tree_of t ≡ slice_index_or (map tree_of zeros.now) b (word (pos 0))) }
{
    match zeros.get(b as usize) {
        Some(zero) => zero.copy(alloc),
        None => Ok(Tree::Word(0)),
    }
}

/// Writes a number at a place.
fn set(alloc: Global, p: &Place, e: &Expr, frame: &mut Frame) -> Result<(), NoMemory>
    ensures execution { OnOk result (IsPlace (env_of frame.old) (place_of p.now) → IsNumber (env_of frame.old) (expr_of e.now) →
        execution_of frame.new ≡ in_env (with_place (place_of p.now) (expr_value (env_of frame.old) (expr_of e.now)) (env_of frame.old)) (execution_of frame.old)) }
    ensures before { frame.new.states.before ≡ frame.old.states.before }
{
    let n = number(e, frame);
    let path = path(alloc, p, frame)?;
    frame.write(p.root, path, Tree::Word(n))?;
    Ok(())
}

/// Writes the value of a place at another.
fn copy(alloc: Global, p: &Place, q: &Place, frame: &mut Frame) -> Result<(), NoMemory>
    ensures execution { OnOk result (IsPlace (env_of frame.old) (place_of p.now) → IsPlace (env_of frame.old) (place_of q.now) →
        execution_of frame.new ≡ in_env (with_place (place_of p.now) (place_value (env_of frame.old) (place_of q.now)) (env_of frame.old)) (execution_of frame.old)) }
    ensures before { frame.new.states.before ≡ frame.old.states.before }
{
    let tree = copy_at(alloc, q, frame)?;
    let path = path(alloc, p, frame)?;
    frame.write(p.root, path, tree)?;
    Ok(())
}

/// Adds a message to the list of emitter `k`.
fn emit(alloc: Global, k: u32, e: &Expr, frame: &mut Frame) -> Result<(), NoMemory>
    ensures execution { OnOk result (IsValue (env_of frame.old) (expr_of e.now) →
        execution_of frame.new ≡ emitted k (expr_value (env_of frame.old) (expr_of e.now)) (execution_of frame.old)) }
    ensures before { frame.new.states.before ≡ frame.old.states.before }
{
    let value = value(alloc, e, frame)?;
    let k = k as usize;
    if k < frame.lists.len() {
        frame.lists[k].push(value)?;
    }
    Ok(())
}

/// Executes statements, one after another.
#[cycle(execute)]
pub fn execute_all(
    stmts: &[Stmt],
    alloc: Global,
    zeros: &[Tree],
    frame: &mut Frame,
) -> Result<(), NoMemory>
    ensures execution { OnOk result (RunsAll (map tree_of zeros.now) (all_stmts_of stmts.now) (execution_of frame.old) →
        execution_of frame.new ≡ after_stmts (map tree_of zeros.now) (all_stmts_of stmts.now) (execution_of frame.old)) }
    ensures before { frame.new.states.before ≡ frame.old.states.before }
{
    for stmt in stmts {
        execute(stmt, alloc, zeros, frame)?;
    }
    Ok(())
}

/// Executes a statement. `zeros` has the zero value of each name that the callback binds.
#[cycle(execute)]
fn execute(stmt: &Stmt, alloc: Global, zeros: &[Tree], frame: &mut Frame) -> Result<(), NoMemory>
    ensures execution { OnOk result (Runs (map tree_of zeros.now) (stmt_of stmt.now) (execution_of frame.old) →
        execution_of frame.new ≡ after_stmt (map tree_of zeros.now) (stmt_of stmt.now) (execution_of frame.old)) }
    ensures before { frame.new.states.before ≡ frame.old.states.before }
{
    match stmt {
        Stmt::Bind(b, e) => {
            let n = number(e, frame);
            frame.bind(*b, Tree::Word(n));
            Ok(())
        }
        Stmt::Local(b) => {
            let zero = zero_at(alloc, zeros, *b)?;
            frame.bind(*b, zero);
            Ok(())
        }
        Stmt::Set(p, e) => set(alloc, p, e, frame),
        Stmt::Copy(p, q) => copy(alloc, p, q, frame),
        Stmt::Branch(e, first, second) => {
            if number(e, frame) != 0 {
                execute_all(first.as_slice(), alloc, zeros, frame)
            } else {
                execute_all(second.as_slice(), alloc, zeros, frame)
            }
        }
        Stmt::Loop(b, turns, body) => {
            for i in 0..*turns {
                frame.bind(*b, Tree::Word(i128::from(i)));
                execute_all(body.as_slice(), alloc, zeros, frame)?;
            }
            Ok(())
        }
        Stmt::Emit(k, e) => emit(alloc, *k, e, frame),
    }
}
