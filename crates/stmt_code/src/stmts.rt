//! The instructions of statements.

ghost use Rattle.std.specs.Prelude.{◌≡◌, ◌++◌, ◌+◌, [], ◌∷◌, length, IfOk, OnOk};
ghost use Rattle.tower_syntax.specs.View.{expr_of, place_of, stmt_of, all_stmts_of};
ghost use Rattle.task_code.specs.Grows.{Keeps};
ghost use Rattle.task_code.specs.Piece.{listed};
ghost use Rattle.stmt_code.specs.Body.{zeroed, set_code, copy_code, stmt_code, stmts_code};
ghost use Rattle.stmt_code.specs.Turns.{loop_head, loop_end};

use crate::emits::add_emit;
use crate::exprs::{add_expr, add_index, join};
use crate::layout::Layout;
use crate::moved::add_words_copied;
use crate::place::{locate, place_words};
use task_code::{Code, Instr};
use tower_syntax::{Expr, Place, Stmt};
use tower_types::{BinOp, NoMemory, Scalar};

/// Adds what makes `n` words 0, from `address` on, or some of it.
fn add_zeroed(code: &mut Code, address: u32, n: u32) -> Result<(), NoMemory>
    ensures ok { OnOk result (code.new ≡ code.old ++ listed (zeroed address n)) }
    ensures keeps { Keeps code.old code.new }
{
    for j in 0..n {
        let at = address.checked_add(j).ok_or(NoMemory)?;
        code.push(Instr::Push(0))?;
        code.push(Instr::St(at))?;
    }
    Ok(())
}

/// Adds the instructions of a `set`, or some of them.
fn add_set(p: &Place, e: &Expr, layout: &Layout<'_>, code: &mut Code) -> Result<(), NoMemory>
    ensures ok { OnOk result (code.new ≡ code.old ++ listed (set_code layout.now (length code.old) (place_of p.now) (expr_of e.now))) }
    ensures keeps { Keeps code.old code.new }
{
    let place = locate(layout, p, 0)?;
    add_index(p, layout, code)?;
    place.add_before(code)?;
    add_expr(e, layout, code)?;
    place.add_behind(code)?;
    Ok(())
}

/// Adds the instructions of a `copy`, or some of them.
fn add_copy(p: &Place, q: &Place, layout: &Layout<'_>, code: &mut Code) -> Result<(), NoMemory>
    ensures ok { OnOk result (code.new ≡ code.old ++ listed (copy_code layout.now (length code.old) (place_of p.now) (place_of q.now))) }
    ensures keeps { Keeps code.old code.new }
{
    let first = layout.temps();
    let second = layout.second_temp()?;
    let to = locate(layout, p, first)?;
    let source = locate(layout, q, second)?;
    let width = place_words(layout, p)?;
    add_index(p, layout, code)?;
    to.add_kept(code)?;
    add_index(q, layout, code)?;
    source.add_kept(code)?;
    add_words_copied(code, to, source, width)?;
    Ok(())
}

/// Adds the head of a loop that counts in the word at `address`, or some of it, and answers the place of its test.
fn add_loop_head(code: &mut Code, address: u32, turns: u32) -> Result<u32, NoMemory>
    ensures ok { IfOk result (λ test. (test ≡ length code.old + 5) × (code.new ≡ code.old ++ (loop_head address turns ++ Instr.Jmp 0 ∷ []))) }
    ensures keeps { Keeps code.old code.new }
{
    code.push(Instr::Push(0))?;
    code.push(Instr::St(address))?;
    code.push(Instr::Ld(address))?;
    code.push(Instr::Push(i128::from(turns)))?;
    code.push(Instr::Bin(BinOp::Less, Scalar::U64))?;
    let test = code.hold()?;
    Ok(test)
}

/// Adds the end of a loop whose turns begin at `turn`, or some of it.
fn add_loop_end(code: &mut Code, address: u32, turn: u32) -> Result<(), NoMemory>
    ensures ok { OnOk result (code.new ≡ code.old ++ loop_end address turn) }
    ensures keeps { Keeps code.old code.new }
{
    code.push(Instr::Ld(address))?;
    code.push(Instr::Push(1))?;
    code.push(Instr::Bin(BinOp::Add, Scalar::U64))?;
    code.push(Instr::St(address))?;
    code.push(Instr::Jmp(turn))?;
    Ok(())
}

/// Adds the instructions of statements, or some of them.
#[cycle(stmts)]
pub(crate) fn add_stmts(
    stmts: &[Stmt],
    layout: &Layout<'_>,
    code: &mut Code,
) -> Result<(), NoMemory>
    ensures ok { OnOk result (code.new ≡ code.old ++ listed (stmts_code layout.now (length code.old) (all_stmts_of stmts.now))) }
    ensures keeps { Keeps code.old code.new }
{
    for stmt in stmts {
        add_stmt(stmt, layout, code)?;
    }
    Ok(())
}

/// Adds the instructions of a statement, or some of them.
#[cycle(stmts)]
fn add_stmt(stmt: &Stmt, layout: &Layout<'_>, code: &mut Code) -> Result<(), NoMemory>
    ensures ok { OnOk result (code.new ≡ code.old ++ listed (stmt_code layout.now (length code.old) (stmt_of stmt.now))) }
    ensures keeps { Keeps code.old code.new }
{
    match stmt {
        Stmt::Bind(b, e) => {
            add_expr(e, layout, code)?;
            code.push(Instr::St(layout.binder(*b)))?;
            Ok(())
        }
        Stmt::Local(b) => {
            let words = layout.binder_words(*b)?;
            add_zeroed(code, layout.binder(*b), words)?;
            Ok(())
        }
        Stmt::Set(p, e) => add_set(p, e, layout, code),
        Stmt::Copy(p, q) => add_copy(p, q, layout, code),
        Stmt::Branch(e, first, second) => {
            add_expr(e, layout, code)?;
            let test = code.hold()?;
            add_stmts(first.as_slice(), layout, code)?;
            let jump = code.hold()?;
            add_stmts(second.as_slice(), layout, code)?;
            join(code, test, jump);
            Ok(())
        }
        Stmt::Loop(b, turns, body) => {
            let address = layout.binder(*b);
            let test = add_loop_head(code, address, *turns)?;
            add_stmts(body.as_slice(), layout, code)?;
            add_loop_end(code, address, test - 3)?;
            let out = code.place();
            code.patch(test, Instr::Jz(out));
            Ok(())
        }
        Stmt::Emit(k, e) => add_emit(e, *k, layout, code),
    }
}
