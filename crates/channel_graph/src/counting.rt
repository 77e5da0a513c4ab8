//! How many messages a handler may emit. None of it takes memory.

ghost use Rattle.std.specs.Prelude.{◌≡◌, ◌<◌, length};
ghost use Rattle.tower_types.specs.Records.{saturated};
ghost use Rattle.tower_syntax.specs.View.{stmt_of, all_stmts_of, handler_of};
ghost use Rattle.tower_syntax.specs.Graph.{handler};
ghost use Rattle.tower_syntax.specs.Weights.{most, most_of_stmt, most_of_stmts};

use tower_syntax::{Arch, Handler, Stmt};

/// How many messages the statements emit on an emitter, at most.
#[cycle(counted)]
fn most_of_stmts(stmts: &[Stmt], emitter: u32) -> u64
    ensures { result ≡ saturated (most_of_stmts emitter (all_stmts_of stmts.now)) }
{
    let mut total: u64 = 0;
    for stmt in stmts {
        total = total.saturating_add(most_of_stmt(stmt, emitter));
    }
    total
}

/// How many messages the statement emits on an emitter, at most.
#[cycle(counted)]
fn most_of_stmt(stmt: &Stmt, emitter: u32) -> u64
    ensures { result ≡ saturated (most_of_stmt emitter (stmt_of stmt.now)) }
{
    match stmt {
        Stmt::Bind(_, _) | Stmt::Local(_) | Stmt::Set(_, _) | Stmt::Copy(_, _) => 0,
        Stmt::Branch(_, first, second) => {
            let a = most_of_stmts(first.as_slice(), emitter);
            let b = most_of_stmts(second.as_slice(), emitter);
            a.max(b)
        }
        Stmt::Loop(_, turns, body) => {
            let once = most_of_stmts(body.as_slice(), emitter);
            once.saturating_mul(u64::from(*turns))
        }
        Stmt::Emit(k, _) => u64::from(*k == emitter),
    }
}

/// How many messages all callbacks of a handler together emit on an emitter, at most.
fn most_of_handler(h: &Handler, emitter: u32) -> u64
    ensures { result ≡ saturated (most (handler_of h.now) emitter) }
{
    let mut total: u64 = 0;
    for body in h.callbacks.as_slice() {
        total = total.saturating_add(most_of_stmts(body.stmts.as_slice(), emitter));
    }
    total
}

/// How many messages one message of a handler can put on an emitter at most, or 2^64 - 1 where there are more.
pub fn most(arch: &Arch, h: u32, emitter: u32) -> u64
    requires { h < length arch.now.handlers }
    ensures { result ≡ saturated (most (handler arch.now h) emitter) }
{
    most_of_handler(arch.handler(h), emitter)
}
