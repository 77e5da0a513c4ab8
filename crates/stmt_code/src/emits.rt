//! The instructions of an `emit`.

ghost use Rattle.std.specs.Prelude.{◌≡◌, ◌++◌, length, OnOk};
ghost use Rattle.tower_syntax.specs.Tree.{read};
ghost use Rattle.tower_syntax.specs.View.{expr_of, place_of};
ghost use Rattle.task_code.specs.Grows.{Keeps};
ghost use Rattle.task_code.specs.Piece.{listed};
ghost use Rattle.stmt_code.specs.Body.{place_emitted, emit_code};
ghost use Rattle.stmt_code.specs.Seen.{message_seen, moved_of};

use crate::exprs::{add_expr, add_index};
use crate::layout::Layout;
use crate::moved::{Base, Moved, SentMessage, add_words_copied};
use crate::place::locate;
use task_code::{Code, Instr, emission};
use tower_syntax::{Expr, Place};
use tower_types::NoMemory;

/// Adds what emits the words at a place, or some of it: private words at a fixed address from where they stand, others
/// from the scratch words.
fn add_place_emitted(code: &mut Code, m: SentMessage, p: Moved) -> Result<(), NoMemory>
    ensures ok { OnOk result (code.new ≡ code.old ++ listed (place_emitted (message_seen m) p.moving (moved_of p))) }
    ensures keeps { Keeps code.old code.new }
{
    match p.base {
        Base::Private(a) if !p.moving => emission(code, a, m.buffer, m.width),
        Base::Private(_) | Base::Monitor(_, _) => {
            add_words_copied(code, m.place(), p, m.width)?;
            emission(code, m.scratch, m.buffer, m.width)?;
            Ok(())
        }
    }
}

/// Adds the instructions of an `emit` of what stands at a place, or some of them.
fn add_emit_place(p: &Place, k: u32, layout: &Layout<'_>, code: &mut Code) -> Result<(), NoMemory>
    ensures ok { OnOk result (code.new ≡ code.old ++ listed (emit_code layout.now (length code.old) k (read (place_of p.now)))) }
    ensures keeps { Keeps code.old code.new }
{
    let message = layout.message(k)?;
    let place = locate(layout, p, layout.temps())?;
    add_index(p, layout, code)?;
    place.add_kept(code)?;
    add_place_emitted(code, message, place)?;
    Ok(())
}

/// Adds the instructions of an `emit`, or some of them.
pub(crate) fn add_emit(
    e: &Expr,
    k: u32,
    layout: &Layout<'_>,
    code: &mut Code,
) -> Result<(), NoMemory>
    ensures ok { OnOk result (code.new ≡ code.old ++ listed (emit_code layout.now (length code.old) k (expr_of e.now))) }
    ensures keeps { Keeps code.old code.new }
{
    match e {
        Expr::Read(p) => add_emit_place(p, k, layout, code),
        _ => {
            let message = layout.message(k)?;
            add_expr(e, layout, code)?;
            code.push(Instr::St(message.scratch))?;
            emission(code, message.scratch, message.buffer, message.width)?;
            Ok(())
        }
    }
}
