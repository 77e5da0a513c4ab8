//! The code of a handler's section, from its LOCK to its UNLOCK.

ghost use Rattle.std.specs.Prelude.{◌≡◌, ◌<◌, ◌++◌, ℕ, length, OnOk, OnErr};
ghost use Rattle.tower_syntax.specs.Graph.{handler as handler_at};
ghost use Rattle.tower_syntax.specs.View.{handler_of};
ghost use Rattle.tower_syntax.specs.WellNumbered.{IsNumberedHandler};
ghost use Rattle.task_code.specs.Grows.{Keeps};
ghost use Rattle.task_code.specs.Piece.{listed};
ghost use Rattle.stmt_code.specs.Section.{cleared, bodies_code, section_code};

use crate::layout::Layout;
use crate::measured::Measured;
use crate::part::counted;
use crate::stmts::add_stmts;
use task_code::{Code, Frame, Instr};
use tower_syntax::Handler;
use tower_types::NoMemory;

/// Adds what empties `n` buffers from `first` on, or some of it.
fn add_cleared(code: &mut Code, first: u32, n: u32) -> Result<(), NoMemory>
    ensures ok { OnOk result (code.new ≡ code.old ++ listed (cleared first n)) }
    ensures keeps { Keeps code.old code.new }
{
    for k in 0..n {
        let buffer = first.checked_add(k).ok_or(NoMemory)?;
        code.push(Instr::Bclr(buffer))?;
    }
    Ok(())
}

/// Adds the instructions of a handler's callbacks, or some of them.
fn add_bodies<'a>(
    arch: &Measured<'a>,
    h: &'a Handler,
    frame: &'a Frame,
    code: &mut Code,
) -> Result<(), NoMemory>
    requires { IsNumberedHandler arch.now (handler_of h.now) }
    ensures ok { OnOk result (code.new ≡ code.old ++ listed (bodies_code arch.now (handler_of h.now) frame.now 0 (length code.old) (handler_of h.now).callbacks)) }
    ensures keeps { Keeps code.old code.new }
{
    let bodies = h.callbacks.as_slice();
    for i in 0..bodies.len() {
        let body = &bodies[i];
        let layout = Layout::new(arch, h, body, frame, i);
        add_stmts(body.stmts.as_slice(), &layout, code)?;
    }
    Ok(())
}

/// Adds the instructions of a handler's section, or some of them.
fn add_section<'a>(
    arch: &Measured<'a>,
    h: &'a Handler,
    frame: &'a Frame,
    code: &mut Code,
) -> Result<(), NoMemory>
    requires { IsNumberedHandler arch.now (handler_of h.now) }
    ensures ok { OnOk result (code.new ≡ code.old ++ listed (section_code arch.now (handler_of h.now) frame.now (length code.old))) }
    ensures keeps { Keeps code.old code.new }
{
    let emitters = counted(h.emitters.len() as u64)?;
    code.push(Instr::Lock(h.monitor))?;
    add_cleared(code, frame.first_buffer, emitters)?;
    add_bodies(arch, h, frame, code)?;
    code.push(Instr::Unlock(h.monitor))?;
    Ok(())
}

/// Adds the code of handler `handler` from its LOCK to its UNLOCK, whose words and buffers are those of `frame`. An
/// address that is no `u32` is told as want of memory.
pub fn place_body<'a>(
    arch: &Measured<'a>,
    handler: u32,
    frame: &'a Frame,
    code: &mut Code,
) -> Result<(), NoMemory>
    requires { handler < length arch.now.handlers }
    ensures ok { OnOk result (code.new ≡ code.old ++ listed (section_code arch.now (handler_at arch.now handler) frame.now (length code.old))) }
    ensures err { OnErr result (code.new ≡ code.old) }
{
    let start = code.place();
    let h = arch.arch().handler(handler);
    match add_section(arch, h, frame, code) {
        Ok(()) => Ok(()),
        Err(fault) => {
            code.shorten(start);
            Err(fault)
        }
    }
}
