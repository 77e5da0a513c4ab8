//! The head of a task's code, which takes a message and calls the handlers on the task's source.

ghost use Rattle.std.specs.Prelude.{◌≡◌, ◌<◌, ◌++◌, length, map, OnOk};
ghost use Rattle.task_code.specs.Piece.{listed, joined};
ghost use Rattle.emit_code.specs.Framed.{entries_in};
ghost use Rattle.task_build.specs.CodeOf.{words_passed, passed, call_code, taken_at};
ghost use Rattle.task_build.specs.Tables.{head_of};

use channel_graph::subscribers;
use emit_code::{message_words, target_of};
use std::alloc::Global;
use task_code::{Code, Frames, Instr};
use tower_syntax::{Arch, Listener, On};
use tower_types::NoMemory;

/// Where the message of a source goes: to the frame of the first handler among the listeners, or to 0.
fn taken_at(table: &Frames, listeners: &[Listener]) -> u32
    ensures { result ≡ taken_at (entries_in table.now) listeners.now }
{
    for listener in listeners {
        if let Listener::Handler(k) = *listener {
            return target_of(table, k).param;
        }
    }
    0
}

/// Adds what moves `width` words from one address to another.
fn add_words(code: &mut Code, from: u32, to: u32, width: u32) -> Result<(), NoMemory>
    ensures { OnOk result (code.new ≡ code.old ++ listed (words_passed from to width)) }
{
    for j in 0..width {
        let source = from.checked_add(j).ok_or(NoMemory)?;
        let address = to.checked_add(j).ok_or(NoMemory)?;
        code.push(Instr::Ld(source))?;
        code.push(Instr::St(address))?;
    }
    Ok(())
}

/// Adds what moves a message of `width` words to another address, where it is not there already.
fn add_passed(code: &mut Code, from: u32, to: u32, width: u32) -> Result<(), NoMemory>
    ensures { OnOk result (code.new ≡ code.old ++ listed (passed from to width)) }
{
    if from == to {
        return Ok(());
    }
    add_words(code, from, to, width)?;
    Ok(())
}

/// Adds what calls a handler with the message that was taken.
fn add_call(
    code: &mut Code,
    table: &Frames,
    taken: u32,
    width: u32,
    listener: Listener,
) -> Result<(), NoMemory>
    ensures { OnOk result (code.new ≡ code.old ++ listed (call_code (entries_in table.now) taken width listener)) }
{
    match listener {
        Listener::Output(_) => Ok(()),
        Listener::Handler(k) => {
            let target = target_of(table, k);
            add_passed(code, taken, target.param, width)?;
            code.push(Instr::Call(target.place))?;
            Ok(())
        }
    }
}

/// Adds the calls of all handlers among the listeners.
fn add_calls(
    code: &mut Code,
    table: &Frames,
    taken: u32,
    width: u32,
    listeners: &[Listener],
) -> Result<(), NoMemory>
    ensures { OnOk result (code.new ≡ code.old
        ++ listed (joined (map (call_code (entries_in table.now) taken width) listeners.now))) }
{
    for listener in listeners {
        add_call(code, table, taken, width, *listener)?;
    }
    Ok(())
}

/// Adds what takes a message of source `s`, calls each handler on it, and begins anew at place 0.
pub(crate) fn add_head(
    alloc: Global,
    arch: &Arch,
    s: u32,
    table: &Frames,
    code: &mut Code,
) -> Result<(), NoMemory>
    requires { s < length arch.now.sources }
    ensures { OnOk result (code.new ≡ code.old ++ listed (head_of arch.now (entries_in table.now) s)) }
{
    let width = message_words(arch, On::Source(s))?;
    let listeners = subscribers(alloc, arch, On::Source(s))?;
    let taken = taken_at(table, listeners.as_slice());
    code.push(Instr::Take(taken))?;
    add_calls(code, table, taken, width, listeners.as_slice())?;
    code.push(Instr::Jmp(0))?;
    Ok(())
}
