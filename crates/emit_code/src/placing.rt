//! The code of one message that goes into a buffer, and of the delivery of all that a handler emitted.

ghost use Rattle.std.specs.Prelude.{◌≡◌, ◌<◌, ◌++◌, length, OnOk, OnErr};
ghost use Rattle.task_code.specs.Piece.{listed};
ghost use Rattle.emit_code.specs.Emitted.{HasEmitter, emission_of};
ghost use Rattle.emit_code.specs.Framed.{HasEntry, delivery_of};
ghost use Rattle.emit_code.specs.Heard.{AreHeard};

use crate::delivery::{add_delivery, number_at};
use crate::message::message_words;
use arch_checks::Checked;
use sqlite_items::Items;
use task_code::{Code, Frame, Frames, emission};
use tower_syntax::{Listener, On};
use tower_types::NoMemory;

/// Adds the instructions that move the message in the scratch words of the handler's emitter `emitter` into its buffer.
/// After an error the code is as before.
pub fn place_emit(
    arch: &Checked,
    handler: u32,
    emitter: u32,
    frame: &Frame,
    code: &mut Code,
) -> Result<(), NoMemory>
    requires handler { handler < length arch.now.handlers }
    requires emitter { HasEmitter arch.now handler emitter }
    ensures ok { OnOk result (code.new ≡ code.old ++ listed (emission_of arch.now handler emitter frame.now)) }
    ensures err { OnErr result (code.new ≡ code.old) }
{
    let arch = arch.arch();
    let channel = arch.handler(handler).emitters.as_slice()[emitter as usize].channel;
    let width = message_words(arch, On::Channel(channel))?;
    let scratch = number_at(frame.scratch.as_slice(), emitter);
    let buffer = frame.first_buffer.checked_add(emitter).ok_or(NoMemory)?;
    emission(code, scratch, buffer, width)?;
    Ok(())
}

/// Adds the instructions that deliver what handler `handler` emitted, by the subscribers of all channels. After an error
/// the code is as before; an address or a place that is no `u32` is told as want of memory.
pub fn place_delivery(
    arch: &Checked,
    heard: &[Items<Listener>],
    handler: u32,
    frames: &Frames,
    code: &mut Code,
) -> Result<(), NoMemory>
    requires handler { handler < length arch.now.handlers }
    requires heard { AreHeard arch.now heard.now }
    requires entry { HasEntry frames.now handler }
    ensures ok { OnOk result (code.new ≡ code.old
        ++ listed (delivery_of arch.now frames.now handler (length code.old))) }
    ensures err { OnErr result (code.new ≡ code.old) }
{
    let start = code.place();
    match add_delivery(arch.arch(), heard, handler, frames, code) {
        Ok(()) => Ok(()),
        Err(fault) => {
            code.shorten(start);
            Err(fault)
        }
    }
}
