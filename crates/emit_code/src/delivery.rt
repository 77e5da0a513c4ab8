//! The code that delivers what a handler emitted: emitter by emitter, of each its messages in their order, and of each
//! message its subscribers in file order.

ghost use Rattle.std.specs.Prelude.{◌≡◌, ◌<◌, ◌+◌, ◌*◌, [], ◌∷◌, ◌++◌, length, map, slice_index_or, pos, OnOk, IfOk};
ghost use Rattle.tower_syntax.specs.View.{emitter_of};
ghost use Rattle.task_code.specs.Grows.{Keeps};
ghost use Rattle.task_code.specs.declared.program.Instr.TheVariants.{Push};
ghost use Rattle.task_code.specs.Piece.{listed, joined};
ghost use Rattle.emit_code.specs.Delivery.{entry_of, words_got, item_code, emitter_code};
ghost use Rattle.emit_code.specs.Framed.{entries_in, HasEntry, delivery_of};
ghost use Rattle.emit_code.specs.Heard.{AreHeard};
ghost use Rattle.emit_code.specs.Outgoing.{outgoing_of};

use crate::message::message_words;
use sqlite_items::Items;
use task_code::{Code, Frame, Frames, Instr};
use tower_syntax::{Arch, Emitter, Listener, On};
use tower_types::{BinOp, NoMemory, Scalar};

/// Where a handler of a task is: the address of its message, and the place of its first instruction.
#[derive(Clone, Copy, Debug)]
pub struct Target {
    pub param: u32,
    pub place: u32,
}

/// The messages of an emitter in a task: the address of the word that counts them, their buffer, the address of one
/// message, and its words.
#[derive(Clone, Copy, Debug)]
pub(crate) struct Outgoing {
    counter: u32,
    buffer: u32,
    scratch: u32,
    width: u32,
}

/// The number at place `at`, or 0 where there is none.
pub(crate) fn number_at(list: &[u32], at: u32) -> u32
    ensures { result ≡ slice_index_or list.now at 0 }
{
    match list.get(at as usize) {
        Some(number) => *number,
        None => 0,
    }
}

/// Where handler `h` is: 0 and 0 where it has no frame or no place.
pub fn target_of(frames: &Frames, h: u32) -> Target
    ensures param { result.param ≡ (entry_of (entries_in frames.now) h).frame.param }
    ensures place { result.place ≡ (entry_of (entries_in frames.now) h).place }
{
    let nowhere = Target { param: 0, place: 0 };
    match frames.frames.get(h as usize) {
        Some(Some(frame)) => match frames.entries.get(h as usize) {
            Some(place) => Target {
                param: frame.param,
                place: *place,
            },
            None => nowhere,
        },
        Some(None) => nowhere,
        None => nowhere,
    }
}

/// The frame of handler `h`.
pub fn own_frame(frames: &Frames, h: u32) -> &Frame
    requires { HasEntry frames.now h }
    ensures { result.now ≡ (entry_of (entries_in frames.now) h).frame }
{
    match frames.frames.get(h as usize) {
        Some(Some(frame)) => frame,
        _ => unreachable!(),
    }
}

/// Adds instructions.
fn add_all(code: &mut Code, instrs: &[Instr]) -> Result<(), NoMemory>
    ensures ok { OnOk result (code.new ≡ code.old ++ instrs.now) }
    ensures keeps { Keeps code.old code.new }
{
    for instr in instrs {
        code.push(*instr)?;
    }
    Ok(())
}

/// Adds what pushes a number.
fn add_number(code: &mut Code, n: u32) -> Result<(), NoMemory>
    ensures ok { OnOk result (code.new ≡ code.old ++ Push (pos n) ∷ []) }
    ensures keeps { Keeps code.old code.new }
{
    code.push(Instr::Push(i128::from(n)))?;
    Ok(())
}

/// Adds the instructions that move the message which is counted into the words from `to` on.
fn add_words(code: &mut Code, out: Outgoing, to: u32) -> Result<(), NoMemory>
    ensures ok { OnOk result (code.new ≡ code.old ++ listed (words_got out.counter out.buffer to 0 out.width)) }
    ensures keeps { Keeps code.old code.new }
{
    for j in 0..out.width {
        let address = to.checked_add(j).ok_or(NoMemory)?;
        code.push(Instr::Ld(out.counter))?;
        add_number(code, j)?;
        code.push(Instr::Bget(out.buffer))?;
        code.push(Instr::St(address))?;
    }
    Ok(())
}

/// Adds the instructions that give one message to a subscriber.
fn add_item(
    code: &mut Code,
    frames: &Frames,
    out: Outgoing,
    listener: Listener,
) -> Result<(), NoMemory>
    ensures ok { OnOk result (code.new ≡ code.old ++ listed
        (item_code (entries_in frames.now) out.counter out.buffer out.scratch out.width listener)) }
    ensures keeps { Keeps code.old code.new }
{
    match listener {
        Listener::Output(o) => {
            add_words(code, out, out.scratch)?;
            code.push(Instr::Out(o, out.scratch))?;
            Ok(())
        }
        Listener::Handler(k) => {
            let target = target_of(frames, k);
            add_words(code, out, target.param)?;
            code.push(Instr::Call(target.place))?;
            Ok(())
        }
    }
}

/// Adds the instructions that give one message to each subscriber.
fn add_items(
    code: &mut Code,
    frames: &Frames,
    out: Outgoing,
    listeners: &[Listener],
) -> Result<(), NoMemory>
    ensures ok { OnOk result (code.new ≡ code.old ++ listed (joined
        (map (item_code (entries_in frames.now) out.counter out.buffer out.scratch out.width) listeners.now))) }
    ensures keeps { Keeps code.old code.new }
{
    for listener in listeners {
        add_item(code, frames, out, *listener)?;
    }
    Ok(())
}

/// The place behind an emitter's loop of which no instruction stands yet. A place that is no `u32` is told as want of
/// memory.
fn exit(code: &Code, width: u32, listeners: &[Listener]) -> Result<u32, NoMemory>
    ensures { IfOk result (λ n. n ≡ length code.now + 11 + length listeners.now * (4 * width + 1)) }
{
    let item = 4 * u64::from(width) + 1;
    let items = item.checked_mul(listeners.len() as u64).ok_or(NoMemory)?;
    let begun = u64::from(code.place()) + 11;
    let place = begun.checked_add(items).ok_or(NoMemory)?;
    match u32::try_from(place) {
        Ok(place) => Ok(place),
        Err(_) => Err(NoMemory),
    }
}

/// Adds the loop that gives each message of an emitter to each subscriber.
fn add_emitter(
    code: &mut Code,
    frames: &Frames,
    out: Outgoing,
    listeners: &[Listener],
) -> Result<(), NoMemory>
    ensures ok { OnOk result (code.new ≡ code.old ++ listed (emitter_code
        (entries_in frames.now) (length code.old) out.counter out.buffer out.scratch out.width listeners.now)) }
    ensures keeps { Keeps code.old code.new }
{
    let turn = code.place().checked_add(2).ok_or(NoMemory)?;
    let exit = exit(code, out.width, listeners)?;
    let head = [
        Instr::Push(0),
        Instr::St(out.counter),
        Instr::Ld(out.counter),
        Instr::Bcnt(out.buffer),
        Instr::Bin(BinOp::Less, Scalar::U64),
        Instr::Jz(exit),
    ];
    let tail = [
        Instr::Ld(out.counter),
        Instr::Push(1),
        Instr::Bin(BinOp::Add, Scalar::U64),
        Instr::St(out.counter),
        Instr::Jmp(turn),
    ];
    add_all(code, &head)?;
    add_items(code, frames, out, listeners)?;
    add_all(code, &tail)?;
    Ok(())
}

/// The messages of emitter `k` of the handler of the frame. A number that is no `u32` is told as want of memory.
fn messages_of(arch: &Arch, frame: &Frame, k: u32, emitter: &Emitter) -> Result<Outgoing, NoMemory>
    requires { emitter.now.channel < length arch.now.channels }
    ensures { IfOk result (λ out. out ≡ outgoing_of arch.now frame.now k (emitter_of emitter.now)) }
{
    let counter = frame.temps.checked_add(2).ok_or(NoMemory)?;
    let buffer = frame.first_buffer.checked_add(k).ok_or(NoMemory)?;
    let width = message_words(arch, On::Channel(emitter.channel))?;
    Ok(Outgoing {
        counter,
        buffer,
        scratch: number_at(frame.scratch.as_slice(), k),
        width,
    })
}

/// Adds the loops of all emitters of a handler.
pub(crate) fn add_delivery(
    arch: &Arch,
    heard: &[Items<Listener>],
    handler: u32,
    frames: &Frames,
    code: &mut Code,
) -> Result<(), NoMemory>
    requires handler { handler < length arch.now.handlers }
    requires heard { AreHeard arch.now heard.now }
    requires entry { HasEntry frames.now handler }
    ensures ok { OnOk result (code.new ≡ code.old
        ++ listed (delivery_of arch.now frames.now handler (length code.old))) }
    ensures keeps { Keeps code.old code.new }
{
    let frame = own_frame(frames, handler);
    for (k, emitter) in arch.handler(handler).emitters.as_slice().iter().enumerate() {
        let out = messages_of(arch, frame, k as u32, emitter)?;
        let listeners = heard[emitter.channel as usize].as_slice();
        add_emitter(code, frames, out, listeners)?;
    }
    Ok(())
}
