//! The weight of a system's memory in words, or 2^64 - 1 where it is more.

ghost use Rattle.std.specs.Prelude.{◌≡◌, ◌<◌, ◌+◌, ◌*◌, length, All, IfOk, map, sum};
ghost use Rattle.tower_types.specs.Ty.{words, shape_in, table_of};
ghost use Rattle.tower_types.specs.View.{ty_of, fields_of};
ghost use Rattle.tower_types.specs.Records.{saturated};
ghost use Rattle.tower_syntax.specs.View.{body_of, emitter_of, handler_of, monitor_of};
ghost use Rattle.tower_syntax.specs.Weights.{message_words, field_shapes, monitor_words, emitter_words, handler_memory, source_memory, memory};
ghost use Rattle.tower_syntax.specs.WellNumbered.{IsNumberedType, IsNumberedOn, AreNumberedFields, IsNumberedHandler, AreListeners};
ghost use Rattle.channel_graph.specs.Reaching.{AreAudiences};
ghost use Rattle.channel_graph.specs.Table.{IsTable, frame_of};

use crate::marked::reached_sum;
use crate::reach::audiences;
use sqlite_items::Items;
use std::alloc::Global;
use tower_syntax::{Arch, Body, Emitter, Handler, Monitor, On};
use tower_types::{Name, NoMemory, Ty, words};

/// The words of a type.
pub fn type_words(arch: &Arch, t: &Ty) -> u64
    requires { IsNumberedType (length arch.now.records) (ty_of t.now) }
    ensures { result ≡ saturated (words (shape_in (table_of arch.now.records) (ty_of t.now))) }
{
    words(arch.records(), t)
}

/// The words of a message from a source or channel.
pub fn words_on(arch: &Arch, on: On) -> u64
    requires { IsNumberedOn arch.now on }
    ensures { result ≡ saturated (message_words arch.now on) }
{
    match on {
        On::Source(s) => type_words(arch, &arch.source(s).message),
        On::Channel(c) => type_words(arch, &arch.channel(c).message),
    }
}

/// The words of all fields.
fn fields_words(arch: &Arch, fields: &[(Name, Ty)]) -> u64
    requires { AreNumberedFields (length arch.now.records) (fields_of fields.now) }
    ensures { result ≡ saturated (sum (map words (field_shapes (table_of arch.now.records) (fields_of fields.now)))) }
{
    let mut total: u64 = 0;
    for (_, ty) in fields {
        total = total.saturating_add(type_words(arch, ty));
    }
    total
}

/// The words of all that callbacks bind.
fn binder_words(arch: &Arch, bodies: &[Body]) -> u64
    requires { All (λ b. AreNumberedFields (length arch.now.records) b.binders) (map body_of bodies.now) }
    ensures { result ≡ saturated (sum (map
        (λ b. sum (map words (field_shapes (table_of arch.now.records) b.binders)))
        (map body_of bodies.now))) }
{
    let mut total: u64 = 0;
    for body in bodies {
        total = total.saturating_add(fields_words(arch, body.binders.as_slice()));
    }
    total
}

/// The words of an emitter's buffer, and of two messages more.
fn buffer_words(arch: &Arch, emitter: &Emitter) -> u64
    requires { emitter.now.channel < length arch.now.channels }
    ensures { result ≡ saturated ((emitter.now.bound + 2) * emitter_words arch.now (emitter_of emitter.now)) }
{
    let messages = u64::from(emitter.bound) + 2;
    words_on(arch, On::Channel(emitter.channel)).saturating_mul(messages)
}

/// The words of all buffers.
fn buffers_words(arch: &Arch, emitters: &[Emitter]) -> u64
    requires { All (λ e. e.channel < length arch.now.channels) (map emitter_of emitters.now) }
    ensures { result ≡ saturated (sum (map
        (λ e. (e.bound + 2) * emitter_words arch.now e)
        (map emitter_of emitters.now))) }
{
    let mut total: u64 = 0;
    for emitter in emitters {
        total = total.saturating_add(buffer_words(arch, emitter));
    }
    total
}

/// The words of a handler's frame and buffers.
fn memory_of(arch: &Arch, h: &Handler) -> u64
    requires { IsNumberedHandler arch.now (handler_of h.now) }
    ensures { result ≡ saturated (handler_memory arch.now (handler_of h.now)) }
{
    let bound = binder_words(arch, h.callbacks.as_slice());
    let moved = words_on(arch, h.on).saturating_add(bound);
    let frame = moved.saturating_mul(2).saturating_add(64);
    frame.saturating_add(buffers_words(arch, h.emitters.as_slice()))
}

/// The words of all states of a monitor.
fn words_of_monitor(arch: &Arch, m: &Monitor) -> u64
    requires { AreNumberedFields (length arch.now.records) (monitor_of m.now).states }
    ensures { result ≡ saturated (monitor_words arch.now (monitor_of m.now)) }
{
    fields_words(arch, m.states.as_slice())
}

/// The words of all states of all monitors.
fn states_words(arch: &Arch) -> u64
    ensures { result ≡ saturated (sum (map (monitor_words arch.now) arch.now.monitors)) }
{
    let mut total: u64 = 0;
    for m in arch.monitors() {
        total = total.saturating_add(words_of_monitor(arch, m));
    }
    total
}

/// For each handler, the words of its frame and buffers.
fn frames(alloc: Global, arch: &Arch) -> Result<Items<u64>, NoMemory>
    ensures { IfOk result (IsTable (length arch.now.handlers) (frame_of arch.now)) }
{
    let mut frames = Items::new(alloc);
    for h in 0..arch.handlers().len() {
        let handler = arch.handler(h as u32);
        frames.push(memory_of(arch, handler))?;
    }
    Ok(frames)
}

/// The words of a source, by those of the handlers.
fn source_memory(
    alloc: Global,
    arch: &Arch,
    heard: &[Items<u32>],
    frames: &[u64],
    s: u32,
) -> Result<u64, NoMemory>
    requires heard { AreAudiences arch.now (length arch.now.handlers) heard.now }
    requires listed { AreListeners arch.now }
    requires frames { IsTable (length arch.now.handlers) (frame_of arch.now) frames.now }
    requires source { s < length arch.now.sources }
    ensures { IfOk result (λ n. n ≡ saturated (source_memory arch.now s)) }
{
    let handlers = reached_sum(alloc, arch, heard, frames, s)?;
    let message = words_on(arch, On::Source(s)).saturating_add(64);
    Ok(message.saturating_add(handlers))
}

/// The words of all states and, for each source, of its message and of the frames and buffers of the handlers that it
/// reaches, or 2^64 - 1 where there are more.
pub fn memory(alloc: Global, arch: &Arch) -> Result<u64, NoMemory>
    ensures { IfOk result (λ n. n ≡ saturated (memory arch.now)) }
{
    let heard = audiences(alloc, arch)?;
    let frames = frames(alloc, arch)?;
    let mut total = states_words(arch);
    for s in 0..arch.sources().len() {
        let more = source_memory(alloc, arch, heard.as_slice(), frames.as_slice(), s as u32)?;
        total = total.saturating_add(more);
    }
    Ok(total)
}
