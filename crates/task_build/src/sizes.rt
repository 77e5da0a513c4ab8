//! The words of monitors and outputs, and the buffers of a task. A number that is no `u32` is told as want of memory.

ghost use Rattle.std.specs.Prelude.{◌≡◌, ◌<◌, ◌++◌, length, map, sum, All, IfOk, OnOk};
ghost use Rattle.tower_types.specs.Ty.{words, shape_in, table_of};
ghost use Rattle.tower_types.specs.View.{fields_of};
ghost use Rattle.tower_types.specs.Records.{saturated};
ghost use Rattle.tower_syntax.specs.View.{monitor_of};
ghost use Rattle.tower_syntax.specs.Graph.{handler};
ghost use Rattle.tower_syntax.specs.Weights.{field_shapes, monitor_words, channel_message};
ghost use Rattle.tower_syntax.specs.WellNumbered.{AreNumberedFields};
ghost use Rattle.task_build.specs.CodeOf.{buffers_of, all_buffers};

use channel_graph::type_words;
use emit_code::message_words;
use sqlite_items::Items;
use std::alloc::Global;
use task_code::Buffer;
use tower_syntax::{Arch, Monitor, On};
use tower_types::{Name, NoMemory, Ty};

/// The words of all fields, or 2^64 - 1 where there are more.
fn fields_words(arch: &Arch, fields: &[(Name, Ty)]) -> u64
    requires { AreNumberedFields (length arch.now.records) (fields_of fields.now) }
    ensures { result ≡ saturated (sum (map words (field_shapes (table_of arch.now.records) (fields_of fields.now)))) }
{
    let mut total: u64 = 0;
    for (_, ty) in fields {
        total = total.saturating_add(type_words(arch, ty));
    }
    total
}

/// The words of the states of a monitor, or 2^64 - 1 where there are more.
fn state_words(arch: &Arch, m: &Monitor) -> u64
    requires { AreNumberedFields (length arch.now.records) (monitor_of m.now).states }
    ensures { result ≡ saturated (monitor_words arch.now (monitor_of m.now)) }
{
    fields_words(arch, m.states.as_slice())
}

/// The words of the states of a monitor.
fn words_of_monitor(arch: &Arch, m: &Monitor) -> Result<u32, NoMemory>
    requires { AreNumberedFields (length arch.now.records) (monitor_of m.now).states }
    ensures { IfOk result (λ n. n ≡ monitor_words arch.now (monitor_of m.now)) }
{
    match u32::try_from(state_words(arch, m)) {
        Ok(count) => Ok(count),
        Err(_) => Err(NoMemory),
    }
}

/// The words of each monitor.
pub(crate) fn monitors(alloc: Global, arch: &Arch) -> Result<Items<u32>, NoMemory>
    ensures { IfOk result (λ ns. ns ≡ map (monitor_words arch.now) arch.now.monitors) }
{
    let mut counts = Items::new(alloc);
    for m in 0..arch.monitors().len() {
        let count = words_of_monitor(arch, arch.monitor(m as u32))?;
        counts.push(count)?;
    }
    Ok(counts)
}

/// The words of each output.
pub(crate) fn outputs(alloc: Global, arch: &Arch) -> Result<Items<u32>, NoMemory>
    ensures { IfOk result (λ ns. ns
        ≡ map (λ o. words (shape_in (table_of arch.now.records) (channel_message arch.now o.channel))) arch.now.outputs) }
{
    let mut counts = Items::new(alloc);
    for o in 0..arch.outputs().len() {
        let channel = arch.output(o as u32).channel;
        let count = message_words(arch, On::Channel(channel))?;
        counts.push(count)?;
    }
    Ok(counts)
}

/// Adds the buffers of a handler: one for each emitter, as wide as its messages, which holds as many as its bound.
fn add_buffers(arch: &Arch, h: u32, buffers: &mut Items<Buffer>) -> Result<(), NoMemory>
    requires { h < length arch.now.handlers }
    ensures { OnOk result (buffers.new ≡ buffers.old ++ buffers_of arch.now (handler arch.now h).emitters) }
{
    for emitter in arch.handler(h).emitters.as_slice() {
        let width = message_words(arch, On::Channel(emitter.channel))?;
        buffers.push(Buffer {
            width,
            bound: emitter.bound,
        })?;
    }
    Ok(())
}

/// The buffers of these handlers, one behind the other.
pub(crate) fn all_buffers(
    alloc: Global,
    arch: &Arch,
    handlers: &[u32],
) -> Result<Items<Buffer>, NoMemory>
    requires { All (λ h. h < length arch.now.handlers) handlers.now }
    ensures { IfOk result (λ buffers. buffers ≡ all_buffers arch.now handlers.now) }
{
    let mut buffers = Items::new(alloc);
    for h in handlers {
        add_buffers(arch, *h, &mut buffers)?;
    }
    Ok(buffers)
}
