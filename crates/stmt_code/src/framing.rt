//! The private words and the buffers of a handler in a task.

ghost use Rattle.std.specs.Prelude.{◌≡◌, ◌<◌, ◌+◌, ℕ, length, map, sum, All, IfOk};
ghost use Rattle.tower_types.specs.Records.{saturated};
ghost use Rattle.tower_types.specs.View.{fields_of};
ghost use Rattle.tower_syntax.specs.View.{body_of, emitter_of};
ghost use Rattle.tower_syntax.specs.Weights.{emitter_words};
ghost use Rattle.tower_syntax.specs.WellNumbered.{AreNumberedFields};
ghost use Rattle.stmt_code.specs.FrameOf.{laid, binder_words, binders_laid, frame_of};
ghost use Rattle.stmt_code.specs.Sizes.{words_of_fields};

use crate::measured::Measured;
use crate::part::counted;
use channel_graph::{type_words, words_on};
use sqlite_items::Items;
use std::alloc::Global;
use task_code::Frame;
use tower_syntax::{Arch, Body, Emitter, On};
use tower_types::{Name, NoMemory, Ty};

/// Lays out `weight` words behind those that end at `end`, and answers where they begin.
fn lay(end: &mut u32, weight: u64) -> Result<u32, NoMemory>
    ensures { (n : ℕ) → weight ≡ saturated n → IfOk result (λ start. (start ≡ end.old) × (end.new ≡ end.old + n)) }
{
    let words = counted(weight)?;
    let start = *end;
    *end = start.checked_add(words).ok_or(NoMemory)?;
    Ok(start)
}

/// Lays out names.
pub(crate) fn lay_names(
    alloc: Global,
    arch: &Arch,
    end: &mut u32,
    fields: &[(Name, Ty)],
) -> Result<Items<u32>, NoMemory>
    requires { AreNumberedFields (length arch.now.records) (fields_of fields.now) }
    ensures { IfOk result (λ addresses.
        (addresses ≡ laid end.old (words_of_fields arch.now (fields_of fields.now)))
        × (end.new ≡ end.old + sum (words_of_fields arch.now (fields_of fields.now)))) }
{
    let mut addresses = Items::new(alloc);
    for (_, ty) in fields {
        let address = lay(end, type_words(arch, ty))?;
        addresses.push(address)?;
    }
    Ok(addresses)
}

/// Lays out the names of all callbacks.
fn lay_bodies(
    alloc: Global,
    arch: &Arch,
    end: &mut u32,
    bodies: &[Body],
) -> Result<Items<Items<u32>>, NoMemory>
    requires { All (λ b. AreNumberedFields (length arch.now.records) b.binders) (map body_of bodies.now) }
    ensures { IfOk result (λ binders.
        (binders ≡ binders_laid arch.now end.old (map body_of bodies.now))
        × (end.new ≡ end.old + sum (map (λ b. sum (binder_words arch.now b)) (map body_of bodies.now)))) }
{
    let mut binders = Items::new(alloc);
    for body in bodies {
        let names = lay_names(alloc, arch, end, body.binders.as_slice())?;
        binders.push(names)?;
    }
    Ok(binders)
}

/// Lays out a message of each emitter.
fn lay_messages(
    alloc: Global,
    arch: &Arch,
    end: &mut u32,
    emitters: &[Emitter],
) -> Result<Items<u32>, NoMemory>
    requires { All (λ e. e.channel < length arch.now.channels) (map emitter_of emitters.now) }
    ensures { IfOk result (λ scratch.
        (scratch ≡ laid end.old (map (emitter_words arch.now) (map emitter_of emitters.now)))
        × (end.new ≡ end.old + sum (map (emitter_words arch.now) (map emitter_of emitters.now)))) }
{
    let mut scratch = Items::new(alloc);
    for emitter in emitters {
        let address = lay(end, words_on(arch, On::Channel(emitter.channel)))?;
        scratch.push(address)?;
    }
    Ok(scratch)
}

/// The frame of handler `handler`, whose words begin at `base`, and whose buffers begin with `first_buffer`. Its words
/// are those of its message, of the names of its callbacks, three more, and those of a message of each emitter.
pub fn frame_of(
    alloc: Global,
    arch: &Measured<'_>,
    handler: u32,
    base: u32,
    first_buffer: u32,
) -> Result<Frame, NoMemory>
    requires { handler < length arch.now.handlers }
    ensures { IfOk result (λ f. f ≡ frame_of arch.now handler base first_buffer) }
{
    let system = arch.arch();
    let h = system.handler(handler);
    let mut end = base;
    let param = lay(&mut end, words_on(system, h.on))?;
    let binders = lay_bodies(alloc, system, &mut end, h.callbacks.as_slice())?;
    let temps = lay(&mut end, 3)?;
    let scratch = lay_messages(alloc, system, &mut end, h.emitters.as_slice())?;
    Ok(Frame {
        param,
        binders,
        temps,
        scratch,
        first_buffer,
        end,
    })
}
