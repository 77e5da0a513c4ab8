//! The frames of the handlers of a task, and where they and the handlers' places are looked up.

ghost use Rattle.std.specs.Prelude.{◌≡◌, ◌<◌, ◌+◌, length, replicate, None, All, IfOk};
ghost use Rattle.emit_code.specs.Framed.{HasEntry};
ghost use Rattle.task_build.specs.CodeOf.{frames_from, end_of};
ghost use Rattle.task_build.specs.Tables.{entries_at, Agrees};

use sqlite_items::Items;
use std::alloc::Global;
use stmt_code::{Measured, frame_of};
use task_code::{Frame, Frames};
use tower_types::NoMemory;

/// The number behind `count` more. One that is no `u32` is told as want of memory.
fn behind(number: u32, count: usize) -> Result<u32, NoMemory>
    ensures { IfOk result (λ n. n ≡ number + count) }
{
    match u32::try_from(count) {
        Ok(count) => number.checked_add(count).ok_or(NoMemory),
        Err(_) => Err(NoMemory),
    }
}

/// The frames of these handlers, one behind the other.
pub(crate) fn frames(
    alloc: Global,
    arch: &Measured<'_>,
    handlers: &[u32],
) -> Result<Items<Frame>, NoMemory>
    requires { All (λ h. h < length arch.now.handlers) handlers.now }
    ensures { IfOk result (λ frames. frames ≡ frames_from arch.now 0 0 handlers.now) }
{
    let mut frames = Items::new(alloc);
    let mut base = 0;
    let mut buffer = 0;
    for h in handlers {
        let frame = frame_of(alloc, arch, *h, base, buffer)?;
        base = frame.end;
        buffer = behind(buffer, arch.arch().handler(*h).emitters.len())?;
        frames.push(frame)?;
    }
    Ok(frames)
}

/// Where the last frame ends, or `width` where there is none.
pub(crate) fn room(width: u32, frames: &[Frame]) -> u32
    ensures { result ≡ end_of width frames.now }
{
    let mut end = width;
    for frame in frames {
        end = frame.end;
    }
    end
}

/// No frame and the place 0 for each of `n` handlers.
fn blank(alloc: Global, n: usize) -> Result<Frames, NoMemory>
    ensures frames { IfOk result (λ t. t.frames ≡ replicate n None) }
    ensures entries { IfOk result (λ t. t.entries ≡ replicate n 0) }
{
    let mut frames = Items::new(alloc);
    let mut entries = Items::new(alloc);
    for _h in 0..n {
        frames.push(None)?;
        entries.push(0)?;
    }
    Ok(Frames { frames, entries })
}

/// The frames of these handlers with their places, by the handlers' numbers.
pub(crate) fn table(
    alloc: Global,
    arch: &Measured<'_>,
    handlers: &[u32],
    places: &[u32],
) -> Result<Frames, NoMemory>
    requires below { All (λ h. h < length arch.now.handlers) handlers.now }
    requires each { length places.now ≡ length handlers.now }
    ensures agrees { IfOk result (Agrees (entries_at handlers.now (frames_from arch.now 0 0 handlers.now) places.now)) }
    ensures has { IfOk result (λ t. All (HasEntry t) handlers.now) }
{
    let mut made = frames(alloc, arch, handlers)?;
    let mut table = blank(alloc, arch.arch().handlers().len())?;
    while let Some(frame) = made.pop() {
        let at = made.len();
        let h = handlers[at] as usize;
        let place = places[at];
        table.frames.set(h, Some(frame));
        table.entries.set(h, place);
    }
    Ok(table)
}
