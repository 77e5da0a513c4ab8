//! Handlers that may lead back to themselves: those with a link that leads to no higher level. That no link leads to a
//! lower level is looked at once, so nothing has to be known of how the levels were found.

ghost use Rattle.std.specs.Prelude.{◌≡◌, ◌+◌, ◌<◌, length, true, IfOk};
ghost use Rattle.tower_syntax.specs.Graph.{handler};
ghost use Rattle.tower_syntax.specs.WellNumbered.{AreListeners};
ghost use Rattle.channel_graph.specs.Ranked.{rank, AreLooping};
ghost use Rattle.channel_graph.specs.Levels.{AreFrom, IsFromOn, Ascends};

use sqlite_items::Items;
use std::alloc::Global;
use tower_syntax::{Arch, On};
use tower_types::NoMemory;

/// Whether each emitter of handler `k` has a channel of at least this level.
fn emits_from(arch: &Arch, levels: &[u64], k: u32, level: u64) -> bool
    requires levels { length levels.now ≡ length arch.now.handlers + length arch.now.channels }
    requires handler { k < length arch.now.handlers }
    ensures { result ≡ true → AreFrom arch.now levels.now level (handler arch.now k).emitters }
{
    let first = arch.handlers().len();
    for emitter in arch.handler(k).emitters.as_slice() {
        if levels[first + emitter.channel as usize] < level {
            return false;
        }
    }
    true
}

/// Whether handler `k` has no lower level than the channel that it is on.
fn is_from_channel(arch: &Arch, levels: &[u64], k: u32) -> bool
    requires levels { length levels.now ≡ length arch.now.handlers + length arch.now.channels }
    requires handler { k < length arch.now.handlers }
    ensures { result ≡ true → IsFromOn arch.now levels.now (rank levels.now k) (handler arch.now k).on }
{
    match arch.handler(k).on {
        On::Source(_) => true,
        On::Channel(c) => levels[arch.handlers().len() + c as usize] <= levels[k as usize],
    }
}

/// Whether no link leads to a lower level.
fn ascends(arch: &Arch, levels: &[u64]) -> bool
    requires { length levels.now ≡ length arch.now.handlers + length arch.now.channels }
    ensures { result ≡ true → Ascends arch.now levels.now (length arch.now.handlers) }
{
    for k in 0..arch.handlers().len() {
        let level = levels[k];
        if !is_from_channel(arch, levels, k as u32) || !emits_from(arch, levels, k as u32, level) {
            return false;
        }
    }
    true
}

/// Whether every link of handler `k` leads to a higher level.
fn is_below(arch: &Arch, levels: &[u64], k: u32) -> bool
    requires levels { length levels.now ≡ length arch.now.handlers + length arch.now.channels }
    requires handler { k < length arch.now.handlers }
    ensures { result ≡ true → AreFrom arch.now levels.now (rank levels.now k + 1) (handler arch.now k).emitters }
{
    let level = levels[k as usize];
    level < u64::MAX && emits_from(arch, levels, k, level + 1)
}

/// A mark for each handler that may lead back to itself. `levels` has a level for each handler, then for each channel.
pub(crate) fn looping(alloc: Global, arch: &Arch, levels: &[u64]) -> Result<Items<bool>, NoMemory>
    requires levels { length levels.now ≡ length arch.now.handlers + length arch.now.channels }
    requires listed { AreListeners arch.now }
    ensures { IfOk result (AreLooping arch.now (length arch.now.handlers)) }
{
    let known = ascends(arch, levels);
    let mut marks = Items::new(alloc);
    for h in 0..arch.handlers().len() {
        let below = known && is_below(arch, levels, h as u32);
        marks.push(!below)?;
    }
    Ok(marks)
}
