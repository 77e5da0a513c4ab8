//! What leads into no cycle: a channel all of whose handlers lead into none, a handler all of whose emitters are on
//! such channels, and a source all of whose handlers lead into none. Each node is looked at once.

ghost use Rattle.std.specs.Prelude.{◌≡◌, ◌<◌, ℕ, length, slice_index_or, true, All, IfOk};
ghost use Rattle.tower_syntax.specs.Graph.{handler};
ghost use Rattle.tower_syntax.specs.WellNumbered.{AreListeners};
ghost use Rattle.channel_graph.specs.Reaching.{AreAudiences, AreOpen, IsMarked};
ghost use Rattle.channel_graph.specs.Settled.{IsSettled, IsQuiet, IsSourceWithin, Blots, AreClear};

use sqlite_items::Items;
use std::alloc::Global;
use tower_syntax::{Arch, On};
use tower_types::NoMemory;

/// A mark for each handler and for each channel that is known to lead into no cycle.
#[derive(Drop)]
struct Quiet {
    handlers: Items<bool>,
    channels: Items<bool>,
}

/// Whether all of these handlers are marked.
fn are_done(done: &[bool], ks: &[u32]) -> bool
    requires { All (λ k. k < length done.now) ks.now }
    ensures { result ≡ true → (j : ℕ) → j < length ks.now → IsMarked done.now (slice_index_or ks.now j 0) }
{
    for k in ks {
        if !done[*k as usize] {
            return false;
        }
    }
    true
}

/// Whether the channels of all emitters of handler `k` are marked.
fn are_open(arch: &Arch, channels: &[bool], k: u32) -> bool
    requires channels { length channels.now ≡ length arch.now.channels }
    requires handler { k < length arch.now.handlers }
    ensures { result ≡ true → AreOpen channels.now (handler arch.now k).emitters }
{
    for emitter in arch.handler(k).emitters.as_slice() {
        if !channels[emitter.channel as usize] {
            return false;
        }
    }
    true
}

impl Quiet {
    /// Marks a channel all of whose handlers are marked.
    fn settle_channel(&mut self, arch: &Arch, heard: &[Items<u32>], c: u32)
        requires heard { AreAudiences arch.now (length arch.now.handlers) heard.now }
        requires quiet { IsQuiet arch.now self.old }
        requires channel { c < length arch.now.channels }
        ensures { IsQuiet arch.now self.new }
    {
        if are_done(self.handlers.as_slice(), heard[c as usize].as_slice()) {
            self.channels.set(c as usize, true);
        }
    }

    /// Marks a handler that emits on marked channels only.
    fn settle_handler(&mut self, arch: &Arch, k: u32)
        requires listed { AreListeners arch.now }
        requires quiet { IsQuiet arch.now self.old }
        requires handler { k < length arch.now.handlers }
        ensures { IsQuiet arch.now self.new }
    {
        if !self.handlers.as_slice()[k as usize] && are_open(arch, self.channels.as_slice(), k) {
            self.handlers.set(k as usize, true);
        }
    }

    /// Marks a node all of whose links lead to marked ones.
    fn settle(&mut self, arch: &Arch, heard: &[Items<u32>], node: usize)
        requires heard { AreAudiences arch.now (length arch.now.handlers) heard.now }
        requires listed { AreListeners arch.now }
        requires quiet { IsQuiet arch.now self.old }
        ensures { IsQuiet arch.now self.new }
    {
        let first = arch.handlers().len();
        if node < first {
            self.settle_handler(arch, node as u32);
        } else if node - first < arch.channels().len() {
            self.settle_channel(arch, heard, (node - first) as u32);
        }
    }
}

/// A mark for each handler that was found to lead into no cycle. `order` has each node behind those to which it leads
/// and which do not lead back to it: then all such handlers are found.
pub(crate) fn settled(
    alloc: Global,
    arch: &Arch,
    heard: &[Items<u32>],
    order: &[usize],
) -> Result<Items<bool>, NoMemory>
    requires heard { AreAudiences arch.now (length arch.now.handlers) heard.now }
    requires listed { AreListeners arch.now }
    ensures { IfOk result (IsSettled arch.now) }
{
    let mut quiet = Quiet {
        handlers: Items::from_vec(vec![in alloc; false; arch.handlers().len()]?),
        channels: Items::from_vec(vec![in alloc; false; arch.channels().len()]?),
    };
    for node in order {
        quiet.settle(arch, heard, *node);
    }
    let Quiet {
        handlers,
        channels: _,
    } = quiet;
    Ok(handlers)
}

/// Takes the mark from the source that a handler is on.
fn blot(clear: &mut Items<bool>, on: On)
    requires { IsSourceWithin (length clear.old) on }
    ensures { Blots clear.old on clear.new }
{
    if let On::Source(s) = on {
        clear.set(s as usize, false);
    }
}

/// A mark for each source all of whose handlers are marked as leading into no cycle.
pub(crate) fn clear_sources(
    alloc: Global,
    arch: &Arch,
    done: &[bool],
) -> Result<Items<bool>, NoMemory>
    requires done { IsSettled arch.now done.now }
    requires listed { AreListeners arch.now }
    ensures { IfOk result (AreClear arch.now) }
{
    let mut clear = Items::from_vec(vec![in alloc; true; arch.sources().len()]?);
    for (k, handler) in arch.handlers().iter().enumerate() {
        if !done[k] {
            blot(&mut clear, handler.on);
        }
    }
    Ok(clear)
}
