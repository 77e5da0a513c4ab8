//! Depths: how many handlers a walk from a handler has at most. Each handler and channel is looked at once, behind all
//! that it leads to. What leads into a cycle stays without a depth.

ghost use Rattle.std.specs.Prelude.{◌≡◌, ◌+◌, ◌<◌, ◌≤◌, length, All, IfOk, IfSome, MatchBool};
ghost use Rattle.tower_syntax.specs.Graph.{handler};
ghost use Rattle.tower_syntax.specs.WellNumbered.{AreListeners, IsWellNumbered};
ghost use Rattle.channel_graph.specs.Reaching.{AreAudiences};
ghost use Rattle.channel_graph.specs.Chain.{IsOnSource};
ghost use Rattle.channel_graph.specs.Deep.{AreDepths, IsKnown, IsTop, IsDeepest, emitted};

use crate::levels::behind_next;
use crate::links::Links;
use crate::reach::audiences;
use sqlite_items::Items;
use std::alloc::Global;
use tower_syntax::{Arch, On};
use tower_types::NoMemory;

/// For each handler its depth, and for each channel 1 more than the greatest depth of a handler on it. 0 stands where
/// it is not known.
#[derive(Drop)]
struct Known {
    handlers: Items<u64>,
    channels: Items<u64>,
}

/// The greatest depth of these handlers, 0 where there are none, if all are known.
fn deepest_of(depths: &[u64], ks: &[u32]) -> Option<u64>
    requires { All (λ k. k < length depths.now) ks.now }
    ensures { IfSome result (λ n. IsTop depths.now 0 n (length ks.now) ks.now) }
{
    let mut deepest: u64 = 0;
    for k in ks {
        let depth = depths[*k as usize];
        if depth == 0 {
            return None;
        }
        deepest = deepest.max(depth);
    }
    Some(deepest)
}

/// The greatest number of the channels on which handler `k` emits, 1 where there are none, if all are known.
fn deepest_emitter(arch: &Arch, depths: &[u64], k: u32) -> Option<u64>
    requires channels { length depths.now ≡ length arch.now.channels }
    requires handler { k < length arch.now.handlers }
    ensures { IfSome result (λ n.
        IsTop depths.now 1 n (length (handler arch.now k).emitters) (emitted arch.now k)) }
{
    let mut deepest: u64 = 1;
    for emitter in arch.handler(k).emitters.as_slice() {
        let depth = depths[emitter.channel as usize];
        if depth == 0 {
            return None;
        }
        deepest = deepest.max(depth);
    }
    Some(deepest)
}

impl Known {
    /// Gives a channel its number, if each handler on it has a depth.
    fn settle_channel(&mut self, arch: &Arch, heard: &[Items<u32>], c: u32)
        requires heard { AreAudiences arch.now (length arch.now.handlers) heard.now }
        requires known { IsKnown arch.now self.old }
        requires channel { c < length arch.now.channels }
        ensures { IsKnown arch.now self.new }
    {
        let deepest = deepest_of(self.handlers.as_slice(), heard[c as usize].as_slice());
        if let Some(most) = deepest {
            if most < u64::MAX {
                let next = most + 1;
                self.channels.set(c as usize, next);
            }
        }
    }

    /// Gives a handler its depth, if each channel on which it emits has a number.
    fn settle_handler(&mut self, arch: &Arch, k: u32)
        requires listed { AreListeners arch.now }
        requires known { IsKnown arch.now self.old }
        requires handler { k < length arch.now.handlers }
        ensures { IsKnown arch.now self.new }
    {
        if let Some(most) = deepest_emitter(arch, self.channels.as_slice(), k) {
            self.handlers.set(k as usize, most);
        }
    }

    /// Gives a node its number, if all that it leads to have one.
    fn settle(&mut self, arch: &Arch, heard: &[Items<u32>], node: usize)
        requires heard { AreAudiences arch.now (length arch.now.handlers) heard.now }
        requires listed { AreListeners arch.now }
        requires known { IsKnown arch.now self.old }
        ensures { IsKnown arch.now self.new }
    {
        let first = arch.handlers().len();
        if node < first {
            self.settle_handler(arch, node as u32);
        } else if node - first < arch.channels().len() {
            self.settle_channel(arch, heard, (node - first) as u32);
        }
    }
}

/// The handlers and channels, as `Links` numbers them, each behind those to which it leads and which do not lead back
/// to it. Nothing is proved of it.
pub(crate) fn order(alloc: Global, arch: &Arch) -> Result<Items<usize>, NoMemory> {
    let links = Links::new(alloc, arch)?;
    let order = behind_next(alloc, links.ahead.as_slice())?;
    Ok(order)
}

/// The depth of each handler, or 0 where it was not found. By a good order it is found where the handler leads into no
/// cycle.
pub(crate) fn depths(alloc: Global, arch: &Arch, order: &[usize]) -> Result<Items<u64>, NoMemory>
    ensures { IfOk result (AreDepths arch.now) }
{
    let heard = audiences(alloc, arch)?;
    let mut known = Known {
        handlers: Items::from_vec(vec![in alloc; 0u64; arch.handlers().len()]?),
        channels: Items::from_vec(vec![in alloc; 0u64; arch.channels().len()]?),
    };
    for node in order {
        known.settle(arch, heard.as_slice(), *node);
    }
    let Known {
        handlers,
        channels: _,
    } = known;
    Ok(handlers)
}

/// Whether handler `k` is on a source.
pub(crate) fn is_on_source(arch: &Arch, k: u32) -> bool
    requires handler { k < length arch.now.handlers }
    requires listed { AreListeners arch.now }
    ensures { MatchBool result (IsOnSource arch.now k) (IsOnSource arch.now k → ⊥) }
{
    match arch.handler(k).on {
        On::Source(_) => true,
        On::Channel(_) => false,
    }
}

/// The greatest depth of a handler on a source, 0 where there is none, if all of them are known, and it is no more
/// than there are handlers.
pub(crate) fn deepest_start(arch: &Arch, depths: &[u64]) -> Option<u64>
    requires { AreDepths arch.now depths.now }
    ensures deepest { IfSome result (λ n. IsDeepest arch.now depths.now (length arch.now.handlers) n) }
    ensures few { IfSome result (λ n. n ≤ length arch.now.handlers) }
    ensures numbered { IsWellNumbered arch.now }
{
    let mut deepest: u64 = 0;
    for k in 0..arch.handlers().len() {
        if is_on_source(arch, k as u32) {
            let depth = depths[k];
            if depth == 0 {
                return None;
            }
            deepest = deepest.max(depth);
        }
    }
    if deepest > arch.handlers().len() as u64 {
        return None;
    }
    Some(deepest)
}
