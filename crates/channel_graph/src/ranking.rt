//! The rank of each handler, 1 more than the fewest links that lead from it to handler `h`, or 0 where none do, and the
//! walk round that ranks show. A search back along links finds them, and nothing is proved of it: what it finds is
//! looked over once, each handler with its emitters.

ghost use Rattle.std.specs.Prelude.{◌≡◌, ◌<◌, List, ℕ, length, true, IfOk};
ghost use Rattle.tower_syntax.specs.WellNumbered.{AreListeners};
ghost use Rattle.channel_graph.specs.Circuit.{walk_round};
ghost use Rattle.channel_graph.specs.Reaching.{IsWithin};
ghost use Rattle.channel_graph.specs.Ranking.{IsNearer, AddsNearest, AreNearest, IsAhead, IsRanked, IsRanking};

use crate::levels::distances;
use sqlite_items::Items;
use std::alloc::Global;
use tower_syntax::{Arch, On};
use tower_types::NoMemory;

/// Of some handlers, the least rank above 0 and the least handler that has it. Rank 0 stands for none.
#[derive(Clone, Copy, Debug)]
pub(crate) struct Nearest {
    rank: u64,
    handler: u32,
}

/// That of no handlers.
const NONE: Nearest = Nearest {
    rank: 0,
    handler: 0,
};

/// The nearer of two, and the lesser handler where both are as near.
fn nearer(a: Nearest, b: Nearest) -> Nearest
    ensures { IsNearer a b result }
{
    if b.rank == 0 {
        return a;
    }
    if a.rank == 0 || b.rank < a.rank {
        return b;
    }
    if b.rank == a.rank && b.handler < a.handler {
        return b;
    }
    a
}

/// Counts a handler among those of the channel that it is on.
fn add(nearest: &mut Items<Nearest>, on: On, at: Nearest)
    requires { IsWithin (length nearest.old) on }
    ensures { AddsNearest nearest.old on at nearest.new }
{
    if let On::Channel(c) = on {
        let next = nearer(nearest.as_slice()[c as usize], at);
        nearest.set(c as usize, next);
    }
}

/// For each channel, the nearest of the handlers on it.
pub(crate) fn nearest_on(
    alloc: Global,
    arch: &Arch,
    ranks: &[u64],
) -> Result<Items<Nearest>, NoMemory>
    requires { length ranks.now ≡ length arch.now.handlers }
    ensures { IfOk result (AreNearest arch.now ranks.now (length arch.now.handlers)) }
{
    let mut nearest = Items::from_vec(vec![in alloc; NONE; arch.channels().len()]?);
    for (k, handler) in arch.handlers().iter().enumerate() {
        let at = Nearest {
            rank: ranks[k],
            handler: k as u32,
        };
        add(&mut nearest, handler.on, at);
    }
    Ok(nearest)
}

/// The nearest of the handlers that `k` leads to.
fn ahead(arch: &Arch, nearest: &[Nearest], k: u32) -> Nearest
    requires each { length nearest.now ≡ length arch.now.channels }
    requires listed { AreListeners arch.now }
    requires handler { k < length arch.now.handlers }
    ensures { (ranks : List ℕ) → AreNearest arch.now ranks (length arch.now.handlers) nearest.now
        → IsAhead arch.now ranks k result }
{
    let mut best = NONE;
    for emitter in arch.handler(k).emitters.as_slice() {
        best = nearer(best, nearest[emitter.channel as usize]);
    }
    best
}

/// Whether the rank of handler `k` is 1 more than the least above 0 of those that it leads to, and 0 where there is
/// none. That of `h` is to be 1.
fn is_ranked(arch: &Arch, ranks: &[u64], nearest: &[Nearest], h: u32, k: u32) -> bool
    requires ranks { length ranks.now ≡ length arch.now.handlers }
    requires nearest { AreNearest arch.now ranks.now (length arch.now.handlers) nearest.now }
    requires listed { AreListeners arch.now }
    requires handler { k < length arch.now.handlers }
    ensures { result ≡ true → IsRanked arch.now h ranks.now k }
{
    let rank = ranks[k as usize];
    let next = ahead(arch, nearest, k);
    if k == h {
        return rank == 1;
    }
    if next.rank == 0 {
        return rank == 0;
    }
    if rank == 0 || rank > arch.handlers().len() as u64 {
        return false;
    }
    rank - 1 == next.rank
}

/// Whether the rank of each handler is right.
pub(crate) fn is_ranking(arch: &Arch, ranks: &[u64], nearest: &[Nearest], h: u32) -> bool
    requires ranks { length ranks.now ≡ length arch.now.handlers }
    requires nearest { AreNearest arch.now ranks.now (length arch.now.handlers) nearest.now }
    requires listed { AreListeners arch.now }
    ensures { result ≡ true → IsRanking arch.now h ranks.now (length arch.now.handlers) }
{
    for k in 0..arch.handlers().len() {
        if !is_ranked(arch, ranks, nearest, h, k as u32) {
            return false;
        }
    }
    true
}

/// The walk round from `h`: each time to the nearest handler ahead, until that is `h`.
pub(crate) fn way_ahead(
    alloc: Global,
    arch: &Arch,
    ranks: &[u64],
    nearest: &[Nearest],
    h: u32,
) -> Result<Option<Items<u32>>, NoMemory>
    requires ranks { length ranks.now ≡ length arch.now.handlers }
    requires nearest { AreNearest arch.now ranks.now (length arch.now.handlers) nearest.now }
    requires listed { AreListeners arch.now }
    requires ranking { IsRanking arch.now h ranks.now (length arch.now.handlers) }
    requires handler { h < length arch.now.handlers }
    ensures { IfOk result (λ way. way ≡ walk_round arch.now h) }
{
    let first = ahead(arch, nearest, h);
    if first.rank == 0 {
        return Ok(None);
    }
    let mut way = Items::new(alloc);
    way.push(h)?;
    let mut at = first.handler;
    while ranks[at as usize] > 1 {
        way.push(at)?;
        at = ahead(arch, nearest, at).handler;
    }
    Ok(Some(way))
}

/// The rank of each of so many handlers, as a search finds it. `back` has for each node those that lead to it, and two
/// links between nodes are one between handlers.
pub(crate) fn search_ranks(
    alloc: Global,
    back: &[Items<usize>],
    count: usize,
    h: u32,
) -> Result<Items<u64>, NoMemory>
    ensures { IfOk result (λ ranks. length ranks ≡ count) }
{
    let levels = distances(alloc, back, h as usize)?;
    let mut ranks = Items::new(alloc);
    for k in 0..count {
        let level = levels.get(k).copied().unwrap_or(0);
        ranks.push(level / 2 + level % 2)?;
    }
    Ok(ranks)
}
