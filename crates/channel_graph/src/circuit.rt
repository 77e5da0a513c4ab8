//! The cycle of a system that is shown.

ghost use Rattle.std.specs.Prelude.{◌≡◌, ◌<◌, ◌^◌, ◌==◌, length, false, IfOk, ◌↔◌};
ghost use Rattle.std.specs.List.{list_any};
ghost use Rattle.tower_syntax.specs.Graph.{leads};
ghost use Rattle.tower_syntax.specs.WellNumbered.{AreListeners, IsWellNumbered};
ghost use Rattle.channel_graph.specs.Reaching.{AreAudiences, IsWithin};
ghost use Rattle.channel_graph.specs.Circuit.{walk, walk_round, first_of_all, shown, shown_at, IsAcyclic};
ghost use Rattle.channel_graph.specs.Settled.{AreClear};
ghost use Rattle.channel_graph.specs.Ranked.{AreRanked, AreLoud, is_loud, MarksChannel, AreLooping, Widens, least_ranked, marked_below};

use crate::levels::{behind_next, levels};
use crate::links::Links;
use crate::looping::looping;
use crate::ranking::{is_ranking, nearest_on, search_ranks, way_ahead};
use crate::reach::{Start, audiences, reach_from};
use crate::settled::{clear_sources, settled};
use sqlite_items::Items;
use std::alloc::Global;
use tower_syntax::{Arch, Emitter, On};
use tower_types::NoMemory;

/// A cycle that a source reaches: the handlers on the way, the first of which the last leads to.
#[derive(Debug, Drop)]
pub struct CycleFound {
    pub source: u32,
    pub walk: Items<u32>,
}

/// Whether handler `k` leads to handler `j`.
fn leads_to(arch: &Arch, k: u32, j: u32) -> bool
    requires first { k < length arch.now.handlers }
    requires second { j < length arch.now.handlers }
    requires listed { AreListeners arch.now }
    ensures { result ≡ leads arch.now k j }
{
    match arch.handler(j).on {
        On::Source(_) => false,
        On::Channel(c) => emits_on(arch.handler(k).emitters.as_slice(), c),
    }
}

/// Whether one of the emitters is on the channel.
fn emits_on(emitters: &[Emitter], c: u32) -> bool
    ensures { result ≡ list_any (λ e. e.channel == c) emitters.now }
{
    emitters.iter().any(|e| e.channel == c)
}

/// Whether handler `k` emits on a marked channel.
pub(crate) fn is_heard(arch: &Arch, loud: &[bool], k: u32) -> bool
    requires handler { k < length arch.now.handlers }
    requires each { length loud.now ≡ length arch.now.channels }
    ensures { result ≡ is_loud arch.now loud.now k }
{
    for emitter in arch.handler(k).emitters.as_slice() {
        if loud[emitter.channel as usize] {
            return true;
        }
    }
    false
}

/// Marks the channel that a handler is on.
fn mark_channel(loud: &mut Items<bool>, on: On)
    requires { IsWithin (length loud.old) on }
    ensures { MarksChannel loud.old on loud.new }
{
    if let On::Channel(c) = on {
        loud.set(c as usize, true);
    }
}

/// Marks each channel that a handler with a rank is on.
pub(crate) fn loud_channels(
    alloc: Global,
    arch: &Arch,
    ranks: &[u64],
) -> Result<Items<bool>, NoMemory>
    requires { length ranks.now ≡ length arch.now.handlers }
    ensures { IfOk result (AreLoud arch.now ranks.now (length arch.now.handlers)) }
{
    let mut loud = Items::from_vec(vec![in alloc; false; arch.channels().len()]?);
    for (k, handler) in arch.handlers().iter().enumerate() {
        if ranks[k] > 0 {
            mark_channel(&mut loud, handler.on);
        }
    }
    Ok(loud)
}

/// Ranks each handler without a rank that emits on a marked channel, and says whether there was one.
fn widen(arch: &Arch, ranks: &mut Items<u64>, loud: &[bool], n: u64) -> bool
    requires ranks { length ranks.old ≡ length arch.now.handlers }
    requires loud { length loud.now ≡ length arch.now.channels }
    requires few { n < 2 ^ 32 }
    ensures widens { Widens arch.now loud.now n (length arch.now.handlers) ranks.old ranks.new }
    ensures same { result ≡ false → ranks.new ≡ ranks.old }
{
    let mut grew = false;
    for k in 0..arch.handlers().len() {
        if ranks.as_slice()[k] == 0 && is_heard(arch, loud, k as u32) {
            let next = n + 2;
            ranks.set(k, next);
            grew = true;
        }
    }
    grew
}

/// The least handler that `k` leads to and whose rank is from 1 to `n + 1`, or `k` where there is none.
fn least_nearer(arch: &Arch, ranks: &[u64], n: u64, k: u32) -> u32
    requires ranks { length ranks.now ≡ length arch.now.handlers }
    requires handler { k < length arch.now.handlers }
    requires few { n < 2 ^ 32 }
    ensures value { result ≡ least_ranked arch.now ranks.now n k }
    ensures below { result < length arch.now.handlers }
    ensures numbered { IsWellNumbered arch.now }
{
    let most = n + 1;
    for j in 0..arch.handlers().len() {
        let rank = ranks[j];
        if 0 < rank && rank <= most && leads_to(arch, k, j as u32) {
            return j as u32;
        }
    }
    k
}

/// The walk round from `h`, which `n + 1` links lead back to itself.
fn walk_back(
    alloc: Global,
    arch: &Arch,
    ranks: &[u64],
    h: u32,
    n: u64,
) -> Result<Items<u32>, NoMemory>
    requires ranks { AreRanked arch.now h n ranks.now }
    requires handler { h < length arch.now.handlers }
    requires few { n < 2 ^ 32 }
    ensures { IfOk result (λ way. way ≡ walk arch.now h n h) }
{
    let mut way = Items::new(alloc);
    let mut at = h;
    let mut left = n;
    while left > 0 {
        way.push(at)?;
        at = least_nearer(arch, ranks, left, at);
        left -= 1;
    }
    way.push(at)?;
    Ok(way)
}

/// The walk from `h` back to itself, if there is one: found round by round, where no ranks are known.
fn way_by_rounds(alloc: Global, arch: &Arch, h: u32) -> Result<Option<Items<u32>>, NoMemory>
    requires { h < length arch.now.handlers }
    ensures { IfOk result (λ way. way ≡ walk_round arch.now h) }
{
    let count = arch.handlers().len();
    let mut ranks = Items::from_vec(vec![in alloc; 0u64; count]?);
    ranks.set(h as usize, 1);
    for n in 0..count {
        let loud = loud_channels(alloc, arch, ranks.as_slice())?;
        if is_heard(arch, loud.as_slice(), h) {
            let way = walk_back(alloc, arch, ranks.as_slice(), h, n as u64)?;
            return Ok(Some(way));
        }
        if !widen(arch, &mut ranks, loud.as_slice(), n as u64) {
            return Ok(None);
        }
    }
    Ok(None)
}

/// The walk from `h` back to itself, if there is one. `back` has for each node those that lead to it.
fn way_round(
    alloc: Global,
    arch: &Arch,
    back: &[Items<usize>],
    h: u32,
) -> Result<Option<Items<u32>>, NoMemory>
    requires { h < length arch.now.handlers }
    ensures { IfOk result (λ way. way ≡ walk_round arch.now h) }
{
    let ranks = search_ranks(alloc, back, arch.handlers().len(), h)?;
    let nearest = nearest_on(alloc, arch, ranks.as_slice())?;
    if is_ranking(arch, ranks.as_slice(), nearest.as_slice(), h) {
        way_ahead(alloc, arch, ranks.as_slice(), nearest.as_slice(), h)
    } else {
        way_by_rounds(alloc, arch, h)
    }
}

/// The walk round from the first of the marked handlers that leads back to itself.
fn first_round(
    alloc: Global,
    arch: &Arch,
    back: &[Items<usize>],
    marks: &[bool],
    looping: &[bool],
) -> Result<Option<Items<u32>>, NoMemory>
    requires marks { length marks.now ≡ length arch.now.handlers }
    requires looping { AreLooping arch.now (length arch.now.handlers) looping.now }
    ensures { IfOk result (λ way.
        way ≡ first_of_all (walk_round arch.now) (marked_below marks.now (length arch.now.handlers))) }
{
    for k in 0..arch.handlers().len() {
        if marks[k] && looping[k] {
            if let Some(way) = way_round(alloc, arch, back, k as u32)? {
                return Ok(Some(way));
            }
        }
    }
    Ok(None)
}

/// The cycle that is shown of a source: none where the source is clear.
fn cycle_of(
    alloc: Global,
    arch: &Arch,
    back: &[Items<usize>],
    heard: &[Items<u32>],
    looping: &[bool],
    clear: &[bool],
    source: u32,
) -> Result<Option<CycleFound>, NoMemory>
    requires heard { AreAudiences arch.now (length arch.now.handlers) heard.now }
    requires looping { AreLooping arch.now (length arch.now.handlers) looping.now }
    requires clear { AreClear arch.now clear.now }
    requires listed { AreListeners arch.now }
    requires source { source < length arch.now.sources }
    ensures { IfOk result (λ found. found ≡ shown_at arch.now source) }
{
    if clear[source as usize] {
        return Ok(None);
    }
    let marks = reach_from(alloc, arch, heard, Start::Source(source))?;
    match first_round(alloc, arch, back, marks.as_slice(), looping)? {
        Some(walk) => Ok(Some(CycleFound { source, walk })),
        None => Ok(None),
    }
}

/// The cycle of the first source that reaches a handler which leads back to itself: from the least such handler on,
/// each time to the least handler that is one link nearer to it.
pub fn cycle(alloc: Global, arch: &Arch) -> Result<Option<CycleFound>, NoMemory>
    ensures shown { IfOk result (λ found. found ≡ shown arch.now) }
    ensures none { IfOk result (λ found. (found ≡ None) ↔ IsAcyclic arch.now) }
{
    let heard = audiences(alloc, arch)?;
    let links = Links::new(alloc, arch)?;
    let order = behind_next(alloc, links.ahead.as_slice())?;
    let levels = levels(alloc, links.back.as_slice(), order.as_slice())?;
    let loops = looping(alloc, arch, levels.as_slice())?;
    let done = settled(alloc, arch, heard.as_slice(), order.as_slice())?;
    let clear = clear_sources(alloc, arch, done.as_slice())?;
    for s in 0..arch.sources().len() {
        let found = cycle_of(
            alloc,
            arch,
            links.back.as_slice(),
            heard.as_slice(),
            loops.as_slice(),
            clear.as_slice(),
            s as u32,
        )?;
        if let Some(cycle) = found {
            return Ok(Some(cycle));
        }
    }
    Ok(None)
}
