//! What a source reaches, and what a handler leads to: each handler and each channel is looked at once.

ghost use Rattle.std.specs.Prelude.{◌≡◌, ◌<◌, ◌≤◌, ◌^◌, [], ℕ, length, filter, true, false, slice_index_or, All, IfOk, OnOk, Contains, ◌↔◌};
ghost use Rattle.tower_syntax.specs.Graph.{handler, leads, numbers_before, reached_by, Reaches};
ghost use Rattle.tower_syntax.specs.WellNumbered.{AreListeners, IsWellNumbered};
ghost use Rattle.tower_syntax.specs.declared.arch.On.TheVariants as on;
ghost use Rattle.channel_graph.specs.declared.reach.Start.TheVariants as start;
ghost use Rattle.channel_graph.specs.Reaching.{is_on, first_on, AreAudiences, IsWithin, HearsMore, IsThere, Begins, Follows, AreReached, IsReach, Visits, Goes, IsMarked, AreOpen};

use crate::listening::is_same;
use sqlite_items::Items;
use std::alloc::Global;
use tower_syntax::{Arch, On};
use tower_types::NoMemory;

/// Where a search begins: at the handlers on a source, or at those that a handler leads to.
#[derive(Clone, Copy, Debug, PartialEq, Eq)]
pub(crate) enum Start {
    Source(u32),
    Handler(u32),
}

/// How far a search has come: a mark for each handler and each channel, and the marked handlers in the order in
/// which they were found.
#[derive(Drop)]
pub(crate) struct Reach {
    from: Start,
    handlers: Items<bool>,
    channels: Items<bool>,
    order: Items<u32>,
}

impl Reach {
    /// Marks a handler.
    fn visit(&mut self, k: u32) -> Result<(), NoMemory>
        requires { k < length self.old.handlers }
        ensures { OnOk result (Visits self.old self.new k) }
    {
        if !self.handlers.as_slice()[k as usize] {
            self.order.push(k)?;
            self.handlers.set(k as usize, true);
        }
        Ok(())
    }

    /// Marks each of the handlers.
    fn visit_all(&mut self, arch: &Arch, ks: &[u32]) -> Result<(), NoMemory>
        requires reach { IsReach arch.now self.old }
        requires within { All (λ k. k < length arch.now.handlers) ks.now }
        requires follow { (j : ℕ) → j < length ks.now
            → Follows arch.now self.old.from (slice_index_or ks.now j 0) }
        ensures goes { OnOk result (Goes arch.now self.old self.new) }
        ensures marked { OnOk result ((j : ℕ) → j < length ks.now
            → IsMarked self.new.handlers (slice_index_or ks.now j 0)) }
    {
        for k in ks {
            self.visit(*k)?;
        }
        Ok(())
    }

    /// Marks the handlers on a channel.
    fn enter(&mut self, arch: &Arch, heard: &[Items<u32>], c: u32) -> Result<(), NoMemory>
        requires reach { IsReach arch.now self.old }
        requires heard { AreAudiences arch.now (length arch.now.handlers) heard.now }
        requires channel { c < length arch.now.channels }
        requires follow { (k : ℕ) → k < length arch.now.handlers → is_on arch.now (on.Channel c) k ≡ true
            → Follows arch.now self.old.from k }
        ensures goes { OnOk result (Goes arch.now self.old self.new) }
        ensures marked { OnOk result (IsMarked self.new.channels c) }
    {
        if !self.channels.as_slice()[c as usize] {
            self.visit_all(arch, heard[c as usize].as_slice())?;
            self.channels.set(c as usize, true);
        }
        Ok(())
    }

    /// Marks all that a handler leads to.
    fn follow(&mut self, arch: &Arch, heard: &[Items<u32>], h: u32) -> Result<(), NoMemory>
        requires reach { IsReach arch.now self.old }
        requires heard { AreAudiences arch.now (length arch.now.handlers) heard.now }
        requires listed { AreListeners arch.now }
        requires handler { h < length arch.now.handlers }
        requires follow { (k : ℕ) → leads arch.now h k ≡ true → Follows arch.now self.old.from k }
        ensures goes { OnOk result (Goes arch.now self.old self.new) }
        ensures opened { OnOk result (AreOpen self.new.channels (handler arch.now h).emitters) }
    {
        for emitter in arch.handler(h).emitters.as_slice() {
            self.enter(arch, heard, emitter.channel)?;
        }
        Ok(())
    }

    /// Follows every link of every marked handler.
    fn spread(&mut self, arch: &Arch, heard: &[Items<u32>]) -> Result<(), NoMemory>
        requires reach { IsReach arch.now self.old }
        requires heard { AreAudiences arch.now (length arch.now.handlers) heard.now }
        requires listed { AreListeners arch.now }
        ensures goes { OnOk result (Goes arch.now self.old self.new) }
        ensures closed { OnOk result ((h k : ℕ) → IsMarked self.new.handlers h → leads arch.now h k ≡ true
            → IsMarked self.new.handlers k) }
    {
        let mut done = 0;
        while done < self.order.len() {
            let h = self.order.as_slice()[done];
            self.follow(arch, heard, h)?;
            done += 1;
        }
        Ok(())
    }

    /// Marks the handlers on a source.
    fn visit_source(&mut self, alloc: Global, arch: &Arch, s: u32) -> Result<(), NoMemory>
        requires reach { IsReach arch.now self.old }
        requires from { self.old.from ≡ start.Source s }
        ensures goes { OnOk result (Goes arch.now self.old self.new) }
        ensures marked { OnOk result ((k : ℕ) → k < length arch.now.handlers
            → is_on arch.now (on.Source s) k ≡ true → IsMarked self.new.handlers k) }
    {
        let first = handlers_on(alloc, arch, On::Source(s))?;
        self.visit_all(arch, first.as_slice())?;
        Ok(())
    }

    /// A search that has not begun.
    fn new(alloc: Global, arch: &Arch, from: Start) -> Result<Reach, NoMemory>
        ensures reach { IfOk result (IsReach arch.now) }
        ensures from { IfOk result (λ r. r.from ≡ from) }
    {
        let handlers = vec![in alloc; false; arch.handlers().len()]?;
        let channels = vec![in alloc; false; arch.channels().len()]?;
        Ok(Reach {
            from,
            handlers: Items::from_vec(handlers),
            channels: Items::from_vec(channels),
            order: Items::new(alloc),
        })
    }
}

/// Adds a handler to those of the channel that it is on.
fn add(heard: &mut Vec<Items<u32>>, on: On, k: u32) -> Result<(), NoMemory>
    requires { IsWithin (length heard.old.items) on }
    ensures { OnOk result (HearsMore heard.old.items on k heard.new.items) }
{
    if let On::Channel(c) = on {
        heard[c as usize].push(k)?;
    }
    Ok(())
}

/// For each channel, no handler.
fn silence(alloc: Global, arch: &Arch) -> Result<Vec<Items<u32>>, NoMemory>
    ensures numbered { IsWellNumbered arch.now }
    ensures heard { IfOk result (λ heard. AreAudiences arch.now 0 heard.items) }
{
    let mut heard = Vec::new(alloc);
    for _c in 0..arch.channels().len() {
        heard.push(Items::new(alloc))?;
    }
    Ok(heard)
}

/// For each channel, the handlers on it.
pub(crate) fn audiences(alloc: Global, arch: &Arch) -> Result<Vec<Items<u32>>, NoMemory>
    ensures heard { IfOk result (λ heard. AreAudiences arch.now (length arch.now.handlers) heard.items) }
    ensures numbered { IsWellNumbered arch.now }
{
    let mut heard = silence(alloc, arch)?;
    for (k, handler) in arch.handlers().iter().enumerate() {
        add(&mut heard, handler.on, k as u32)?;
    }
    Ok(heard)
}

/// A search that has marked where it begins.
fn begun(alloc: Global, arch: &Arch, heard: &[Items<u32>], from: Start) -> Result<Reach, NoMemory>
    requires heard { AreAudiences arch.now (length arch.now.handlers) heard.now }
    requires listed { AreListeners arch.now }
    requires exists { IsThere arch.now from }
    ensures reach { IfOk result (IsReach arch.now) }
    ensures from { IfOk result (λ r. r.from ≡ from) }
    ensures begun { IfOk result (λ r. (k : ℕ) → Begins arch.now from k → IsMarked r.handlers k) }
{
    let mut reach = Reach::new(alloc, arch, from)?;
    match from {
        Start::Source(s) => reach.visit_source(alloc, arch, s)?,
        Start::Handler(h) => reach.follow(arch, heard, h)?,
    }
    Ok(reach)
}

/// A mark for each handler that follows from the start.
pub(crate) fn reach_from(
    alloc: Global,
    arch: &Arch,
    heard: &[Items<u32>],
    from: Start,
) -> Result<Items<bool>, NoMemory>
    requires heard { AreAudiences arch.now (length arch.now.handlers) heard.now }
    requires listed { AreListeners arch.now }
    requires exists { IsThere arch.now from }
    ensures { IfOk result (AreReached arch.now from) }
{
    let mut reach = begun(alloc, arch, heard, from)?;
    reach.spread(arch, heard)?;
    let Reach {
        from: _,
        handlers,
        channels: _,
        order: _,
    } = reach;
    Ok(handlers)
}

/// The numbers that are marked, ascending.
fn marked_numbers(alloc: Global, marks: &[bool]) -> Result<Vec<u32>, NoMemory>
    requires { length marks.now ≤ 2 ^ 32 }
    ensures { IfOk result (λ found. found.items
        ≡ filter (λ k. slice_index_or marks.now k false) (numbers_before (length marks.now) [])) }
{
    let mut found = Vec::new(alloc);
    for (k, mark) in marks.iter().enumerate() {
        if *mark {
            found.push(k as u32)?;
        }
    }
    Ok(found)
}

/// The handlers that a source reaches, ascending.
pub fn reached(alloc: Global, arch: &Arch, source: u32) -> Result<Vec<u32>, NoMemory>
    ensures list { IfOk result (λ found. found.items ≡ reached_by arch.now source) }
    ensures links { IfOk result (λ found. (k : ℕ) → Contains found.items k ↔ Reaches arch.now source k) }
{
    let heard = audiences(alloc, arch)?;
    let marks = reach_from(alloc, arch, heard.as_slice(), Start::Source(source))?;
    let found = marked_numbers(alloc, marks.as_slice())?;
    Ok(found)
}

/// The handlers on a source or channel, ascending.
fn handlers_on(alloc: Global, arch: &Arch, on: On) -> Result<Items<u32>, NoMemory>
    ensures { IfOk result (λ found. found ≡ first_on arch.now on (length arch.now.handlers)) }
{
    let mut found = Items::new(alloc);
    for (k, handler) in arch.handlers().iter().enumerate() {
        if is_same(handler.on, on) {
            found.push(k as u32)?;
        }
    }
    Ok(found)
}
