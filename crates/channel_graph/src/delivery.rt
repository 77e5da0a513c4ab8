//! What one message of each source costs, or 2^64 - 1 where it costs more. Handlers that lead into no cycle are taken
//! behind those to which they lead, and one round that changes none of their costs shows that these are right. Where
//! it changes one, or a source leads into a cycle, it goes round by round, each time with all that follows through one
//! link more, until a round changes nothing.

ghost use Rattle.std.specs.Prelude.{◌≡◌, ◌<◌, ℕ, length, map, sum, true, All, IfOk, IfSome};
ghost use Rattle.tower_types.specs.Records.{saturated};
ghost use Rattle.tower_syntax.specs.Arch.{Arch as System};
ghost use Rattle.tower_syntax.specs.View.{emitter_of, handler_of};
ghost use Rattle.tower_syntax.specs.Graph.{handler};
ghost use Rattle.tower_syntax.specs.Weights.{section, emitter_weight, deliver, cost, source_numbers};
ghost use Rattle.channel_graph.specs.Table.{IsTable, channel_move, channel_weight, section_of, further};
ghost use Rattle.channel_graph.specs.Kept.{AreKept, AreDeliveries};

use crate::channels::{channel_weights, moves, source_weight};
use crate::depths::{deepest_start, depths, order};
use crate::section::{Count, section};
use sqlite_items::Items;
use std::alloc::Global;
use tower_syntax::{Arch, Emitter, On};
use tower_types::NoMemory;

/// For each handler, what it weighs from its lock to its unlock.
fn sections(alloc: Global, arch: &Arch) -> Result<Items<u64>, NoMemory>
    ensures { IfOk result (IsTable (length arch.now.handlers) (section_of arch.now)) }
{
    let mut sections = Items::new(alloc);
    for h in 0..arch.handlers().len() {
        let handler = arch.handler(h as u32);
        sections.push(section(arch, handler, Count::Executed))?;
    }
    Ok(sections)
}

/// What it weighs to deliver all that the emitters may hold, by what it weighs to deliver one message of each channel.
fn emitters_weight(emitters: &[Emitter], totals: &[u64]) -> u64
    requires { All (λ e. e.channel < length totals.now) (map emitter_of emitters.now) }
    ensures { (arch : System) (f : ℕ → ℕ) → IsTable (length totals.now) (channel_weight arch f) totals.now
        → result ≡ saturated (sum (map (emitter_weight arch f) (map emitter_of emitters.now))) }
{
    let mut total: u64 = 0;
    for emitter in emitters {
        let message = totals[emitter.channel as usize].saturating_add(32);
        let all = message.saturating_mul(u64::from(emitter.bound));
        total = total.saturating_add(all.saturating_add(32));
    }
    total
}

/// For each handler, what it costs with all that follows through one link more than the list counts.
fn round(
    alloc: Global,
    arch: &Arch,
    sections: &[u64],
    moves: &[u64],
    before: &[u64],
) -> Result<Items<u64>, NoMemory>
    requires sections { IsTable (length arch.now.handlers) (section_of arch.now) sections.now }
    requires moves { IsTable (length arch.now.channels) (channel_move arch.now) moves.now }
    requires before { length before.now ≡ length arch.now.handlers }
    ensures each { IfOk result (λ after. length after ≡ length arch.now.handlers) }
    ensures rounds { IfOk result (λ after. (f : ℕ → ℕ) → IsTable (length arch.now.handlers) f before.now
        → IsTable (length arch.now.handlers) (further arch.now f) after) }
{
    let totals = channel_weights(alloc, arch, moves, before)?;
    let mut after = Items::new(alloc);
    for h in 0..arch.handlers().len() {
        let emitters = arch.handler(h as u32).emitters.as_slice();
        let follows = emitters_weight(emitters, totals.as_slice());
        after.push(sections[h].saturating_add(follows))?;
    }
    Ok(after)
}

/// For each handler, what it costs with all that follows from it, round by round.
fn deliveries_by_rounds(
    alloc: Global,
    arch: &Arch,
    sections: &[u64],
    moves: &[u64],
) -> Result<Items<u64>, NoMemory>
    requires sections { IsTable (length arch.now.handlers) (section_of arch.now) sections.now }
    requires moves { IsTable (length arch.now.channels) (channel_move arch.now) moves.now }
    ensures { IfOk result (IsTable (length arch.now.handlers) (deliver arch.now)) }
{
    let mut costs = Items::from_slice(alloc, sections)?;
    for _links in 0..arch.handlers().len() {
        let after = round(alloc, arch, sections, moves, costs.as_slice())?;
        if after.as_slice() == costs.as_slice() {
            return Ok(costs);
        }
        costs = after;
    }
    Ok(costs)
}

/// What handlers cost, as far as they were taken, and for each channel what it weighs to deliver one of its messages to
/// outputs and to those handlers.
#[derive(Drop)]
struct Taken {
    costs: Items<u64>,
    totals: Items<u64>,
}

impl Taken {
    /// Takes handler `k`, by those that were taken.
    fn take(&mut self, arch: &Arch, sections: &[u64], k: u32)
        requires sections { length sections.now ≡ length arch.now.handlers }
        requires handler { k < length arch.now.handlers }
        requires costs { length self.old.costs ≡ length arch.now.handlers }
        requires totals { length self.old.totals ≡ length arch.now.channels }
        ensures costs { length self.new.costs ≡ length self.old.costs }
        ensures totals { length self.new.totals ≡ length self.old.totals }
    {
        let handler = arch.handler(k);
        let follows = emitters_weight(handler.emitters.as_slice(), self.totals.as_slice());
        let cost = sections[k as usize].saturating_add(follows);
        self.costs.set(k as usize, cost);
        if let On::Channel(c) = handler.on {
            let total = self.totals.as_slice()[c as usize].saturating_add(cost);
            self.totals.set(c as usize, total);
        }
    }
}

/// A cost for each handler of the order, as it follows from those that stand before it, and 0 for each other.
fn costs_along(
    alloc: Global,
    arch: &Arch,
    sections: &[u64],
    moves: &[u64],
    order: &[usize],
) -> Result<Items<u64>, NoMemory>
    requires sections { length sections.now ≡ length arch.now.handlers }
    requires moves { IsTable (length arch.now.channels) (channel_move arch.now) moves.now }
    ensures { IfOk result (λ costs. length costs ≡ length arch.now.handlers) }
{
    let count = arch.handlers().len();
    let costs = Items::from_vec(vec![in alloc; 0u64; count]?);
    let totals = channel_weights(alloc, arch, moves, costs.as_slice())?;
    let mut taken = Taken { costs, totals };
    for node in order {
        if *node < count {
            taken.take(arch, sections, *node as u32);
        }
    }
    let Taken { costs, totals: _ } = taken;
    Ok(costs)
}

/// Whether each handler with a depth has the same cost in both lists.
fn are_kept(depths: &[u64], before: &[u64], after: &[u64]) -> bool
    requires before { length before.now ≡ length depths.now }
    requires after { length after.now ≡ length depths.now }
    ensures { result ≡ true → AreKept depths.now before.now after.now (length depths.now) }
{
    for k in 0..depths.len() {
        let cost = before[k];
        if depths[k] > 0 && cost != after[k] {
            return false;
        }
    }
    true
}

/// For each handler a cost, right for those on sources, if no source leads into a cycle.
fn deliveries_in_order(
    alloc: Global,
    arch: &Arch,
    sections: &[u64],
    moves: &[u64],
) -> Result<Option<Items<u64>>, NoMemory>
    requires sections { IsTable (length arch.now.handlers) (section_of arch.now) sections.now }
    requires moves { IsTable (length arch.now.channels) (channel_move arch.now) moves.now }
    ensures { IfOk result (λ found. IfSome found (AreDeliveries arch.now)) }
{
    let order = order(alloc, arch)?;
    let depths = depths(alloc, arch, order.as_slice())?;
    let Some(_deepest) = deepest_start(arch, depths.as_slice()) else {
        return Ok(None);
    };
    let costs = costs_along(alloc, arch, sections, moves, order.as_slice())?;
    let after = round(alloc, arch, sections, moves, costs.as_slice())?;
    if are_kept(depths.as_slice(), costs.as_slice(), after.as_slice()) {
        return Ok(Some(costs));
    }
    Ok(None)
}

/// For each handler a cost: for those on sources, what it costs with all that follows from it.
fn deliveries(alloc: Global, arch: &Arch) -> Result<Items<u64>, NoMemory>
    ensures { IfOk result (AreDeliveries arch.now) }
{
    let moves = moves(alloc, arch)?;
    let sections = sections(alloc, arch)?;
    match deliveries_in_order(alloc, arch, sections.as_slice(), moves.as_slice())? {
        Some(costs) => Ok(costs),
        None => deliveries_by_rounds(alloc, arch, sections.as_slice(), moves.as_slice()),
    }
}

/// What one message of each source costs with all that follows from it, in the order of the sources, or 2^64 - 1 where
/// it costs more.
pub fn costs(alloc: Global, arch: &Arch) -> Result<Vec<u64>, NoMemory>
    ensures { IfOk result (λ found. found.items
        ≡ map (λ s. saturated (cost arch.now s)) (source_numbers arch.now)) }
{
    let delivered = deliveries(alloc, arch)?;
    let mut found = Vec::new(alloc);
    for s in 0..arch.sources().len() {
        let messages = source_weight(arch, delivered.as_slice(), s as u32);
        found.push(messages.saturating_add(64))?;
    }
    Ok(found)
}
