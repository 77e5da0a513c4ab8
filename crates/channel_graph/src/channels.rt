//! What it weighs to deliver one message to the subscribers of a source or channel, or 2^64 - 1 where it weighs more.

ghost use Rattle.std.specs.Prelude.{◌≡◌, ◌<◌, ◌++◌, [], ◌∷◌, ℕ, List, length, All, map, IfOk};
ghost use Rattle.tower_types.specs.Records.{saturated};
ghost use Rattle.tower_syntax.specs.declared.arch.On.TheVariants as on;
ghost use Rattle.tower_syntax.specs.WellNumbered.{IsNumberedOn};
ghost use Rattle.channel_graph.specs.Listening.{Exists, attached};
ghost use Rattle.channel_graph.specs.Table.{IsTable, channel_move, channel_weight, weight_among};
ghost use Rattle.channel_graph.specs.Costed.{IsListed, costs_in, Joins};

use crate::listening::{attachment, is_same};
use crate::section::move_weight;
use crate::size::words_on;
use sqlite_items::Items;
use std::alloc::Global;
use tower_syntax::{Arch, Listener, On};
use tower_types::NoMemory;

/// For each channel, what it weighs to move one of its messages.
pub(crate) fn moves(alloc: Global, arch: &Arch) -> Result<Items<u64>, NoMemory>
    ensures { IfOk result (IsTable (length arch.now.channels) (channel_move arch.now)) }
{
    let mut moves = Items::new(alloc);
    for c in 0..arch.channels().len() {
        let words = words_on(arch, On::Channel(c as u32));
        moves.push(move_weight(words))?;
    }
    Ok(moves)
}

/// What a subscriber costs by a list of the costs of handlers. An output costs nothing.
fn cost_of(costs: &[u64], listener: Listener) -> u64
    requires { IsListed (length costs.now) listener }
    ensures { result ≡ costs_in costs.now listener }
{
    match listener {
        Listener::Handler(h) => costs[h as usize],
        Listener::Output(_) => 0,
    }
}

/// Adds what it weighs to deliver one message to a subscriber to the sum of the channel that it is on.
fn add_subscriber(
    arch: &Arch,
    totals: &mut Items<u64>,
    moves: &[u64],
    costs: &[u64],
    listener: Listener,
)
    requires totals { length totals.old ≡ length arch.now.channels }
    requires moves { IsTable (length arch.now.channels) (channel_move arch.now) moves.now }
    requires costs { length costs.now ≡ length arch.now.handlers }
    requires exists { Exists arch.now listener }
    requires numbered { IsNumberedOn arch.now (attached arch.now listener) }
    ensures each { length totals.new ≡ length totals.old }
    ensures joins { Joins arch.now costs.now listener totals.old totals.new }
{
    if let On::Channel(c) = attachment(arch, listener) {
        let more = moves[c as usize].saturating_add(cost_of(costs, listener));
        let total = totals.as_slice()[c as usize].saturating_add(more);
        totals.set(c as usize, total);
    }
}

/// For each channel, what it weighs to deliver one of its messages, by a list of the costs of handlers.
pub(crate) fn channel_weights(
    alloc: Global,
    arch: &Arch,
    moves: &[u64],
    costs: &[u64],
) -> Result<Items<u64>, NoMemory>
    requires moves { IsTable (length arch.now.channels) (channel_move arch.now) moves.now }
    requires costs { length costs.now ≡ length arch.now.handlers }
    ensures each { IfOk result (λ totals. length totals ≡ length arch.now.channels) }
    ensures weights { IfOk result (λ totals. (f : ℕ → ℕ) → IsTable (length arch.now.handlers) f costs.now
        → IsTable (length arch.now.channels) (channel_weight arch.now f) totals) }
{
    let mut totals = Items::from_vec(vec![in alloc; 0u64; arch.channels().len()]?);
    for listener in arch.listeners() {
        add_subscriber(arch, &mut totals, moves, costs, *listener);
    }
    Ok(totals)
}

/// What it weighs to deliver one message of a source, by a list of the costs of handlers.
pub(crate) fn source_weight(arch: &Arch, costs: &[u64], s: u32) -> u64
    requires costs { length costs.now ≡ length arch.now.handlers }
    requires source { s < length arch.now.sources }
    ensures { (f : ℕ → ℕ) → IsTable (length arch.now.handlers) f costs.now
        → result ≡ saturated (weight_among arch.now f arch.now.listeners (on.Source s)) }
{
    let moved = move_weight(words_on(arch, On::Source(s)));
    let mut total: u64 = 0;
    for listener in arch.listeners() {
        if is_same(attachment(arch, *listener), On::Source(s)) {
            let more = moved.saturating_add(cost_of(costs, *listener));
            total = total.saturating_add(more);
        }
    }
    total
}
