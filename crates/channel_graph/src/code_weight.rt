//! What the code of a system weighs, or 2^64 - 1 where it weighs more.

ghost use Rattle.std.specs.Prelude.{◌≡◌, ◌<◌, ℕ, length, map, sum, All, IfOk};
ghost use Rattle.tower_types.specs.Records.{saturated};
ghost use Rattle.tower_syntax.specs.Arch.{Arch as System};
ghost use Rattle.tower_syntax.specs.View.{emitter_of};
ghost use Rattle.tower_syntax.specs.Weights.{source_code, code};
ghost use Rattle.tower_syntax.specs.WellNumbered.{AreListeners};
ghost use Rattle.channel_graph.specs.Reaching.{AreAudiences};
ghost use Rattle.channel_graph.specs.Table.{IsTable, channel_weight, code_of, link_weight, nothing};

use crate::channels::{channel_weights, moves, source_weight};
use crate::marked::reached_sum;
use crate::reach::audiences;
use crate::section::{Count, section};
use sqlite_items::Items;
use std::alloc::Global;
use tower_syntax::{Arch, Emitter};
use tower_types::NoMemory;

/// For each handler, that it costs nothing.
fn no_costs(alloc: Global, arch: &Arch) -> Result<Items<u64>, NoMemory>
    ensures { IfOk result (IsTable (length arch.now.handlers) nothing) }
{
    let costs = vec![in alloc; 0u64; arch.handlers().len()]?;
    Ok(Items::from_vec(costs))
}

/// The weight of the emitters in the code: of each once, whatever its bound, by what a message of each channel weighs.
fn links_weight(emitters: &[Emitter], totals: &[u64]) -> u64
    requires { All (λ e. e.channel < length totals.now) (map emitter_of emitters.now) }
    ensures { (arch : System) (f : ℕ → ℕ) → IsTable (length totals.now) (channel_weight arch f) totals.now
        → result ≡ saturated (sum (map (link_weight arch f) (map emitter_of emitters.now))) }
{
    let mut total: u64 = 0;
    for emitter in emitters {
        let link = totals[emitter.channel as usize].saturating_add(32);
        total = total.saturating_add(link);
    }
    total
}

/// For each handler, the weight of its code.
fn codes(alloc: Global, arch: &Arch, costs: &[u64]) -> Result<Items<u64>, NoMemory>
    requires { IsTable (length arch.now.handlers) nothing costs.now }
    ensures { IfOk result (IsTable (length arch.now.handlers) (code_of arch.now)) }
{
    let moves = moves(alloc, arch)?;
    let totals = channel_weights(alloc, arch, moves.as_slice(), costs)?;
    let mut codes = Items::new(alloc);
    for h in 0..arch.handlers().len() {
        let handler = arch.handler(h as u32);
        let links = links_weight(handler.emitters.as_slice(), totals.as_slice());
        codes.push(section(arch, handler, Count::Standing).saturating_add(links))?;
    }
    Ok(codes)
}

/// The weight of a source's code, by those of the handlers.
fn source_code(
    alloc: Global,
    arch: &Arch,
    heard: &[Items<u32>],
    costs: &[u64],
    codes: &[u64],
    s: u32,
) -> Result<u64, NoMemory>
    requires heard { AreAudiences arch.now (length arch.now.handlers) heard.now }
    requires listed { AreListeners arch.now }
    requires costs { IsTable (length arch.now.handlers) nothing costs.now }
    requires codes { IsTable (length arch.now.handlers) (code_of arch.now) codes.now }
    requires source { s < length arch.now.sources }
    ensures { IfOk result (λ n. n ≡ saturated (source_code arch.now s)) }
{
    let handlers = reached_sum(alloc, arch, heard, codes, s)?;
    let messages = source_weight(arch, costs, s).saturating_add(64);
    Ok(messages.saturating_add(handlers))
}

/// The weight of the code of all sources, or 2^64 - 1 where it is more.
pub fn code(alloc: Global, arch: &Arch) -> Result<u64, NoMemory>
    ensures { IfOk result (λ n. n ≡ saturated (code arch.now)) }
{
    let heard = audiences(alloc, arch)?;
    let costs = no_costs(alloc, arch)?;
    let codes = codes(alloc, arch, costs.as_slice())?;
    let mut total: u64 = 0;
    for s in 0..arch.sources().len() {
        let source = s as u32;
        let more = source_code(
            alloc,
            arch,
            heard.as_slice(),
            costs.as_slice(),
            codes.as_slice(),
            source,
        )?;
        total = total.saturating_add(more);
    }
    Ok(total)
}
