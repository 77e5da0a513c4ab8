//! Sums over the handlers that a source reaches, or 2^64 - 1 where they are greater.

ghost use Rattle.std.specs.Prelude.{◌≡◌, ◌<◌, ℕ, length, map, sum, IfOk};
ghost use Rattle.tower_types.specs.Records.{saturated};
ghost use Rattle.tower_syntax.specs.Graph.{reached_by};
ghost use Rattle.tower_syntax.specs.WellNumbered.{AreListeners};
ghost use Rattle.channel_graph.specs.Reaching.{AreAudiences};
ghost use Rattle.channel_graph.specs.Ranked.{marked_below};
ghost use Rattle.channel_graph.specs.Table.{IsTable};

use crate::reach::{Start, reach_from};
use sqlite_items::Items;
use std::alloc::Global;
use tower_syntax::Arch;
use tower_types::NoMemory;

/// The sum of what a list has for each marked handler.
fn marked_sum(list: &[u64], marks: &[bool]) -> u64
    requires { length list.now ≡ length marks.now }
    ensures { (f : ℕ → ℕ) → IsTable (length marks.now) f list.now
        → result ≡ saturated (sum (map f (marked_below marks.now (length marks.now)))) }
{
    let mut total: u64 = 0;
    for (k, mark) in marks.iter().enumerate() {
        if *mark {
            total = total.saturating_add(list[k]);
        }
    }
    total
}

/// The sum of what a list has for each handler that a source reaches.
pub(crate) fn reached_sum(
    alloc: Global,
    arch: &Arch,
    heard: &[Items<u32>],
    list: &[u64],
    s: u32,
) -> Result<u64, NoMemory>
    requires heard { AreAudiences arch.now (length arch.now.handlers) heard.now }
    requires listed { AreListeners arch.now }
    requires list { length list.now ≡ length arch.now.handlers }
    ensures { IfOk result (λ n. (f : ℕ → ℕ) → IsTable (length arch.now.handlers) f list.now
        → n ≡ saturated (sum (map f (reached_by arch.now s)))) }
{
    let marks = reach_from(alloc, arch, heard, Start::Source(s))?;
    Ok(marked_sum(list, marks.as_slice()))
}
