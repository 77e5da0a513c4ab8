//! The longest walk from a source: by depths where they are known, and else length by length, by the handlers at which
//! a walk of so many handlers starts.

ghost use Rattle.std.specs.Prelude.{◌≡◌, ◌<◌, ℕ, length, MatchBool, IfOk};
ghost use Rattle.tower_syntax.specs.WellNumbered.{AreListeners};
ghost use Rattle.channel_graph.specs.Circuit.{IsAcyclic};
ghost use Rattle.channel_graph.specs.Chain.{IsChain, IsChainWithin};
ghost use Rattle.channel_graph.specs.Lengths.{AreBefore, IsStart, IsOnMark};

use crate::circuit::{is_heard, loud_channels};
use crate::depths::{deepest_start, depths, is_on_source, order};
use sqlite_items::Items;
use std::alloc::Global;
use tower_syntax::Arch;
use tower_types::NoMemory;

/// A 1 for each handler that leads to one with a number above 0, and a 0 for each other.
fn one_before(alloc: Global, arch: &Arch, ranks: &[u64]) -> Result<Items<u64>, NoMemory>
    requires { length ranks.now ≡ length arch.now.handlers }
    ensures { IfOk result (AreBefore arch.now ranks.now (length arch.now.handlers)) }
{
    let loud = loud_channels(alloc, arch, ranks)?;
    let mut before = Items::new(alloc);
    for k in 0..arch.handlers().len() {
        let leads = is_heard(arch, loud.as_slice(), k as u32);
        before.push(u64::from(leads))?;
    }
    Ok(before)
}

/// Whether handler `k` is on a source, and has a number above 0.
fn is_start(arch: &Arch, ranks: &[u64], k: u32) -> bool
    requires ranks { length ranks.now ≡ length arch.now.handlers }
    requires handler { k < length arch.now.handlers }
    requires listed { AreListeners arch.now }
    ensures { MatchBool result (IsStart arch.now ranks.now k) (IsStart arch.now ranks.now k → ⊥) }
{
    if ranks[k as usize] == 0 {
        return false;
    }
    is_on_source(arch, k)
}

/// Whether a handler on a source has a number above 0.
fn starts_on_source(arch: &Arch, ranks: &[u64]) -> bool
    requires { length ranks.now ≡ length arch.now.handlers }
    ensures { MatchBool result
        (IsOnMark arch.now ranks.now)
        ((k : ℕ) → IsStart arch.now ranks.now k → ⊥) }
{
    for k in 0..arch.handlers().len() {
        if is_start(arch, ranks, k as u32) {
            return true;
        }
    }
    false
}

/// The greatest number of handlers on a walk from a source, or among the walks that are no longer than there are
/// handlers, where a source reaches a cycle.
fn chain_by_lengths(alloc: Global, arch: &Arch) -> Result<u64, NoMemory>
    ensures within { IfOk result (IsChainWithin arch.now (length arch.now.handlers)) }
    ensures chain { IfOk result (λ n. IsAcyclic arch.now → IsChain arch.now n) }
{
    let count = arch.handlers().len();
    let mut ranks = Items::from_vec(vec![in alloc; 1u64; count]?);
    for n in 0..count {
        if !starts_on_source(arch, ranks.as_slice()) {
            return Ok(n as u64);
        }
        ranks = one_before(alloc, arch, ranks.as_slice())?;
    }
    Ok(count as u64)
}

/// The greatest number of handlers on a walk from a source, 0 where no source has a handler. Where a source reaches a
/// cycle there is none: then it is the greatest among the walks that are no longer than there are handlers.
pub fn chain(alloc: Global, arch: &Arch) -> Result<u64, NoMemory>
    ensures within { IfOk result (IsChainWithin arch.now (length arch.now.handlers)) }
    ensures chain { IfOk result (λ n. IsAcyclic arch.now → IsChain arch.now n) }
{
    let order = order(alloc, arch)?;
    let depths = depths(alloc, arch, order.as_slice())?;
    match deepest_start(arch, depths.as_slice()) {
        Some(deepest) => Ok(deepest),
        None => chain_by_lengths(alloc, arch),
    }
}
