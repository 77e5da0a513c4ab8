//! Emitters on which one message may put more than their bound.

ghost use Rattle.std.specs.Prelude.{◌≡◌, ◌<◌, ◌≤◌, ℕ, length, IfOk, MatchOption};
ghost use Rattle.tower_types.specs.Records.{saturated};
ghost use Rattle.tower_syntax.specs.Graph.{handler};
ghost use Rattle.tower_syntax.specs.Weights.{most};
ghost use Rattle.channel_graph.specs.Over.{IsOver, NoneOver, IsFirstOver, IsFirstOverOf};

use crate::counting::most;
use crate::rough::rough;
use std::alloc::Global;
use tower_syntax::Arch;
use tower_types::NoMemory;

/// An emitter on which one message of its handler may put more messages than its bound, and how many: `most` is
/// 2^64 - 1 where there are more.
#[derive(Clone, Copy, Debug, PartialEq, Eq)]
pub struct Over {
    pub handler: u32,
    pub emitter: u32,
    pub most: u64,
}

/// How many messages one message of handler `h` may put on emitter `e`, if they are more than `bound`. They are
/// counted only where `rough`, which they do not pass, is more than `bound`.
fn count_over(arch: &Arch, h: u32, e: u32, bound: u32, rough: u64) -> Option<u64>
    requires handler { h < length arch.now.handlers }
    requires rough { saturated (most (handler arch.now h) e) ≤ rough }
    ensures { MatchOption result
        (most (handler arch.now h) e ≤ bound)
        (λ n. (n ≡ saturated (most (handler arch.now h) e)) × (bound < most (handler arch.now h) e)) }
{
    if rough <= u64::from(bound) {
        return None;
    }
    let count = most(arch, h, e);
    if count > u64::from(bound) {
        Some(count)
    } else {
        None
    }
}

/// The first emitter of handler `h` that is over its bound.
fn over_of(alloc: Global, arch: &Arch, h: u32) -> Result<Option<Over>, NoMemory>
    requires { h < length arch.now.handlers }
    ensures { IfOk result (λ found.
        MatchOption found ((e : ℕ) → IsOver arch.now h e → ⊥) (IsFirstOverOf arch.now h)) }
{
    let handler = arch.handler(h);
    let counts = rough(alloc, handler)?;
    for (e, emitter) in handler.emitters.as_slice().iter().enumerate() {
        let found = count_over(arch, h, e as u32, emitter.bound, counts.as_slice()[e]);
        if let Some(most) = found {
            return Ok(Some(Over {
                handler: h,
                emitter: e as u32,
                most,
            }));
        }
    }
    Ok(None)
}

/// The first emitter in file order that is over its bound.
pub fn first_over(alloc: Global, arch: &Arch) -> Result<Option<Over>, NoMemory>
    ensures { IfOk result (λ found. MatchOption found (NoneOver arch.now) (IsFirstOver arch.now)) }
{
    for h in 0..arch.handlers().len() {
        let found = over_of(alloc, arch, h as u32)?;
        if found.is_some() {
            return Ok(found);
        }
    }
    Ok(None)
}
