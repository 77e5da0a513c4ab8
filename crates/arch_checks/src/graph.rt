//! The bounds, the cycles and the work of a system.
ghost use Rattle.std.specs.Prelude.{◌≡◌, ◌<◌, ◌⊎◌, ℕ, length, map, None, All, OnOk, IfOk, IfErr};
ghost use Rattle.tower_syntax.specs.Weights.{cost, source_numbers};
ghost use Rattle.channel_graph.specs.Circuit.{shown, IsAcyclic};
ghost use Rattle.channel_graph.specs.Over.{NoneOver};
ghost use Rattle.arch_checks.specs.Offences.{source_name, handler_name, emitter_name};
ghost use Rattle.arch_checks.specs.Firsts.{IsBoundFault, IsCycleFault, AreCheap, IsWorkFault};

use crate::fault::Fault;
use channel_graph::{costs, cycle, first_over};
use sqlite_items::Items;
use std::alloc::Global;
use tower_syntax::Arch;
use tower_types::{Name, NoMemory};

/// How many instructions one message of a source may cost.
const WORK_LIMIT: u64 = 1_000_000_000;

/// Whether no message can put more on an emitter than its bound.
pub(crate) fn check_bounds(alloc: Global, arch: &Arch) -> Result<(), Fault>
    ensures bounded { OnOk result (NoneOver arch.now) }
    ensures fault { IfErr result (λ f. (f ≡ Fault.NoMemory) ⊎ IsBoundFault arch.now f) }
{
    let Some(over) = first_over(alloc, arch)? else {
        return Ok(());
    };
    let handler = arch.handler(over.handler);
    let emitter = &handler.emitters.as_slice()[over.emitter as usize];
    let bound = u64::from(emitter.bound);
    let most = over.most;
    let emitter = emitter.name.copy(alloc)?;
    let handler = handler.name.copy(alloc)?;
    Err(Fault::Bound {
        handler,
        emitter,
        most,
        bound,
    })
}

/// The names of handlers.
fn handler_names(alloc: Global, arch: &Arch, handlers: &[u32]) -> Result<Items<Name>, NoMemory>
    requires { All (λ h. h < length arch.now.handlers) handlers.now }
    ensures { IfOk result (λ names. names ≡ map (handler_name arch.now) handlers.now) }
{
    let mut names = Items::new(alloc);
    for h in handlers {
        let name = arch.handler(*h).name.copy(alloc)?;
        names.push(name)?;
    }
    Ok(names)
}

/// Whether no source reaches a cycle.
pub(crate) fn check_cycle(alloc: Global, arch: &Arch) -> Result<(), Fault>
    ensures none { OnOk result (shown arch.now ≡ None) }
    ensures acyclic { OnOk result (IsAcyclic arch.now) }
    ensures fault { IfErr result (λ f. (f ≡ Fault.NoMemory) ⊎ IsCycleFault arch.now f) }
{
    match cycle(alloc, arch)? {
        None => Ok(()),
        Some(found) => {
            let walk = handler_names(alloc, arch, found.walk.as_slice())?;
            let source = arch.source(found.source).name.copy(alloc)?;
            Err(Fault::Cycle { source, walk })
        }
    }
}

/// What a message of each source costs, where none costs more than the limit.
pub(crate) fn check_work(alloc: Global, arch: &Arch) -> Result<Items<u64>, Fault>
    ensures cheap { OnOk result (AreCheap arch.now (length arch.now.sources)) }
    ensures costs { IfOk result (λ all. all ≡ map (cost arch.now) (source_numbers arch.now)) }
    ensures fault { IfErr result (λ f. (f ≡ Fault.NoMemory) ⊎ IsWorkFault arch.now f) }
{
    let all = costs(alloc, arch)?;
    for (s, source) in arch.sources().iter().enumerate() {
        let cost = all[s];
        if cost > WORK_LIMIT {
            let source = source.name.copy(alloc)?;
            return Err(Fault::Work { source, cost });
        }
    }
    Ok(Items::from_vec(all))
}
