//! The limits of a system.
ghost use Rattle.std.specs.Prelude.{◌≡◌, ◌≤◌, ◌⊎◌, ℕ, OnOk, IfOk, IfErr};
ghost use Rattle.tower_types.specs.Records.{saturated};
ghost use Rattle.channel_graph.specs.Circuit.{IsAcyclic};
ghost use Rattle.arch_checks.specs.Limits.{limit, limits};
ghost use Rattle.arch_checks.specs.Sizes.{Counts};
ghost use Rattle.arch_checks.specs.Firsts.{AreWithin, IsSizeFault};

use crate::fault::{Fault, What};
use crate::widths::{Measure, greatest};
use channel_graph::{chain, code, memory};
use std::alloc::Global;
use tower_syntax::Arch;
use tower_types::NoMemory;

/// What has a limit, in the order in which the limits are looked at.
const ORDER: [What; 11] = [
    What::Sources,
    What::Channels,
    What::Outputs,
    What::Monitors,
    What::Handlers,
    What::Records,
    What::Depth,
    What::Words,
    What::Chain,
    What::Memory,
    What::Code,
];

/// How much a file may have of it.
fn limit(what: What) -> u64
    ensures { result ≡ limit what }
{
    match what {
        What::Sources => 64,
        What::Channels => 4_096,
        What::Outputs => 1_024,
        What::Monitors => 1_024,
        What::Handlers => 4_096,
        What::Records => 1_024,
        What::Depth => 32,
        What::Words => 4_096,
        What::Chain => 100,
        What::Memory => 1_048_576,
        What::Code => 1_000_000,
    }
}

/// How much a system in which no source reaches a cycle has of it, or 2^64 - 1 where it has more.
fn count(alloc: Global, arch: &Arch, what: What) -> Result<u64, NoMemory>
    ensures { IfOk result (λ found. IsAcyclic arch.now → (n : ℕ) × Counts arch.now what n × (found ≡ saturated n)) }
{
    match what {
        What::Sources => Ok(arch.sources().len() as u64),
        What::Channels => Ok(arch.channels().len() as u64),
        What::Outputs => Ok(arch.outputs().len() as u64),
        What::Monitors => Ok(arch.monitors().len() as u64),
        What::Handlers => Ok(arch.handlers().len() as u64),
        What::Records => Ok(arch.records().len() as u64),
        What::Depth => Ok(greatest(arch, Measure::Depth)),
        What::Words => Ok(greatest(arch, Measure::Words)),
        What::Chain => {
            let longest = chain(alloc, arch)?;
            Ok(longest)
        }
        What::Memory => memory(alloc, arch),
        What::Code => code(alloc, arch),
    }
}

/// Whether a system in which no source reaches a cycle has no more of anything than it may have.
pub(crate) fn check_sizes(alloc: Global, arch: &Arch) -> Result<(), Fault>
    requires { IsAcyclic arch.now }
    ensures within { OnOk result (AreWithin arch.now limits) }
    ensures fault { IfErr result (λ f. (f ≡ Fault.NoMemory) ⊎ IsSizeFault arch.now f) }
{
    for what in &ORDER {
        let limit = limit(*what);
        let count = count(alloc, arch, *what)?;
        if count > limit {
            return Err(Fault::Size {
                what: *what,
                count,
                limit,
            });
        }
    }
    Ok(())
}
