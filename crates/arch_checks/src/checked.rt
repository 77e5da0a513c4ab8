//! A system that was accepted.
ghost use Rattle.std.specs.Prelude.{◌≡◌, ◌<◌, ℕ, List, length, map, IfOk};
ghost use Rattle.tower_syntax.specs.Weights.{cost, memory, code, source_numbers};
ghost use Rattle.arch_checks.specs.Firsts.{AreWithin};
ghost use Rattle.arch_checks.specs.Limits.{limits};
ghost use Rattle.arch_checks.specs.Offences.{IsAccepted};

use channel_graph::{code, memory};
use sqlite_items::Items;
use std::alloc::Global;
use std::marker::Model;
use tower_syntax::Arch;
use tower_types::NoMemory;

/// The system of a text in which there is no fault, with its weights. Contracts see the system.
#[derive(Drop)]
pub struct Checked {
    arch: Arch,
    /// The cost weight of each source, in instructions.
    costs: Items<u64>,
    memory: u64,
    code: u64,
}

impl Model for Checked {
    ghost use Rattle.tower_syntax.specs.Arch.{Arch};
    ghost use Rattle.tower_syntax.specs.Codes.{coded_arch};

    ghost Value = { Arch };

    ghost coded = { coded_arch };

    ghost use Rattle.std.specs.Prelude.{◌≡◌, ℕ, List, map};
    ghost use Rattle.tower_syntax.specs.Weights.{cost, source_numbers};
    ghost use Rattle.tower_syntax.specs.Weights as weights;
    ghost use Rattle.arch_checks.specs.Offences.{IsAccepted};

    ghost view = { λ c. c.arch };

    ghost invariant = { λ c. ((bs : List ℕ) × IsAccepted bs c.arch)
        × (c.costs ≡ map (cost c.arch) (source_numbers c.arch))
        × (c.memory ≡ weights.memory c.arch)
        × (c.code ≡ weights.code c.arch) };
}

impl Checked {
    /// The system with its weights.
    pub(crate) fn new(alloc: Global, arch: Arch, costs: Items<u64>) -> Result<Checked, NoMemory>
        requires accepted { (bs : List ℕ) × IsAccepted bs arch }
        requires costs { costs ≡ map (cost arch) (source_numbers arch) }
        requires within { AreWithin arch limits }
        ensures { IfOk result (λ checked. checked ≡ arch) }
    {
        let memory = memory(alloc, &arch)?;
        let code = code(alloc, &arch)?;
        Ok(Checked {
            arch,
            costs,
            memory,
            code,
        })
    }

    /// The system.
    pub fn arch(&self) -> &Arch
        ensures value { result.now ≡ self.now }
        ensures accepted { (bs : List ℕ) × IsAccepted bs self.now }
    {
        &self.arch
    }

    /// The cost weight of source `source`, in instructions.
    pub fn cost(&self, source: u32) -> u64
        requires { source < length self.now.sources }
        ensures { result ≡ cost self.now source }
    {
        self.costs.as_slice()[source as usize]
    }

    /// The memory weight, in words.
    pub fn memory(&self) -> u64
        ensures { result ≡ memory self.now }
    {
        self.memory
    }

    /// The code weight, in instructions.
    pub fn code(&self) -> u64
        ensures { result ≡ code self.now }
    {
        self.code
    }
}
