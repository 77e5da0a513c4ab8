//! The law of ceilings: under the ceiling rule the task whose turn it is never waits for a lock.
#![tactic(auto)]

ghost use Rattle.tower_syntax.specs.WellNumbered.{IsWellNumbered};
ghost use Rattle.lock_reduction.specs.Reduce.{Sound};
ghost use Rattle.lock_reduction.specs.Consequences.{InEachRun};
ghost use Rattle.ceiling_law.specs.Ceilings.{NamesTheSame, NamesTheReady, NeverWaits, OneIsRaisedByRule};

use task_code::Program;
use tower_syntax::Arch;

/// In each state that a sound program reaches the ceiling rule over all tasks that are not idle names, for every
/// number, the task that it names of the ready ones. It does no work: the contract is the law.
pub fn ceiling_law(program: &Program, arch: &Arch)
    requires numbered { IsWellNumbered arch.now }
    requires sound { Sound arch.now program.now }
    ensures same { InEachRun arch.now program.now (NamesTheSame arch.now program.now) }
    ensures ready { InEachRun arch.now program.now (NamesTheReady arch.now program.now) }
{}

/// So by the ceiling rule no run has an instruction before which the rule names a waiting task.
pub fn no_named_task_waits(program: &Program, arch: &Arch)
    requires numbered { IsWellNumbered arch.now }
    requires sound { Sound arch.now program.now }
    ensures { NeverWaits arch.now program.now }
{}

/// In each run by the ceiling rule at most one task that is less urgent than a number holds a monitor whose ceiling is
/// that number or more.
pub fn one_task_is_raised(program: &Program, arch: &Arch)
    requires numbered { IsWellNumbered arch.now }
    requires sound { Sound arch.now program.now }
    ensures { OneIsRaisedByRule arch.now program.now }
{}
