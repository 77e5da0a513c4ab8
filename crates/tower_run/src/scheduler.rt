//! The rule by which a run goes.
ghost use Rattle.std.specs.Prelude.{◌≡◌, ℕ, ◌<◌, ◌^◌, length, List, Bool, Option, IfSome, Some, None};
ghost use Rattle.task_code.specs.Cores.{on_cores};
ghost use Rattle.tower_report.specs.RunText.{IsRule};
ghost use Rattle.tower_run.specs.Scheduler.{priorities_of, monitors_of, names_by, otherwise_by, cores_by, core_by, scheduler_of, counts_waits, scheduler_is_lawful, HasReady};

use task_machine::{Fixed, Policy};
use task_policies::{Ceiling, Cores};
use tower_report::Rule;

/// A rule for turns, made for a program.
#[derive(Drop)]
pub enum Scheduler {
    Fixed(Fixed),
    Ceiling(Ceiling),
    Cores(Cores),
}

impl Scheduler {
    /// The rule that was given, for tasks of these priorities and monitors of these ceilings; that of fixed priorities
    /// where none was.
    pub fn new(rule: Option<Rule>, priorities: Vec<u8>, ceilings: Vec<u8>) -> Scheduler
        requires few { length priorities.items < 2 ^ 32 }
        requires rule { IfSome rule IsRule }
        ensures { result ≡ scheduler_of rule priorities.items ceilings.items }
    {
        match rule {
            None => Scheduler::Fixed(Fixed::new(priorities)),
            Some(Rule::Fixed) => Scheduler::Fixed(Fixed::new(priorities)),
            Some(Rule::Ceiling) => Scheduler::Ceiling(Ceiling::new(priorities, ceilings)),
            Some(Rule::Cores(cores)) => Scheduler::Cores(Cores::new(priorities, cores)),
        }
    }

    /// Of the given tasks, ready or not, the one that the rule names for `k`. Both slices have a place for each task.
    pub fn name_among(&self, given: &[bool], holds: &[Option<u32>], k: u32) -> Option<u32>
        requires given { length given.now ≡ length (priorities_of self.now) }
        requires holds { length holds.now ≡ length (priorities_of self.now) }
        ensures { result ≡ names_by self.now given.now holds.now k }
    {
        match self {
            Scheduler::Fixed(rule) => rule.pick(given, holds, k),
            Scheduler::Ceiling(rule) => rule.name_among(given, holds, k),
            Scheduler::Cores(rule) => rule.pick(given, holds, k),
        }
    }

    /// The number of the `go` after so many instructions, where no choice is left.
    pub fn otherwise(&self, count: u64) -> u32
        ensures { result ≡ otherwise_by self.now count }
    {
        match self {
            Scheduler::Fixed(_) => 0,
            Scheduler::Ceiling(_) => 0,
            Scheduler::Cores(rule) => rule.turn(count),
        }
    }

    /// How many cores the rule tells apart.
    pub fn cores(&self) -> u32
        ensures { result ≡ cores_by self.now }
    {
        match self {
            Scheduler::Fixed(_) => 0,
            Scheduler::Ceiling(_) => 0,
            Scheduler::Cores(rule) => rule.count(),
        }
    }

    /// The core of the task that is named for `k`, where the rule has cores and a task is ready.
    pub fn core(&self, ready: &[bool], k: u32) -> Option<u32>
        ensures core { HasReady ready.now → result ≡ core_by self.now ready.now k }
        ensures below { IfSome result (λ i. i < cores_by self.now) }
    {
        match self {
            Scheduler::Fixed(_) => None,
            Scheduler::Ceiling(_) => None,
            Scheduler::Cores(rule) => Some(rule.core(ready, k)),
        }
    }
}

impl Policy for Scheduler {
    ghost tasks = { λ s. length (priorities_of s) };

    ghost monitors = { monitors_of };

    ghost names = { names_by };

    fn pick(&self, ready: &[bool], holds: &[Option<u32>], k: u32) -> Option<u32> {
        self.name_among(ready, holds, k)
    }

    ghost lawful = { λ s ready holds k h g m. scheduler_is_lawful s ready holds k };
}

/// Whether the instructions are counted before which the rule names a waiting task.
pub fn is_counting(rule: Option<Rule>) -> bool
    ensures { result ≡ counts_waits rule }
{
    match rule {
        None => false,
        Some(Rule::Fixed) => true,
        Some(Rule::Ceiling) => true,
        Some(Rule::Cores(_)) => false,
    }
}
