//! The rule of several cores.
ghost use Rattle.std.specs.Prelude.{◌≡◌, ◌==◌, ℕ, ◌<◌, ◌≤◌, ◌^◌, ◌%◌, true, length, slice_get, slice_index, IfSome, None};
ghost use Rattle.task_code.specs.Policy.{places_from};
ghost use Rattle.task_code.specs.Cores.{by_urgency, cores_names};
ghost use Rattle.task_policies.specs.Rules.{CoresRule, core_count, busy_cores, core_of, level_below, greater_of};
ghost use Rattle.task_policies.specs.Lawful.{some_cores_are_lawful};

use crate::among::{Test, at_position, count, number_of};
use std::marker::Model;
use task_machine::Policy;

/// The most urgent ready tasks are on the cores, one on each, and a number names a core.
#[derive(Drop)]
pub struct Cores {
    priorities: Vec<u8>,
    cores: u32,
}

impl Model for Cores {
    ghost Value = { CoresRule };

    ghost view = { λ c. record { priorities = c.priorities.items; cores = c.cores } };

    ghost invariant = { λ c. (length c.priorities.items < 2 ^ 32) × (1 ≤ c.cores) };
}

/// Every task.
#[derive(Clone, Copy)]
struct Every;

impl Test for Every {
    ghost passes = { λ e x. true };

    fn passes(&self, _x: usize) -> bool {
        true
    }
}

/// The tasks of a priority.
#[derive(Clone, Copy)]
struct OfPriority<'a> {
    priorities: &'a [u8],
    priority: u8,
}

impl Test for OfPriority<'_> {
    ghost passes = { λ t x. slice_index t.priorities.now x == t.priority };

    fn passes(&self, x: usize) -> bool {
        number_of(self.priorities, x) == self.priority
    }
}

/// The greater of a number, if there is one, and another.
fn greater(level: Option<u8>, priority: u8) -> Option<u8>
    ensures { result ≡ greater_of level priority }
{
    match level {
        Some(level) => Some(level.max(priority)),
        None => Some(priority),
    }
}

/// The greatest priority below `limit` of a given task.
fn level_below(priorities: &[u8], given: &[bool], limit: u16) -> Option<u8>
    ensures { result ≡ level_below priorities.now limit (places_from 0 given.now) }
{
    let mut level = None;
    for x in 0..given.len() {
        let priority = number_of(priorities, x);
        if given[x] && (priority as u16) < limit {
            level = greater(level, priority);
        }
    }
    level
}

/// The given task at this position of the order of falling priority.
fn at_rank(priorities: &[u8], given: &[bool], position: usize) -> Option<usize>
    ensures task { result ≡ slice_get (by_urgency priorities.now (places_from 0 given.now)) position }
    ensures below { IfSome result (λ x. x < length given.now) }
{
    let mut left = position;
    let mut limit: u16 = 256;
    'levels: loop {
        let Some(priority) = level_below(priorities, given, limit) else {
            return None;
        };
        let test = OfPriority {
            priorities,
            priority,
        };
        let count = count(given, &test);
        if left < count {
            return at_position(given, &test, left);
        }
        left -= count;
        limit = priority as u16;
    }
}

impl Cores {
    /// The rule for tasks of these priorities on so many cores, at least one.
    pub fn new(priorities: Vec<u8>, cores: u32) -> Cores
        requires few { length priorities.items < 2 ^ 32 }
        requires some { 1 ≤ cores }
        ensures priorities { result.priorities ≡ priorities.items }
        ensures cores { result.cores ≡ cores }
    {
        Cores { priorities, cores }
    }

    /// How many cores there are.
    pub fn count(&self) -> u32
        ensures { result ≡ core_count self.now }
    {
        self.cores
    }

    /// How many tasks are on the cores.
    fn busy(&self, ready: &[bool]) -> u32
        ensures { result ≡ busy_cores self.now ready.now }
    {
        count(ready, &Every).min(self.cores as usize) as u32
    }

    /// The core of the task that is named for `k`, where a task is ready: `k` modulo the number of tasks on the cores.
    pub fn core(&self, ready: &[bool], k: u32) -> u32
        ensures core { 0 < busy_cores self.now ready.now → result ≡ core_of self.now ready.now k }
        ensures none { busy_cores self.now ready.now ≡ 0 → result ≡ 0 }
        ensures below { result < core_count self.now }
    {
        let busy = self.busy(ready);
        if busy == 0 { 0 } else { k % busy }
    }

    /// The number of the `go` after so many instructions, where no choice is left: the cores take turns.
    pub fn turn(&self, count: u64) -> u32
        ensures { result ≡ count % core_count self.now }
    {
        let cores = self.cores as u64;
        (count % cores) as u32
    }
}

impl Policy for Cores {
    ghost tasks = { λ c. length c.priorities };

    ghost monitors = { λ c. None };

    ghost names = { λ c. cores_names c.priorities (core_count c) };

    fn pick(&self, ready: &[bool], _holds: &[Option<u32>], k: u32) -> Option<u32> {
        prove!(ready.len() == self.priorities.len());
        let core = self.core(ready, k);
        match at_rank(self.priorities.as_slice(), ready, core as usize) {
            Some(x) => Some(x as u32),
            None => None,
        }
    }

    ghost lawful = { λ c ready holds k h g m. some_cores_are_lawful c.priorities c.cores ready holds k };
}
