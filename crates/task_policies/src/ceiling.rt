//! The ceiling rule.
ghost use Rattle.std.specs.Prelude.{◌≡◌, ◌==◌, ◌&&◌, ◌||◌, not, ℕ, ◌<◌, ◌^◌, List, map, length, slice_index, slice_index_or, Some, None};
ghost use Rattle.task_code.specs.Policy.{greatest, places_from};
ghost use Rattle.task_code.specs.Ceiling.{raised, active_priority, is_holder, ceiling_names};
ghost use Rattle.task_policies.specs.Rules.{CeilingRule, active_in, is_wanted};
ghost use Rattle.task_policies.specs.Lawful.{ceiling_is_lawful};

use crate::among::{Test, count, number_of, pick_among};
use std::marker::Model;
use task_machine::Policy;

/// A task that holds a monitor is as urgent as the monitor's ceiling, where that is greater than its priority. Of the
/// tasks that are then the most urgent the holders go first.
#[derive(Drop)]
pub struct Ceiling {
    priorities: Vec<u8>,
    ceilings: Vec<u8>,
}

impl Model for Ceiling {
    ghost Value = { CeilingRule };

    ghost view = { λ c. record { priorities = c.priorities.items; ceilings = c.ceilings.items } };

    ghost invariant = { λ c. length c.priorities.items < 2 ^ 32 };
}

impl Ceiling {
    /// The rule for tasks of these priorities and monitors of these ceilings.
    pub fn new(priorities: Vec<u8>, ceilings: Vec<u8>) -> Ceiling
        requires { length priorities.items < 2 ^ 32 }
        ensures priorities { result.priorities ≡ priorities.items }
        ensures ceilings { result.ceilings ≡ ceilings.items }
    {
        Ceiling {
            priorities,
            ceilings,
        }
    }

    /// The active priority of task `x`: its priority, or the ceiling of the monitor that it holds where that is
    /// greater.
    fn active_priority(&self, holds: &[Option<u32>], x: usize) -> u8
        ensures { result ≡ active_in self.now holds.now x }
    {
        let priority = number_of(self.priorities.as_slice(), x);
        match held(holds, x) {
            Some(m) => priority.max(number_of(self.ceilings.as_slice(), m as usize)),
            None => priority,
        }
    }

    /// The greatest active priority of a given task; 0 where none is given.
    fn top(&self, given: &[bool], holds: &[Option<u32>]) -> u8
        ensures { result ≡ greatest (map (active_in self.now holds.now) (places_from 0 given.now)) }
    {
        let mut top = 0;
        for x in 0..given.len() {
            if given[x] {
                top = top.max(self.active_priority(holds, x));
            }
        }
        top
    }

    /// Of the given tasks, ready or not, the one that the rule names for `k`. Both slices have a place for each task:
    /// whether it is given, and the monitor that it holds.
    pub fn name_among(&self, given: &[bool], holds: &[Option<u32>], k: u32) -> Option<u32>
        requires { length given.now ≡ length self.now.priorities }
        ensures { result ≡ ceiling_names self.now.priorities self.now.ceilings given.now holds.now k }
    {
        prove!(given.len() == self.priorities.len());
        let holders = Wanted {
            rule: self,
            holds,
            active: self.top(given, holds),
            only_holders: true,
        };
        let only_holders = count(given, &holders) > 0;
        let wanted = Wanted {
            only_holders,
            ..holders
        };
        pick_among(given, &wanted, k)
    }
}

/// The monitor that task `x` holds.
fn held(holds: &[Option<u32>], x: usize) -> Option<u32>
    ensures { result ≡ slice_index_or holds.now x None }
{
    if x < holds.len() { holds[x] } else { None }
}

/// The tasks of an active priority, or only the holders among them.
#[derive(Clone, Copy)]
struct Wanted<'a> {
    rule: &'a Ceiling,
    holds: &'a [Option<u32>],
    active: u8,
    only_holders: bool,
}

impl Test for Wanted<'_> {
    ghost passes = { λ w. is_wanted w.rule.now w.holds.now w.active w.only_holders };

    fn passes(&self, x: usize) -> bool {
        self.rule.active_priority(self.holds, x) == self.active
            && (!self.only_holders || held(self.holds, x).is_some())
    }
}

impl Policy for Ceiling {
    ghost tasks = { λ c. length c.priorities };

    ghost monitors = { λ c. Some (length c.ceilings) };

    ghost names = { λ c. ceiling_names c.priorities c.ceilings };

    fn pick(&self, ready: &[bool], holds: &[Option<u32>], k: u32) -> Option<u32> {
        self.name_among(ready, holds, k)
    }

    ghost lawful = { λ c ready holds k h g m. ceiling_is_lawful c.priorities c.ceilings ready holds k };
}
