ghost use Rattle.std.specs.Prelude.{◌≡◌, ℕ, ◌<◌, ◌≤◌, ◌^◌, List, map, Bool, Option, None, IfSome, length, slice_index, slice_get};
ghost use Rattle.task_code.specs.Policy.{fixed_names, any_names, at_turn, most_urgent, greatest, places_from};
ghost use Rattle.task_machine.specs.Policy.{AreMonitors, IsLawful, of_priority};
ghost use Rattle.task_machine.specs.Lawful.{fixed_is_lawful, any_is_lawful};

use std::marker::Model;

/// The greatest priority of a ready task, and 0 where none is ready.
fn top_priority(priorities: &[u8], ready: &[bool]) -> u8
    ensures { result ≡ greatest (map (slice_index priorities.now) (places_from 0 ready.now)) }
{
    let mut top = 0;
    for x in 0..ready.len() {
        if ready[x] {
            top = top.max(priority(priorities, x));
        }
    }
    top
}

/// The priority of a task; 0 where it has none.
fn priority(priorities: &[u8], x: usize) -> u8
    ensures { result ≡ slice_index priorities.now x }
{
    if x < priorities.len() {
        priorities[x]
    } else {
        0
    }
}

/// How many ready tasks have a priority.
fn count_of_priority(priorities: &[u8], ready: &[bool], top: u8) -> usize
    ensures { result ≡ length (of_priority priorities.now top (places_from 0 ready.now)) }
{
    let mut count = 0;
    for x in 0..ready.len() {
        if ready[x] && priority(priorities, x) == top {
            count += 1;
        }
    }
    count
}

/// The ready task of a priority that so many others of it come before.
fn at_position(priorities: &[u8], ready: &[bool], top: u8, position: usize) -> Option<usize>
    ensures task { result ≡ slice_get (of_priority priorities.now top (places_from 0 ready.now)) position }
    ensures below { IfSome result (λ x. x < length ready.now) }
{
    let mut left = position;
    for x in 0..ready.len() {
        if ready[x] && priority(priorities, x) == top {
            if left == 0 {
                return Some(x);
            }
            left -= 1;
        }
    }
    None
}

/// The place that `k` names among the ready tasks of a priority: `k` modulo their number.
fn place(priorities: &[u8], ready: &[bool], top: u8, k: u32) -> usize
    ensures { at_turn k (of_priority priorities.now top (places_from 0 ready.now)) ≡ slice_get (of_priority priorities.now top (places_from 0 ready.now)) result }
{
    if k == 0 {
        return 0;
    }
    let count = count_of_priority(priorities, ready, top);
    if count == 0 { 0 } else { k as usize % count }
}

/// Of the ready tasks of the greatest priority the one at position `k` modulo their number.
fn most_urgent(priorities: &[u8], ready: &[bool], k: u32) -> Option<u32>
    requires { length ready.now < 2 ^ 32 }
    ensures { result ≡ at_turn k (most_urgent priorities.now (places_from 0 ready.now)) }
{
    let top = top_priority(priorities, ready);
    match at_position(priorities, ready, top, place(priorities, ready, top, k)) {
        Some(x) => Some(x as u32),
        None => None,
    }
}

/// A rule for turns. It was made for a number of tasks, and may have been made for a number of monitors.
pub trait Policy {
    ghost tasks: { Self → ℕ };

    ghost monitors: { Self → Option ℕ };

    ghost names: { Self → List Bool → List (Option ℕ) → ℕ → Option ℕ };

    /// The task that goes next. Both slices have a place for each task: whether it is ready, and the monitor whose
    /// lock it holds.
    fn pick(&self, ready: &[bool], holds: &[Option<u32>], k: u32) -> Option<u32>
        requires ready { length ready.now ≡ tasks self.now }
        requires holds { length holds.now ≡ tasks self.now }
        requires monitors { AreMonitors (monitors self.now) holds.now }
        ensures { result ≡ names self.now ready.now holds.now k };

    ghost lawful: { (policy : Self) → (ready : List Bool) → (holds : List (Option ℕ)) → (k : ℕ) → length ready ≡ tasks policy → length holds ≡ tasks policy → AreMonitors (monitors policy) holds → IsLawful ready (names policy ready holds k) };
}

/// Of the ready tasks of the greatest priority, in task order, the one at position `k` modulo their number.
#[derive(Drop)]
pub struct Fixed {
    priorities: Vec<u8>,
}

impl Model for Fixed {
    ghost Value = { List ℕ };

    ghost view = { λ f. f.priorities.items };

    ghost invariant = { λ f. length f.priorities.items < 2 ^ 32 };
}

impl Fixed {
    /// The rule for tasks of these priorities.
    pub fn new(priorities: Vec<u8>) -> Fixed
        requires { length priorities.items < 2 ^ 32 }
        ensures { result ≡ priorities.items }
    {
        Fixed { priorities }
    }
}

impl Policy for Fixed {
    ghost tasks = { length };

    ghost monitors = { λ f. None };

    ghost names = { fixed_names };

    fn pick(&self, ready: &[bool], _holds: &[Option<u32>], k: u32) -> Option<u32> {
        most_urgent(self.priorities.as_slice(), ready, k)
    }

    ghost lawful = { λ f ready holds k h g m. fixed_is_lawful f ready holds k };
}

/// Of all ready tasks, in task order, the one at position `k` modulo their number.
#[derive(Clone, Copy, Debug)]
pub struct Any {
    tasks: u32,
}

impl Any {
    /// The rule for so many tasks.
    pub fn new(tasks: u32) -> Any
        ensures { result.tasks ≡ tasks }
    {
        Any { tasks }
    }
}

impl Policy for Any {
    ghost tasks = { λ a. a.tasks };

    ghost monitors = { λ a. None };

    ghost names = { λ a. any_names };

    fn pick(&self, ready: &[bool], _holds: &[Option<u32>], k: u32) -> Option<u32> {
        prove!(ready.len() == self.tasks as usize);
        most_urgent(&[], ready, k)
    }

    ghost lawful = { λ a ready holds k h g m. any_is_lawful ready holds k };
}
