//! A rule that lets one task go on.
ghost use Rattle.std.specs.Prelude.{◌≡◌, List, Bool, Option, None, true, Some, slice_get};
ghost use Rattle.tower_run.specs.Only.{only_names, only_is_lawful};

use task_machine::{Any, Policy};

/// Names one task where it is ready, and otherwise the first ready task.
#[derive(Clone, Copy, Debug)]
pub struct Only {
    task: u32,
    tasks: u32,
}

impl Only {
    /// The rule that names `task` of so many tasks.
    pub fn new(task: u32, tasks: u32) -> Only
        ensures { result ≡ record { task = task; tasks = tasks } }
    {
        Only { task, tasks }
    }
}

impl Policy for Only {
    ghost tasks = { λ o. o.tasks };

    ghost monitors = { λ o. None };

    ghost names = { λ o. only_names o.task };

    fn pick(&self, ready: &[bool], holds: &[Option<u32>], k: u32) -> Option<u32> {
        let task = self.task as usize;
        if task < ready.len() && ready[task] {
            return Some(self.task);
        }
        Any::new(self.tasks).pick(ready, holds, k)
    }

    ghost lawful = { λ o ready holds k h g m. only_is_lawful o.task ready holds k };
}
