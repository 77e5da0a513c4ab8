//! The core of an instruction, and the instructions on each core.
ghost use Rattle.std.specs.Prelude.{◌≡◌, ◌+◌, ◌<◌, ◌^◌, length, slice_index, IfSome};
ghost use Rattle.task_machine.specs.State.{ready};
ghost use Rattle.tower_run.specs.Scheduler.{cores_by, core_by, HasReady};
ghost use Rattle.tower_run.specs.Counted.{counted_on};

use crate::going::Job;
use task_machine::Machine;

/// Notes which of so many tasks are ready.
fn note_ready(machine: &Machine, tasks: u32, flags: &mut Vec<bool>)
    requires tasks { tasks ≡ length machine.now.program.tasks }
    requires flags { length flags.old.items ≡ length machine.now.program.tasks }
    ensures { flags.new.items ≡ ready machine.now }
{
    for x in 0..tasks {
        let standing = machine.standing(x);
        flags[x as usize] = standing.is_ready();
    }
}

/// The core of the task that the rule names for `k`, where it has cores and a task is ready. `busy` has a place for
/// each task.
pub fn core_of(job: &Job, machine: &Machine, busy: &mut Vec<bool>, k: u32) -> Option<u32>
    requires tasks { job.now.tasks ≡ length machine.now.program.tasks }
    requires busy { length busy.old.items ≡ length machine.now.program.tasks }
    ensures core { HasReady (ready machine.now) → result ≡ core_by job.now.rule (ready machine.now) k }
    ensures below { IfSome result (λ i. i < cores_by job.now.rule) }
    ensures busy { length busy.new.items ≡ length busy.old.items }
{
    if job.rule.cores() == 0 {
        return None;
    }
    note_ready(machine, job.tasks, busy);
    job.rule.core(busy.as_slice(), k)
}

/// Counts an instruction on its core, where it has one.
pub fn count_on(counts: &mut Vec<u64>, core: Option<u32>)
    requires { IfSome core (λ i. (i < length counts.old.items) × (slice_index counts.old.items i + 1 < 2 ^ 64)) }
    ensures { counts.new.items ≡ counted_on counts.old.items core }
{
    if let Some(i) = core {
        counts[i as usize] += 1;
    }
}
