//! Whether the rule names a waiting task.
ghost use Rattle.std.specs.Prelude.{◌≡◌, ◌<◌, ◌&&◌, length};
ghost use Rattle.task_machine.specs.State.{standing_in};
ghost use Rattle.task_code.specs.Tally.{is_waiting};
ghost use Rattle.tower_run.specs.Scheduler.{priorities_of};
ghost use Rattle.tower_run.specs.Waiting.{busy_in, is_named_waiting};

use crate::going::Job;
use task_machine::{Machine, Standing};

/// Notes which of so many tasks are not idle.
fn note_busy(machine: &Machine, tasks: u32, busy: &mut Vec<bool>)
    requires tasks { tasks ≡ length machine.now.program.tasks }
    requires busy { length busy.old.items ≡ length machine.now.program.tasks }
    ensures { busy.new.items ≡ busy_in machine.now }
{
    for x in 0..tasks {
        let standing = machine.standing(x);
        busy[x as usize] = !standing.is_idle();
    }
}

/// Does a task wait for a lock.
fn waits_for_lock(machine: &Machine, task: u32) -> bool
    requires { task < length machine.now.program.tasks }
    ensures { result ≡ is_waiting (standing_in machine.now task) }
{
    match machine.standing(task) {
        Standing::Waiting(_) => true,
        Standing::Ready => false,
        Standing::Idle => false,
        Standing::Stuck => false,
    }
}

/// Whether it is counted, and the rule, over all tasks that are not idle, names a waiting task for the number `k`.
/// `busy` has a place for each task.
pub fn is_wait(job: &Job, machine: &Machine, busy: &mut Vec<bool>, k: u32) -> bool
    requires rule { length (priorities_of job.now.rule) ≡ length machine.now.program.tasks }
    requires tasks { job.now.tasks ≡ length machine.now.program.tasks }
    requires busy { length busy.old.items ≡ length machine.now.program.tasks }
    ensures waits { result ≡ (job.now.counts_waits && is_named_waiting job.now.rule machine.now k) }
    ensures busy { length busy.new.items ≡ length busy.old.items }
{
    if !job.counts_waits {
        return false;
    }
    note_busy(machine, job.tasks, busy);
    match job.rule.name_among(busy.as_slice(), machine.holds(), k) {
        Some(x) => waits_for_lock(machine, x),
        None => false,
    }
}
