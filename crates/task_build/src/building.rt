//! The program of a system that was accepted.

ghost use Rattle.std.specs.Prelude.{◌≡◌, ◌≤◌, IfOk};
ghost use Rattle.tower_syntax.specs.Weights.{memory, code};
ghost use Rattle.tower_syntax.specs.WellNumbered.{IsWellNumbered};
ghost use Rattle.task_code.specs.Rules.{all_words, all_instructions};
ghost use Rattle.thread_split.specs.Plans.{plans_of};
ghost use Rattle.emit_code.specs.Heard.{AreHeard};
ghost use Rattle.lock_reduction.specs.Reduce.{Sound};
ghost use Rattle.task_build.specs.CodeOf.{code_of, tasks_from};

use crate::sizes::{monitors, outputs};
use crate::tasks::task_of;
use arch_checks::Checked;
use emit_code::channel_subscribers;
use sqlite_items::Items;
use std::alloc::Global;
use stmt_code::{Measured, StartTable};
use task_code::{Program, Task};
use thread_split::{TaskPlan, split};
use tower_syntax::Listener;
use tower_types::NoMemory;

/// The task of each plan.
fn tasks(
    alloc: Global,
    arch: &Measured<'_>,
    heard: &[Items<Listener>],
    plans: &[TaskPlan],
) -> Result<Items<Task>, NoMemory>
    requires heard { AreHeard arch.now heard.now }
    requires numbered { IsWellNumbered arch.now }
    requires plans { plans.now ≡ plans_of arch.now }
    ensures { IfOk result (λ tasks. tasks ≡ tasks_from arch.now 0 arch.now.sources) }
{
    let mut tasks = Items::new(alloc);
    for plan in plans {
        let task = task_of(alloc, arch, heard, plan)?;
        tasks.push(task)?;
    }
    Ok(tasks)
}

/// The program of an accepted system: one task for each source in file order. It is sound, and no greater than the
/// system's weights say.
pub fn build(alloc: Global, arch: &Checked) -> Result<Program, NoMemory>
    ensures program { IfOk result (λ p. p ≡ code_of arch.now) }
    ensures sound { IfOk result (Sound arch.now) }
    ensures words { IfOk result (λ p. all_words p ≤ memory arch.now) }
    ensures instructions { IfOk result (λ p. all_instructions p ≤ code arch.now) }
{
    let system = arch.arch();
    let monitors = monitors(alloc, system)?;
    let outputs = outputs(alloc, system)?;
    let heard = channel_subscribers(alloc, system)?;
    let plans = split(alloc, arch)?;
    let table = StartTable::new(alloc, arch)?;
    let measured = Measured::new(arch, &table);
    let tasks = tasks(alloc, &measured, heard.as_slice(), plans.as_slice())?;
    Ok(Program::new(monitors, outputs, tasks))
}
