//! One plan for each source.

ghost use Rattle.std.specs.Prelude.{◌≡◌, ◌<◌, ◌≤◌, ◌^◌, [], ℕ, length, filter, map, false, slice_index_or, All, IfOk};
ghost use Rattle.tower_syntax.specs.Graph.{numbers_before};
ghost use Rattle.tower_syntax.specs.WellNumbered.{IsWellNumbered};
ghost use Rattle.thread_split.specs.Plans.{monitors_of, plan_of, plans_of, AreWorkedOn};

use arch_checks::Checked;
use channel_graph::reached;
use sqlite_items::Items;
use std::alloc::Global;
use tower_syntax::Arch;
use tower_types::NoMemory;

/// What the task of a source has to do: the handlers that its messages reach, and the monitors that these work on. Both
/// are numbers, ascending.
#[derive(Debug, Drop)]
pub struct TaskPlan {
    pub source: u32,
    pub priority: u8,
    pub handlers: Items<u32>,
    pub monitors: Items<u32>,
}

/// For each monitor, whether one of these handlers works on it.
fn worked_on(alloc: Global, arch: &Arch, handlers: &[u32]) -> Result<Vec<bool>, NoMemory>
    requires { All (λ h. h < length arch.now.handlers) handlers.now }
    ensures marks { IfOk result (λ marks. AreWorkedOn arch.now handlers.now marks.items) }
    ensures numbered { IsWellNumbered arch.now }
{
    let mut marks = vec![in alloc; false; arch.monitors().len()]?;
    for h in handlers {
        let monitor = arch.handler(*h).monitor;
        marks[monitor as usize] = true;
    }
    Ok(marks)
}

/// The numbers that are marked, ascending.
fn marked_numbers(alloc: Global, marks: &[bool]) -> Result<Items<u32>, NoMemory>
    requires { length marks.now ≤ 2 ^ 32 }
    ensures { IfOk result (λ found. found
        ≡ filter (λ k. slice_index_or marks.now k false) (numbers_before (length marks.now) [])) }
{
    let mut found = Items::new(alloc);
    for (k, mark) in marks.iter().enumerate() {
        if *mark {
            found.push(k as u32)?;
        }
    }
    Ok(found)
}

/// The monitors that these handlers work on, ascending.
fn monitors(alloc: Global, arch: &Arch, handlers: &[u32]) -> Result<Items<u32>, NoMemory>
    requires { All (λ h. h < length arch.now.handlers) handlers.now }
    ensures { IfOk result (λ found. found ≡ monitors_of arch.now handlers.now) }
{
    let marks = worked_on(alloc, arch, handlers)?;
    let found = marked_numbers(alloc, marks.as_slice())?;
    Ok(found)
}

/// The plan for source `s`.
fn plan(alloc: Global, arch: &Arch, s: u32) -> Result<TaskPlan, NoMemory>
    requires source { s < length arch.now.sources }
    requires numbered { IsWellNumbered arch.now }
    ensures { IfOk result (λ plan. plan ≡ plan_of arch.now s) }
{
    let handlers = Items::from_vec(reached(alloc, arch, s)?);
    let monitors = monitors(alloc, arch, handlers.as_slice())?;
    Ok(TaskPlan {
        source: s,
        priority: arch.source(s).priority,
        handlers,
        monitors,
    })
}

/// One plan for each source, in file order.
pub fn split(alloc: Global, arch: &Checked) -> Result<Vec<TaskPlan>, NoMemory>
    ensures { IfOk result (λ plans. plans.items ≡ plans_of arch.now) }
{
    let arch = arch.arch();
    let mut plans = Vec::new(alloc);
    for s in 0..arch.sources().len() {
        let plan = plan(alloc, arch, s as u32)?;
        plans.push(plan)?;
    }
    Ok(plans)
}
