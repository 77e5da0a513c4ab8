//! The ceilings of a system's monitors.
ghost use Rattle.std.specs.Prelude.{◌≡◌, ◌<◌, ℕ, All, IfOk, fold, length};
ghost use Rattle.task_code.specs.Ceiling.{ceilings};
ghost use Rattle.tower_run.specs.Ceilings.{raised_at, raised_by, HasMonitorsBelow, ceilings_given};

use arch_checks::Checked;
use std::alloc::Global;
use thread_split::{TaskPlan, split};
use tower_report::Rule;
use tower_types::NoMemory;

/// Raises the ceiling of a monitor to a priority, where that is greater.
fn raise(ceilings: &mut Vec<u8>, monitor: u32, priority: u8)
    requires { monitor < length ceilings.old.items }
    ensures { ceilings.new.items ≡ raised_at priority ceilings.old.items monitor }
{
    let m = monitor as usize;
    ceilings[m] = ceilings[m].max(priority);
}

/// Raises the ceilings of some monitors.
fn raise_all(ceilings: &mut Vec<u8>, monitors: &[u32], priority: u8)
    requires { All (λ m. m < length ceilings.old.items) monitors.now }
    ensures { ceilings.new.items ≡ fold (raised_at priority) ceilings.old.items monitors.now }
{
    for m in monitors {
        raise(ceilings, *m, priority);
    }
}

/// Raises the ceiling of each monitor of each plan to the plan's priority.
fn raise_by_plans(ceilings: &mut Vec<u8>, plans: &[TaskPlan])
    requires { All (HasMonitorsBelow (length ceilings.old.items)) plans.now }
    ensures { ceilings.new.items ≡ fold raised_by ceilings.old.items plans.now }
{
    for plan in plans {
        raise_all(ceilings, plan.monitors.as_slice(), plan.priority);
    }
}

/// The ceilings of the monitors of a system.
fn ceilings_of(alloc: Global, arch: &Checked) -> Result<Vec<u8>, NoMemory>
    ensures { IfOk result (λ found. found.items ≡ ceilings arch.now) }
{
    let plans = split(alloc, arch)?;
    let monitors = arch.arch().monitors().len();
    let mut found = vec![in alloc; 0; monitors]?;
    raise_by_plans(&mut found, plans.as_slice());
    Ok(found)
}

/// The ceilings of the monitors of a system, where the rule asks for them.
pub fn ceilings_for(alloc: Global, arch: &Checked, given: Option<Rule>) -> Result<Vec<u8>, NoMemory>
    ensures { IfOk result (λ found. found.items ≡ ceilings_given given arch.now) }
{
    match given {
        Some(Rule::Ceiling) => ceilings_of(alloc, arch),
        Some(Rule::Fixed) => Ok(Vec::new(alloc)),
        Some(Rule::Cores(_)) => Ok(Vec::new(alloc)),
        None => Ok(Vec::new(alloc)),
    }
}
