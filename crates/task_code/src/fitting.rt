//! Whether an event record is one for a program. None of it takes memory.

ghost use Rattle.std.specs.Prelude.{◌≡◌, ◌≤◌, ℕ, ◌^◌, ◌-◌, ◌↔◌, min, length, map, All, IsTrue, Some, Option, slice_get};
ghost use Rattle.tower_types.specs.Value.{flat, flat_all, value_depth, depth_of_values};
ghost use Rattle.tower_types.specs.View.{value_of, all_values_of};
ghost use Rattle.tower_syntax.specs.declared.arch.SourceKind.{SourceKind as Kind};
ghost use Rattle.tower_syntax.specs.View.{entry_of, events_of};
ghost use Rattle.task_code.specs.declared.program.Task.{Task as TaskValue};
ghost use Rattle.task_code.specs.Fits.{IsDepth, FitsKind, FitsEntry, Fits};

use crate::{Program, Task};
use tower_syntax::{Entry, Events, SourceKind};
use tower_types::Value;

/// Whether a value is at most so many deep.
#[cycle(depth)]
fn is_at_most_deep(v: &Value, most: u32) -> bool
    ensures { IsTrue result ↔ (value_depth (value_of v.now) ≤ most) }
{
    if most == 0 {
        return false;
    }
    match v {
        Value::Word(_) => true,
        Value::Parts(parts) => are_at_most_deep(parts.as_slice(), most - 1),
    }
}

#[cycle(depth)]
fn are_at_most_deep(vs: &[Value], most: u32) -> bool
    ensures { IsTrue result ↔ (depth_of_values (all_values_of vs.now) ≤ most) }
{
    for v in vs {
        if !is_at_most_deep(v, most) {
            return false;
        }
    }
    true
}

/// How many numbers a value has, or the greatest 64-bit number where it has more.
#[cycle(words)]
fn words_of(v: &Value) -> u64
    ensures { result ≡ min (2 ^ 64 - 1) (length (flat (value_of v.now))) }
{
    match v {
        Value::Word(_) => 1,
        Value::Parts(parts) => words_of_all(parts.as_slice()),
    }
}

#[cycle(words)]
fn words_of_all(vs: &[Value]) -> u64
    ensures { result ≡ min (2 ^ 64 - 1) (length (flat_all (all_values_of vs.now))) }
{
    let mut sum: u64 = 0;
    for v in vs {
        let words = words_of(v);
        sum = sum.saturating_add(words);
    }
    sum
}

fn is_depth(depth: Option<u32>) -> bool
    ensures { IsTrue result ↔ IsDepth depth }
{
    match depth {
        None => true,
        Some(depth) => 1 <= depth && depth <= 64,
    }
}

fn fits_kind(kind: SourceKind, task: &Task, depth: Option<u32>) -> bool
    ensures { IsTrue result ↔ FitsKind kind task.now depth }
{
    match kind {
        SourceKind::Init => task.message == 1 && depth.is_none(),
        SourceKind::Period(_) => task.message == 1 && is_depth(depth),
        SourceKind::Signal => is_depth(depth),
    }
}

/// Whether each source's kind, task and depth fit one another.
fn sources_fit(kinds: &[SourceKind], tasks: &[Task], depths: &[Option<u32>]) -> bool
    requires tasks { length tasks.now ≡ length kinds.now }
    requires depths { length depths.now ≡ length kinds.now }
    ensures { IsTrue result ↔ ((x : ℕ) (k : Kind) (t : TaskValue) (d : Option ℕ) → slice_get kinds.now x ≡ Some k → slice_get tasks.now x ≡ Some t → slice_get depths.now x ≡ Some d → FitsKind k t d) }
{
    for (i, kind) in kinds.iter().enumerate() {
        if !fits_kind(*kind, &tasks[i], depths[i]) {
            return false;
        }
    }
    true
}

fn entry_fits(kinds: &[SourceKind], tasks: &[Task], entry: &Entry) -> bool
    ensures { IsTrue result ↔ FitsEntry kinds.now tasks.now (entry_of entry.now) }
{
    let Entry::Signal(source, v) = entry else {
        return true;
    };
    match (kinds.get(*source as usize), tasks.get(*source as usize)) {
        (Some(SourceKind::Signal), Some(task)) => {
            is_at_most_deep(v, 32) && words_of(v) == u64::from(task.message)
        }
        _ => false,
    }
}

/// Whether the program can run on these events. There are as many tasks, kinds and depths. Each depth is from 1 to
/// 64, and stands at no initialisation. The messages of initialisations and periods have one word. Each signal
/// entry names a signal, and its value has the words of that task's messages and is at most 32 deep.
pub fn fits(program: &Program, events: &Events) -> bool
    ensures { IsTrue result ↔ Fits program.now (events_of events.now) }
{
    let tasks = program.tasks();
    let kinds = events.kinds.as_slice();
    let depths = events.depths.as_slice();
    if tasks.len() != kinds.len() || depths.len() != kinds.len() {
        return false;
    }
    if !sources_fit(kinds, tasks, depths) {
        return false;
    }
    entries_fit(kinds, tasks, events.entries.as_slice())
}

fn entries_fit(kinds: &[SourceKind], tasks: &[Task], entries: &[Entry]) -> bool
    ensures { IsTrue result ↔ All (FitsEntry kinds.now tasks.now) (map entry_of entries.now) }
{
    for entry in entries {
        if !entry_fits(kinds, tasks, entry) {
            return false;
        }
    }
    true
}
