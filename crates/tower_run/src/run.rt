//! The run of a program, with its text.
ghost use Rattle.std.specs.Prelude.{◌≡◌, ◌≤◌, map, cond, IfOk, IfSome, Some, None};
ghost use Rattle.tower_syntax.specs.View.{events_of};
ghost use Rattle.tower_meaning.specs.Atomic.{Fit};
ghost use Rattle.lock_reduction.specs.Reduce.{Sound};
ghost use Rattle.task_code.specs.Fits.{Fits};
ghost use Rattle.tower_report.specs.RunText.{run_text, IsRule};
ghost use Rattle.tower_run.specs.Going.{IsGoing};
ghost use Rattle.tower_run.specs.Ending.{run_stops, RunEnds, ran_of, IsBegun, CanEnd, EndsRun, CarriesOut};

use crate::ceilings::ceilings_for;
use crate::choices::choose;
use crate::ending::{End, put_ending};
use crate::going::{Going, Job, Turn};
use crate::page::Page;
use crate::scheduler::{Scheduler, is_counting};
use arch_checks::Checked;
use std::alloc::Global;
use task_code::{Program, Task};
use task_machine::Machine;
use tower_io::{Put, Sink};
use tower_report::Rule;
use tower_syntax::{Choice, Events};
use tower_types::NoMemory;

/// How a run ended.
#[derive(Clone, Copy, Debug, PartialEq, Eq)]
pub enum Ran {
    /// The whole text was put. The record is at its end, and all tasks are idle.
    Done,
    /// The whole text was put. The limit of instructions was met, and one more was due.
    Stopped,
    /// A put failed, after a first part of the text.
    WriteFault,
    /// There was no memory. Nothing was put.
    NoMemory,
}

/// A run that has not begun, with the rule for turns and the number of tasks.
#[derive(Drop)]
struct Begun {
    rule: Scheduler,
    tasks: u32,
    run: Going,
}

/// The priorities of tasks, in their order.
fn priorities_of(alloc: Global, tasks: &[Task]) -> Result<Vec<u8>, NoMemory>
    ensures { IfOk result (λ ps. ps.items ≡ map (λ t. t.priority) tasks.now) }
{
    let mut priorities = Vec::new(alloc);
    for task in tasks {
        priorities.push(task.priority)?;
    }
    Ok(priorities)
}

/// The start of a run, with all the memory that it takes.
fn begin(
    alloc: Global,
    arch: &Checked,
    program: Program,
    events: Events,
    given: Option<Rule>,
) -> Result<Begun, NoMemory>
    requires fits { Fits program (events_of events) }
    requires given { IfSome given IsRule }
    ensures { IfOk result (λ begun. IsBegun arch.now program events given begun) }
{
    let tasks = program.tasks().len() as u32;
    let priorities = priorities_of(alloc, program.tasks())?;
    let ceilings = ceilings_for(alloc, arch, given)?;
    let rule = Scheduler::new(given, priorities, ceilings);
    let busy = vec![in alloc; false; tasks as usize]?;
    let cores = vec![in alloc; 0; rule.cores() as usize]?;
    let page = Page::new(alloc)?;
    let machine = Machine::new(alloc, program, events)?;
    let run = Going {
        machine,
        page,
        busy,
        count: 0,
        waits: 0,
        cores,
    };
    Ok(Begun { rule, tasks, run })
}

/// The number of the waits, where they are counted.
fn waits_of(job: &Job, run: &Going) -> Option<u64>
    ensures { result ≡ cond job.now.counts_waits (Some run.now.waits) None }
{
    if job.counts_waits {
        Some(run.waits)
    } else {
        None
    }
}

/// The answer of a run whose last put was so.
fn answer(put: Put, stopped: bool) -> Ran
    ensures { result ≡ ran_of put stopped }
{
    match put {
        Put::Done if stopped => Ran::Stopped,
        Put::Done => Ran::Done,
        Put::Failed => Ran::WriteFault,
    }
}

/// Puts the lines at the end of a run, and then what the page holds.
fn end<O: Sink>(job: &Job, run: &mut Going, stopped: bool, out: &mut O) -> Ran
    requires { CanEnd job.now run.old }
    ensures { EndsRun O.written O.faults job.now run.old out.old out.new stopped result }
{
    let end = End {
        count: run.count,
        waits: waits_of(job, run),
        cores: run.cores.as_slice(),
        stopped,
    };
    match put_ending(&mut run.page, out, job.arch, &run.machine, end) {
        Put::Done => answer(run.page.flush(out), stopped),
        Put::Failed => Ran::WriteFault,
    }
}

/// Carries out a run by these choices, with its text.
fn carry_out<O: Sink>(job: &Job, run: &mut Going, choices: &[Choice], out: &mut O) -> Ran
    requires { IsGoing O.written O.faults job.now run.old out.old }
    ensures { CarriesOut O.written O.faults job.now run.old out.old out.new choices.now result }
{
    match choose(job, run, choices, out) {
        Turn::Went => end(job, run, false, out),
        Turn::Passed => end(job, run, false, out),
        Turn::Stopped => end(job, run, true, out),
        Turn::Failed => Ran::WriteFault,
    }
}

/// Runs a program that is sound for a system on an event record that fits it, by these choices, with at most `n`
/// instructions, and puts the text of the run. Where a rule is given, turns are given by it: with `Fixed` and `Ceiling`
/// the text has the line `waits`, and with `Cores` a line `core` for each core. Where none is given turns are those of
/// `Fixed`.
///
/// It takes all its memory before the first put, so `NoMemory` leaves the sink as it was. After `WriteFault` a first
/// part of the text was put. The program and the events are dropped.
pub fn run_program<O: Sink>(
    alloc: Global,
    arch: &Checked,
    program: Program,
    events: Events,
    choices: &[Choice],
    n: u64,
    out: &mut O,
    rule: Option<Rule>,
) -> Ran
    requires sound { Sound arch.now program }
    requires fit { Fit arch.now (events_of events) }
    requires limit { n ≤ 1000000000 }
    requires rule { IfSome rule IsRule }
    ensures ends { RunEnds O.written O.faults out.old out.new (run_text arch.now program (events_of events) choices.now n rule)
        (run_stops arch.now program (events_of events) choices.now n rule) result }
    ensures never_falls { O.faults out.old ≤ O.faults out.new }
{
    let system = arch.arch();
    let Begun {
        rule: turns,
        tasks,
        mut run,
    } = match begin(alloc, arch, program, events, rule) {
        Ok(begun) => begun,
        Err(_) => return Ran::NoMemory,
    };
    let job = Job {
        arch: system,
        rule: turns,
        tasks,
        limit: n,
        counts_waits: is_counting(rule),
    };
    carry_out(&job, &mut run, choices, out)
}
