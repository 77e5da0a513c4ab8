//! The turns of a run: instructions and entries.
ghost use Rattle.std.specs.Prelude.{◌≡◌, ◌<◌, ◌≤◌, true, cond, Some, IfSome, length, slice_get};
ghost use Rattle.task_machine.specs.State.{ready, holds};
ghost use Rattle.tower_run.specs.Pieces.{AreFitLines};
ghost use Rattle.tower_run.specs.Scheduler.{names_by};
ghost use Rattle.tower_run.specs.Going.{IsGoing, Carries, Shows, IsReadyTurn, IsLeftTurn, HasStepped, IsOneTurn, NeverStops, NeverPasses, due_of, task_left, going_with, going, going_on, seeing, looking, entering, idling, unchosen, ending};

use crate::cores::{core_of, count_on};
use crate::going::{Going, Job, Turn};
use crate::only::Only;
use crate::piece::{Piece, put_paged};
use crate::waits::is_wait;
use task_machine::{Came, Machine, Policy, Went};
use tower_io::{Put, Sink};
use tower_syntax::Mark;

/// Puts the lines of the last step.
fn show<O: Sink>(job: &Job, run: &mut Going, mark: Option<Mark>, out: &mut O) -> Turn
    requires { AreFitLines job.now.arch.now run.old.machine mark }
    ensures { Shows O.written O.faults job.now.arch.now mark run.old out.old run.new out.new result }
{
    let piece = Piece::Lines(run.count, mark);
    match put_paged(&mut run.page, out, job.arch, &run.machine, piece) {
        Put::Done => Turn::Went,
        Put::Failed => Turn::Failed,
    }
}

/// 1 for true, and 0 for false.
fn number(truth: bool) -> u64
    ensures value { result ≡ cond truth 1 0 }
    ensures few { result ≤ 1 }
{
    if truth { 1 } else { 0 }
}

/// The task that a rule names for `k` executes an instruction, if one is ready. The limit is not met.
fn advance<P: Policy, O: Sink>(job: &Job, run: &mut Going, policy: &P, k: u32, out: &mut O) -> Turn
    requires going { IsGoing O.written O.faults job.now run.old out.old }
    requires less { run.old.count < job.now.limit }
    requires waits { run.old.waits ≤ run.old.count }
    requires tasks { P.tasks policy.now ≡ length run.old.machine.program.tasks }
    requires monitors { IfSome (P.monitors policy.now) (λ n. n ≡ length run.old.machine.program.monitors) }
    ensures carries { Carries O.written O.faults (going_with k (P.names policy.now (ready run.old.machine) (holds run.old.machine) k)) job.now run.old out.old run.new out.new result }
    ensures stepped { HasStepped (P.names policy.now (ready run.old.machine) (holds run.old.machine) k) run.old run.new result }
    ensures ready { IsReadyTurn (ready run.old.machine) result }
    ensures one { IsOneTurn job.now.limit run.old run.new result }
{
    let waits = is_wait(job, &run.machine, &mut run.busy, k);
    let more = number(waits);
    let core = core_of(job, &run.machine, &mut run.busy, k);
    match run.machine.go(policy, k) {
        Went::Stepped(mark) => {
            run.count += 1;
            run.waits += more;
            count_on(&mut run.cores, core);
            show(job, run, mark, out)
        }
        Went::NoneReady => Turn::Passed,
    }
}

/// An instruction is due where a task is ready, and the limit is met.
fn due(ready: bool) -> Turn
    ensures { result ≡ due_of ready }
{
    if ready { Turn::Stopped } else { Turn::Passed }
}

/// A `go` with the number `k`.
pub fn go<O: Sink>(job: &Job, run: &mut Going, k: u32, out: &mut O) -> Turn
    requires { IsGoing O.written O.faults job.now run.old out.old }
    ensures carries { Carries O.written O.faults (going k) job.now run.old out.old run.new out.new result }
    ensures stepped { HasStepped (names_by job.now.rule (ready run.old.machine) (holds run.old.machine) k) run.old run.new result }
    ensures ready { IsReadyTurn (ready run.old.machine) result }
    ensures one { IsOneTurn job.now.limit run.old run.new result }
{
    let count = run.count;
    let limit = job.limit;
    if count >= limit {
        return due(run.machine.is_any_ready());
    }
    advance(job, run, &job.rule, k, out)
}

/// Task `x`, which is ready, executes an instruction, as one of a `see` with the number `k`.
fn go_on<O: Sink>(job: &Job, run: &mut Going, x: u32, k: u32, out: &mut O) -> Turn
    requires going { IsGoing O.written O.faults job.now run.old out.old }
    requires ready { slice_get (ready run.old.machine) x ≡ Some true }
    ensures carries { Carries O.written O.faults (going_on k x) job.now run.old out.old run.new out.new result }
    ensures stepped { HasStepped (Some x) run.old run.new result }
    ensures ready { IsReadyTurn (ready run.old.machine) result }
    ensures one { IsOneTurn job.now.limit run.old run.new result }
{
    let count = run.count;
    let limit = job.limit;
    if count >= limit {
        return Turn::Stopped;
    }
    let only = Only::new(x, job.tasks);
    advance(job, run, &only, k, out)
}

/// The task of the last step, if a `see` of it goes on: its instruction was not visible, and it is ready.
fn task_to_go_on(machine: &Machine) -> Option<u32>
    ensures { result ≡ task_left machine.now }
{
    match machine.last() {
        Some((task, false)) if machine.standing(task).is_ready() => Some(task),
        _ => None,
    }
}

/// Task `x`, which is ready, goes on until it has executed a visible instruction or is not ready.
fn look<O: Sink>(job: &Job, run: &mut Going, x: u32, k: u32, out: &mut O) -> Turn
    requires going { IsGoing O.written O.faults job.now run.old out.old }
    requires ready { slice_get (ready run.old.machine) x ≡ Some true }
    ensures carries { Carries O.written O.faults (looking k x) job.now run.old out.old run.new out.new result }
    ensures never_passes { NeverPasses result }
{
    'steps: loop {
        match go_on(job, run, x, k, out) {
            Turn::Went => {}
            Turn::Passed => return Turn::Passed,
            Turn::Stopped => return Turn::Stopped,
            Turn::Failed => return Turn::Failed,
        }
        match task_to_go_on(&run.machine) {
            Some(_) => {}
            None => return Turn::Went,
        }
    }
}

/// A `see` with the number `k`.
pub fn see<O: Sink>(job: &Job, run: &mut Going, k: u32, out: &mut O) -> Turn
    requires { IsGoing O.written O.faults job.now run.old out.old }
    ensures { Carries O.written O.faults (seeing k) job.now run.old out.old run.new out.new result }
{
    match go(job, run, k, out) {
        Turn::Went => {}
        Turn::Passed => return Turn::Passed,
        Turn::Stopped => return Turn::Stopped,
        Turn::Failed => return Turn::Failed,
    }
    match task_to_go_on(&run.machine) {
        Some(x) => look(job, run, x, k, out),
        None => Turn::Went,
    }
}

/// The next entry of the record, if there is one.
pub fn event<O: Sink>(job: &Job, run: &mut Going, out: &mut O) -> Turn
    requires { IsGoing O.written O.faults job.now run.old out.old }
    ensures carries { Carries O.written O.faults entering job.now run.old out.old run.new out.new result }
    ensures never_stops { NeverStops result }
    ensures left { IsLeftTurn run.old.machine result }
    ensures one { IsOneTurn job.now.limit run.old run.new result }
{
    match run.machine.event() {
        Came::Arrived => show(job, run, Some(Mark::Arrive), out),
        Came::NoMore => Turn::Passed,
    }
}

/// Instructions until no task is ready.
pub fn idle<O: Sink>(job: &Job, run: &mut Going, out: &mut O) -> Turn
    requires { IsGoing O.written O.faults job.now run.old out.old }
    ensures { Carries O.written O.faults idling job.now run.old out.old run.new out.new result }
{
    'steps: loop {
        match go(job, run, 0, out) {
            Turn::Went => {}
            Turn::Passed => return Turn::Went,
            Turn::Stopped => return Turn::Stopped,
            Turn::Failed => return Turn::Failed,
        }
    }
}

/// Where no choice is left: an instruction where a task is ready, and otherwise the next entry.
fn go_unchosen<O: Sink>(job: &Job, run: &mut Going, out: &mut O) -> Turn
    requires { IsGoing O.written O.faults job.now run.old out.old }
    ensures carries { Carries O.written O.faults unchosen job.now run.old out.old run.new out.new result }
    ensures left { IsLeftTurn run.old.machine result }
    ensures one { IsOneTurn job.now.limit run.old run.new result }
{
    let k = job.rule.otherwise(run.count);
    match go(job, run, k, out) {
        Turn::Passed => event(job, run, out),
        Turn::Went => Turn::Went,
        Turn::Stopped => Turn::Stopped,
        Turn::Failed => Turn::Failed,
    }
}

/// The rest of a run where no choice is left. After `Went` it is at its end.
pub fn finish<O: Sink>(job: &Job, run: &mut Going, out: &mut O) -> Turn
    requires { IsGoing O.written O.faults job.now run.old out.old }
    ensures carries { Carries O.written O.faults ending job.now run.old out.old run.new out.new result }
    ensures never_passes { NeverPasses result }
{
    'steps: loop {
        match go_unchosen(job, run, out) {
            Turn::Went => {}
            Turn::Passed => return Turn::Went,
            Turn::Stopped => return Turn::Stopped,
            Turn::Failed => return Turn::Failed,
        }
    }
}
