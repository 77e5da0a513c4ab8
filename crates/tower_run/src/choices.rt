//! The choices of a run.
ghost use Rattle.tower_run.specs.Going.{IsGoing, Carries, MayStop, NeverPasses, once, repeating, applying, choosing};

use crate::going::{Going, Job, Turn};
use crate::turns::{event, finish, go, idle, see};
use tower_io::Sink;
use tower_syntax::Choice;

/// One of the repeats of a choice; `Idle` has none.
fn once<O: Sink>(job: &Job, run: &mut Going, choice: Choice, out: &mut O) -> Turn
    requires { IsGoing O.written O.faults job.now run.old out.old }
    ensures carries { Carries O.written O.faults (once choice) job.now run.old out.old run.new out.new result }
    ensures stops { MayStop choice result }
{
    match choice {
        Choice::Go(k, _) => go(job, run, k, out),
        Choice::See(k, _) => see(job, run, k, out),
        Choice::Ev(_) => event(job, run, out),
        Choice::Idle => Turn::Passed,
    }
}

/// So many repeats of a choice. The rest is passed over once one can't be done.
fn repeat<O: Sink>(job: &Job, run: &mut Going, choice: Choice, times: u32, out: &mut O) -> Turn
    requires { IsGoing O.written O.faults job.now run.old out.old }
    ensures { Carries O.written O.faults (repeating times choice) job.now run.old out.old run.new out.new result }
{
    for _ in 0..times {
        match once(job, run, choice, out) {
            Turn::Went => {}
            Turn::Passed => return Turn::Went,
            Turn::Stopped => return Turn::Stopped,
            Turn::Failed => return Turn::Failed,
        }
    }
    Turn::Went
}

/// Applies a choice.
fn apply<O: Sink>(job: &Job, run: &mut Going, choice: Choice, out: &mut O) -> Turn
    requires { IsGoing O.written O.faults job.now run.old out.old }
    ensures { Carries O.written O.faults (applying choice) job.now run.old out.old run.new out.new result }
{
    match choice {
        Choice::Go(_, times) => repeat(job, run, choice, times, out),
        Choice::See(_, times) => repeat(job, run, choice, times, out),
        Choice::Ev(times) => repeat(job, run, choice, times, out),
        Choice::Idle => idle(job, run, out),
    }
}

/// Applies a choice, and tells no more of one that was passed over.
fn apply_next<O: Sink>(job: &Job, run: &mut Going, choice: Choice, out: &mut O) -> Turn
    requires { IsGoing O.written O.faults job.now run.old out.old }
    ensures carries { Carries O.written O.faults (applying choice) job.now run.old out.old run.new out.new result }
    ensures never_passes { NeverPasses result }
{
    match apply(job, run, choice, out) {
        Turn::Went => Turn::Went,
        Turn::Passed => Turn::Went,
        Turn::Stopped => Turn::Stopped,
        Turn::Failed => Turn::Failed,
    }
}

/// Applies the choices, one after another, until the run has ended, and then goes on to its end. After `Went` it is
/// done.
pub fn choose<O: Sink>(job: &Job, run: &mut Going, choices: &[Choice], out: &mut O) -> Turn
    requires { IsGoing O.written O.faults job.now run.old out.old }
    ensures { Carries O.written O.faults (choosing choices.now) job.now run.old out.old run.new out.new result }
{
    for choice in choices {
        if run.machine.finished() {
            return Turn::Went;
        }
        match apply_next(job, run, *choice, out) {
            Turn::Went => {}
            Turn::Passed => return Turn::Passed,
            Turn::Stopped => return Turn::Stopped,
            Turn::Failed => return Turn::Failed,
        }
    }
    finish(job, run, out)
}
