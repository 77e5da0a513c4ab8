//! The marks of an order, tried from the start, with the text of what they come to.
ghost use Rattle.std.specs.Prelude.{◌≡◌, ◌≤◌, [], IfOk, map};
ghost use Rattle.tower_types.specs.View.{value_of};
ghost use Rattle.tower_syntax.specs.Typed.{IsTyped};
ghost use Rattle.tower_syntax.specs.View.{events_of};
ghost use Rattle.tower_meaning.specs.Atomic.{Fit};
ghost use Rattle.tower_meaning.specs.Replayed.{first_misfit};
ghost use Rattle.tower_meaning.specs.System.{system_of};
ghost use Rattle.arch_checks.specs.Laws.{IsSafe};
ghost use Rattle.atomic_state.specs.Fitting.{FitsState};
ghost use Rattle.tower_report.specs.ReplayText.{replay_text};
ghost use Rattle.tower_replay.specs.Pieces.{verdict_text};
ghost use Rattle.tower_replay.specs.Trial.{HasTried, PutsTried, ReplayEnds, replayed_of};

use crate::text::put_verdict;
use arch_checks::Checked;
use atomic_state::{AtomicState, Verdict};
use std::alloc::Global;
use tower_io::{Put, Sink};
use tower_run::Page;
use tower_syntax::{Arch, Events, Mark};
use tower_types::{NoMemory, Value};

/// How a replay ended.
#[derive(Clone, Copy, Debug, PartialEq, Eq)]
pub enum Replayed {
    /// All marks fit. The whole text was put.
    Done,
    /// A mark does not fit. The whole text was put, which names the first such mark and shows the state before it.
    Misfit,
    /// A put failed, after a first part of the text.
    WriteFault,
    /// There was no memory. Nothing was put.
    NoMemory,
}

/// What marks have come to, with all the memory that its text takes.
#[derive(Drop)]
struct Tried {
    verdict: Verdict,
    monitors: Vec<Value>,
    page: Page,
}

/// The values of a state's monitors.
fn values_of(alloc: Global, arch: &Arch, state: &AtomicState) -> Result<Vec<Value>, NoMemory>
    requires { FitsState arch.now state.now.state }
    ensures { IfOk result (λ vs. map value_of vs.items ≡ state.now.state.monitors) }
{
    let mut values = Vec::new(alloc);
    for m in 0..arch.monitors().len() {
        let value = state.monitor(m as u32).value(alloc)?;
        values.push(value)?;
    }
    Ok(values)
}

/// Tries marks from the start, and takes all the memory that the text of what they come to needs.
fn try_marks(alloc: Global, arch: &Arch, events: &Events, marks: &[Mark]) -> Result<Tried, NoMemory>
    requires typed { IsTyped arch.now }
    requires fit { Fit arch.now (events_of events.now) }
    ensures { IfOk result (λ t. HasTried arch.now (events_of events.now) marks.now t) }
{
    let verdict = atomic_state::replay(alloc, arch, events, marks)?;
    let monitors = values_of(alloc, arch, &verdict.state)?;
    let page = Page::new(alloc)?;
    Ok(Tried {
        verdict,
        monitors,
        page,
    })
}

/// The answer of a replay with this first misfit, whose last put was so.
fn answer(put: Put, misfit: Option<u64>) -> Replayed
    ensures { result ≡ replayed_of put misfit }
{
    match (put, misfit) {
        (Put::Done, None) => Replayed::Done,
        (Put::Done, Some(_)) => Replayed::Misfit,
        (Put::Failed, _) => Replayed::WriteFault,
    }
}

/// Puts the text of what marks have come to, and then what the page holds.
fn put_tried<O: Sink>(arch: &Arch, tried: &mut Tried, out: &mut O) -> Replayed
    requires safe { IsSafe arch.now }
    requires fits { FitsState arch.now tried.old.verdict.state.state }
    requires values { map value_of tried.old.monitors.items ≡ tried.old.verdict.state.state.monitors }
    requires empty { tried.old.page.held ≡ [] }
    ensures { PutsTried O.written O.faults out.old out.new (verdict_text arch.now tried.old.verdict) tried.old.verdict.misfit result }
{
    let put = put_verdict(
        &mut tried.page,
        out,
        arch,
        &tried.verdict,
        tried.monitors.as_slice(),
    );
    match put {
        Put::Done => answer(tried.page.flush(out), tried.verdict.misfit),
        Put::Failed => Replayed::WriteFault,
    }
}

/// Tries the marks of an order, one after another from the start, against the atomic meaning of a file over events that fit
/// it, up to the first that does not fit, and puts the text of what they come to.
///
/// It takes all its memory before the first put, so `NoMemory` leaves the sink as it was. After `WriteFault` a first part
/// of the text was put.
pub fn replay<O: Sink>(
    alloc: Global,
    arch: &Checked,
    events: &Events,
    marks: &[Mark],
    out: &mut O,
) -> Replayed
    requires { Fit arch.now (events_of events.now) }
    ensures ends { ReplayEnds O.written O.faults out.old out.new (replay_text arch.now (events_of events.now) marks.now)
        (first_misfit (system_of arch.now) (events_of events.now) marks.now) result }
    ensures never_falls { O.faults out.old ≤ O.faults out.new }
{
    let system = arch.arch();
    let mut tried = match try_marks(alloc, system, events, marks) {
        Ok(tried) => tried,
        Err(_) => return Replayed::NoMemory,
    };
    put_tried(system, &mut tried, out)
}
