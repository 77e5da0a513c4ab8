//! The text of a replay, line by line.
ghost use Rattle.std.specs.Prelude.{◌≡◌, ◌<◌, ◌++◌, length, map};
ghost use Rattle.tower_types.specs.View.{value_of};
ghost use Rattle.arch_checks.specs.Laws.{IsSafe};
ghost use Rattle.atomic_state.specs.Fitting.{FitsState};
ghost use Rattle.atomic_state.specs.StateView.{output_of};
ghost use Rattle.tower_replay.specs.Pieces.{messages_text, monitors_text, source_line, sources_text, verdict_text, AreOutputs};
ghost use Rattle.tower_report.specs.EndText.{losses_text};
ghost use Rattle.tower_report.specs.ReplayText.{state_text};
ghost use Rattle.tower_run.specs.Paging.{PutsOver};

use crate::piece::{Piece, put_paged};
use atomic_state::{AtomicState, Verdict};
use tower_io::{Put, Sink};
use tower_run::Page;
use tower_syntax::Arch;
use tower_types::Value;

/// Puts the lines of outputs with their messages.
fn put_messages<O: Sink>(page: &mut Page, out: &mut O, arch: &Arch, outputs: &[(u32, Value)]) -> Put
    requires safe { IsSafe arch.now }
    requires exist { AreOutputs arch.now (map output_of outputs.now) }
    ensures { PutsOver O.written O.faults out.old page.old.held out.new page.new.held (messages_text arch.now (map output_of outputs.now)) result }
{
    for i in 0..outputs.len() {
        let (o, message) = &outputs[i];
        match put_paged(page, out, arch, Piece::Message(*o, message)) {
            Put::Done => {}
            Put::Failed => return Put::Failed,
        }
    }
    Put::Done
}

/// Puts the states of all monitors, which have these values.
fn put_monitors<O: Sink>(page: &mut Page, out: &mut O, arch: &Arch, values: &[Value]) -> Put
    requires safe { IsSafe arch.now }
    requires count { length values.now ≡ length arch.now.monitors }
    ensures { PutsOver O.written O.faults out.old page.old.held out.new page.new.held (monitors_text arch.now (map value_of values.now)) result }
{
    for m in 0..arch.monitors().len() {
        match put_paged(page, out, arch, Piece::Monitor(m as u32, &values[m])) {
            Put::Done => {}
            Put::Failed => return Put::Failed,
        }
    }
    Put::Done
}

/// Puts how many messages wait at source `x`, and how many items are pending there.
fn put_source<O: Sink>(
    page: &mut Page,
    out: &mut O,
    arch: &Arch,
    state: &AtomicState,
    x: u32,
) -> Put
    requires fits { FitsState arch.now state.now.state }
    requires exists { x < length arch.now.sources }
    ensures { PutsOver O.written O.faults out.old page.old.held out.new page.new.held (source_line arch.now state.now.state x) result }
{
    match put_paged(page, out, arch, Piece::Waiting(x, state.waiting(x))) {
        Put::Done => put_paged(page, out, arch, Piece::Pending(x, state.pending(x))),
        Put::Failed => Put::Failed,
    }
}

/// Puts what waits and what is pending at all sources.
fn put_sources<O: Sink>(page: &mut Page, out: &mut O, arch: &Arch, state: &AtomicState) -> Put
    requires { FitsState arch.now state.now.state }
    ensures { PutsOver O.written O.faults out.old page.old.held out.new page.new.held (sources_text arch.now state.now.state) result }
{
    for x in 0..arch.sources().len() {
        match put_source(page, out, arch, state, x as u32) {
            Put::Done => {}
            Put::Failed => return Put::Failed,
        }
    }
    Put::Done
}

/// Puts the numbers of messages that the sources have lost.
fn put_losses<O: Sink>(page: &mut Page, out: &mut O, arch: &Arch, state: &AtomicState) -> Put
    requires { FitsState arch.now state.now.state }
    ensures { PutsOver O.written O.faults out.old page.old.held out.new page.new.held (losses_text arch.now state.now.state.lost) result }
{
    for x in 0..arch.sources().len() {
        let lost = state.lost(x as u32);
        match put_paged(page, out, arch, Piece::Lost(x as u32, lost)) {
            Put::Done => {}
            Put::Failed => return Put::Failed,
        }
    }
    Put::Done
}

/// Puts the lines of a state's outputs and monitors, of which these are the values.
fn put_shown<O: Sink>(
    page: &mut Page,
    out: &mut O,
    arch: &Arch,
    state: &AtomicState,
    monitors: &[Value],
) -> Put
    requires safe { IsSafe arch.now }
    requires fits { FitsState arch.now state.now.state }
    requires values { map value_of monitors.now ≡ state.now.state.monitors }
    ensures { PutsOver O.written O.faults out.old page.old.held out.new page.new.held
        (messages_text arch.now state.now.state.outputs ++ monitors_text arch.now state.now.state.monitors) result }
{
    match put_messages(page, out, arch, state.outputs()) {
        Put::Done => put_monitors(page, out, arch, monitors),
        Put::Failed => Put::Failed,
    }
}

/// Puts the lines of a state, of whose monitors these are the values.
fn put_state<O: Sink>(
    page: &mut Page,
    out: &mut O,
    arch: &Arch,
    state: &AtomicState,
    monitors: &[Value],
) -> Put
    requires safe { IsSafe arch.now }
    requires fits { FitsState arch.now state.now.state }
    requires values { map value_of monitors.now ≡ state.now.state.monitors }
    ensures { PutsOver O.written O.faults out.old page.old.held out.new page.new.held (state_text arch.now state.now.state) result }
{
    match put_shown(page, out, arch, state, monitors) {
        Put::Done => {}
        Put::Failed => return Put::Failed,
    }
    match put_sources(page, out, arch, state) {
        Put::Done => put_losses(page, out, arch, state),
        Put::Failed => Put::Failed,
    }
}

/// Puts the text of what marks have come to. These are the values of the monitors there.
pub fn put_verdict<O: Sink>(
    page: &mut Page,
    out: &mut O,
    arch: &Arch,
    verdict: &Verdict,
    monitors: &[Value],
) -> Put
    requires safe { IsSafe arch.now }
    requires fits { FitsState arch.now verdict.now.state.state }
    requires values { map value_of monitors.now ≡ verdict.now.state.state.monitors }
    ensures { PutsOver O.written O.faults out.old page.old.held out.new page.new.held (verdict_text arch.now verdict.now) result }
{
    match put_state(page, out, arch, &verdict.state, monitors) {
        Put::Done => put_paged(page, out, arch, Piece::End(verdict.misfit)),
        Put::Failed => Put::Failed,
    }
}
