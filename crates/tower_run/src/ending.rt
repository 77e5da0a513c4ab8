//! The lines at the end of a run.
ghost use Rattle.std.specs.Prelude.{◌≡◌, ◌<◌, ◌≤◌, ℕ, length};
ghost use Rattle.tower_report.specs.EndText.{end_text, monitors_text, losses_text, waits_text, cores_text, tally_text};
ghost use Rattle.tower_run.specs.Paging.{PutsOver};
ghost use Rattle.tower_run.specs.Pieces.{IsFitMonitor};
ghost use Rattle.tower_run.specs.LastText.{tally_in, last_text};

use crate::page::Page;
use crate::piece::{Piece, put_paged};
use task_machine::Machine;
use tower_io::{Put, Sink};
use tower_syntax::Arch;

/// How a run has ended: the number of instructions, where it was counted that of those before which the rule named a
/// waiting task, those on each core that the rule tells apart, and whether it stopped.
#[derive(Clone, Copy, Debug)]
pub struct End<'a> {
    pub count: u64,
    pub waits: Option<u64>,
    pub cores: &'a [u64],
    pub stopped: bool,
}

/// Puts the lines of all monitors.
fn put_monitors<O: Sink>(page: &mut Page, out: &mut O, arch: &Arch, machine: &Machine) -> Put
    requires { (m : ℕ) → m < length arch.now.monitors → IsFitMonitor arch.now machine.now m }
    ensures { PutsOver O.written O.faults out.old page.old.held out.new page.new.held (monitors_text arch.now machine.now.machine.locks) result }
{
    for m in 0..arch.monitors().len() {
        match put_paged(page, out, arch, machine, Piece::Monitor(m as u32)) {
            Put::Done => {}
            Put::Failed => return Put::Failed,
        }
    }
    Put::Done
}

/// Puts the numbers of messages that the sources have lost.
fn put_losses<O: Sink>(page: &mut Page, out: &mut O, arch: &Arch, machine: &Machine) -> Put
    requires { length arch.now.sources ≡ length machine.now.program.tasks }
    ensures { PutsOver O.written O.faults out.old page.old.held out.new page.new.held (losses_text arch.now machine.now.machine.lost) result }
{
    for x in 0..arch.sources().len() {
        match put_paged(page, out, arch, machine, Piece::Lost(x as u32)) {
            Put::Done => {}
            Put::Failed => return Put::Failed,
        }
    }
    Put::Done
}

/// Puts the line of the waits, where they were counted.
fn put_waited<O: Sink>(
    page: &mut Page,
    out: &mut O,
    arch: &Arch,
    machine: &Machine,
    waits: Option<u64>,
) -> Put
    ensures { PutsOver O.written O.faults out.old page.old.held out.new page.new.held (waits_text waits) result }
{
    match waits {
        Some(n) => put_paged(page, out, arch, machine, Piece::Waits(n)),
        None => Put::Done,
    }
}

/// Puts the numbers of instructions on the cores.
fn put_cores<O: Sink>(
    page: &mut Page,
    out: &mut O,
    arch: &Arch,
    machine: &Machine,
    counts: &[u64],
) -> Put
    requires { length counts.now ≤ 64 }
    ensures { PutsOver O.written O.faults out.old page.old.held out.new page.new.held (cores_text counts.now) result }
{
    for i in 0..counts.len() {
        match put_paged(page, out, arch, machine, Piece::Core(i as u32, counts[i])) {
            Put::Done => {}
            Put::Failed => return Put::Failed,
        }
    }
    Put::Done
}

/// Puts what was counted of a run.
fn put_tally<O: Sink>(page: &mut Page, out: &mut O, arch: &Arch, machine: &Machine, end: End) -> Put
    requires { length end.cores.now ≤ 64 }
    ensures { PutsOver O.written O.faults out.old page.old.held out.new page.new.held (tally_text (tally_in end.entry)) result }
{
    match put_paged(page, out, arch, machine, Piece::Count(end.count)) {
        Put::Done => {}
        Put::Failed => return Put::Failed,
    }
    match put_waited(page, out, arch, machine, end.waits) {
        Put::Done => put_cores(page, out, arch, machine, end.cores),
        Put::Failed => Put::Failed,
    }
}

/// Puts the last lines of a run.
fn put_last<O: Sink>(page: &mut Page, out: &mut O, arch: &Arch, machine: &Machine, end: End) -> Put
    requires { length end.cores.now ≤ 64 }
    ensures { PutsOver O.written O.faults out.old page.old.held out.new page.new.held (last_text end.entry) result }
{
    match put_tally(page, out, arch, machine, end) {
        Put::Done => put_paged(page, out, arch, machine, Piece::End(end.stopped)),
        Put::Failed => Put::Failed,
    }
}

/// Puts the lines at the end of a run.
pub fn put_ending<O: Sink>(
    page: &mut Page,
    out: &mut O,
    arch: &Arch,
    machine: &Machine,
    end: End,
) -> Put
    requires monitors { (m : ℕ) → m < length arch.now.monitors → IsFitMonitor arch.now machine.now m }
    requires sources { length arch.now.sources ≡ length machine.now.program.tasks }
    requires cores { length end.cores.now ≤ 64 }
    ensures { PutsOver O.written O.faults out.old page.old.held out.new page.new.held (end_text arch.now machine.now.machine (tally_in end.entry) end.entry.stopped) result }
{
    match put_monitors(page, out, arch, machine) {
        Put::Done => {}
        Put::Failed => return Put::Failed,
    }
    match put_losses(page, out, arch, machine) {
        Put::Done => put_last(page, out, arch, machine, end),
        Put::Failed => Put::Failed,
    }
}
