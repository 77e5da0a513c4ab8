//! The pieces of a run's text, and how each is put.
ghost use Rattle.std.specs.Prelude.{◌≡◌, ◌<◌, ◌≤◌, length, slice_get, slice_index, ℤ, ℕ, List, Option};
ghost use Rattle.std.specs.Option.{option_map};
ghost use Rattle.tower_syntax.specs.Weights.{states_of};
ghost use Rattle.tower_report.specs.EndText.{monitor_text, shown_by};
ghost use Rattle.tower_report.specs.ValueText.{shapes_in, shapes_depth, shapes_words};
ghost use Rattle.tower_report.specs.Puts.{Puts};
ghost use Rattle.task_machine.specs.State.{wrote_last};
ghost use Rattle.tower_run.specs.Pieces.{marked_text, wrote_text, lines_text, piece_text, IfMark, IfWrote, IsFitMonitor, IsFitPiece};
ghost use Rattle.tower_run.specs.Paging.{PutsOver};

use crate::page::Page;
use task_machine::Machine;
use tower_io::{Put, Sink};
use tower_report::{
    put_core, put_count, put_end, put_held, put_lost, put_mark, put_out, put_states, put_waits,
};
use tower_syntax::{Arch, Mark};

/// A piece of the text of a run. Monitors and sources are numbers.
#[derive(Clone, Copy, Debug)]
pub enum Piece {
    /// What the last step showed, after so many instructions: its mark, and what it wrote on an output.
    Lines(u64, Option<Mark>),
    /// What a monitor has at the end.
    Monitor(u32),
    /// How many messages a source has lost.
    Lost(u32),
    /// The number of instructions.
    Count(u64),
    /// The number of instructions before which the rule named a waiting task.
    Waits(u64),
    /// The number of instructions on a core.
    Core(u32, u64),
    /// The last line, which says whether the run stopped.
    End(bool),
}

/// The line of a mark, if there is one.
fn put_marked<S: Sink>(out: &mut S, arch: &Arch, count: u64, mark: Option<Mark>) -> Put
    requires { IfMark arch.now mark }
    ensures { Puts S.written S.faults out.old out.new (marked_text arch.now count mark) result }
{
    match mark {
        Some(mark) => put_mark(out, arch, count, mark),
        None => Put::Done,
    }
}

/// The line of what was written on an output, if the last step wrote something.
fn put_wrote<S: Sink>(out: &mut S, arch: &Arch, machine: &Machine) -> Put
    requires { IfWrote arch.now (wrote_last machine.now) }
    ensures { Puts S.written S.faults out.old out.new (wrote_text arch.now (wrote_last machine.now)) result }
{
    match machine.wrote() {
        Some((output, words)) => put_out(out, arch, output, words),
        None => Put::Done,
    }
}

/// The lines of the last step.
fn put_lines<S: Sink>(
    out: &mut S,
    arch: &Arch,
    machine: &Machine,
    count: u64,
    mark: Option<Mark>,
) -> Put
    requires mark { IfMark arch.now mark }
    requires wrote { IfWrote arch.now (wrote_last machine.now) }
    ensures { Puts S.written S.faults out.old out.new (lines_text arch.now count mark (wrote_last machine.now)) result }
{
    match put_marked(out, arch, count, mark) {
        Put::Done => put_wrote(out, arch, machine),
        Put::Failed => Put::Failed,
    }
}

/// The lines of a monitor: that it is locked, or its states.
fn put_monitor<S: Sink>(out: &mut S, arch: &Arch, machine: &Machine, m: u32) -> Put
    requires { IsFitMonitor arch.now machine.now m }
    ensures { Puts S.written S.faults out.old out.new (monitor_text arch.now m (shown_by (slice_get machine.now.machine.locks m))) result }
{
    match machine.monitor(m) {
        Some(words) => put_states(out, arch, m, words),
        None => put_held(out, arch, m),
    }
}

/// Puts a piece on a sink.
fn put_piece<S: Sink>(out: &mut S, arch: &Arch, machine: &Machine, piece: Piece) -> Put
    requires { IsFitPiece arch.now machine.now piece }
    ensures { Puts S.written S.faults out.old out.new (piece_text arch.now machine.now piece) result }
{
    match piece {
        Piece::Lines(count, mark) => put_lines(out, arch, machine, count, mark),
        Piece::Monitor(m) => put_monitor(out, arch, machine, m),
        Piece::Lost(x) => put_lost(out, arch, x, machine.lost(x)),
        Piece::Count(n) => put_count(out, n),
        Piece::Waits(n) => put_waits(out, n),
        Piece::Core(i, n) => put_core(out, i, n),
        Piece::End(stopped) => put_end(out, stopped),
    }
}

/// Puts a piece on the page, or, where it does not fit there, first what the page holds and then the piece on the sink.
pub fn put_paged<O: Sink>(
    page: &mut Page,
    out: &mut O,
    arch: &Arch,
    machine: &Machine,
    piece: Piece,
) -> Put
    requires { IsFitPiece arch.now machine.now piece }
    ensures { PutsOver O.written O.faults out.old page.old.held out.new page.new.held (piece_text arch.now machine.now piece) result }
{
    let len = page.len();
    match put_piece(page, arch, machine, piece) {
        Put::Done => return Put::Done,
        Put::Failed => page.cut(len),
    }
    match page.flush(out) {
        Put::Done => put_piece(out, arch, machine, piece),
        Put::Failed => Put::Failed,
    }
}
