//! The pieces of a replay's text, and how each is put.
ghost use Rattle.tower_report.specs.Puts.{Puts};
ghost use Rattle.tower_report.specs.ReplayText.{replay_end};
ghost use Rattle.tower_replay.specs.Pieces.{piece_text, IsFitPiece};
ghost use Rattle.tower_run.specs.Paging.{PutsOver};

use tower_io::{Put, Sink};
use tower_report::{
    put_end, put_lost, put_message, put_misfit, put_pending, put_state_values, put_waiting,
};
use tower_run::Page;
use tower_syntax::Arch;
use tower_types::Value;

/// A piece of the text of a replay. Outputs, monitors and sources are numbers.
#[derive(Clone, Copy)]
pub enum Piece<'a> {
    /// An output with its message.
    Message(u32, &'a Value),
    /// The states of a monitor that has this value.
    Monitor(u32, &'a Value),
    /// How many messages wait at a source.
    Waiting(u32, u64),
    /// How many items are pending at a source.
    Pending(u32, u64),
    /// How many messages a source has lost.
    Lost(u32, u64),
    /// The last line: the number of the first mark that does not fit, if one does not.
    End(Option<u64>),
}

/// The last line.
fn put_last<S: Sink>(out: &mut S, misfit: Option<u64>) -> Put
    ensures { Puts S.written S.faults out.old out.new (replay_end misfit) result }
{
    match misfit {
        Some(k) => put_misfit(out, k),
        None => put_end(out, false),
    }
}

/// Puts a piece on a sink.
fn put_piece<S: Sink>(out: &mut S, arch: &Arch, piece: Piece) -> Put
    requires { IsFitPiece arch.now piece }
    ensures { Puts S.written S.faults out.old out.new (piece_text arch.now piece.entry) result }
{
    match piece {
        Piece::Message(o, message) => put_message(out, arch, o, message),
        Piece::Monitor(m, value) => put_state_values(out, arch, m, value),
        Piece::Waiting(x, n) => put_waiting(out, arch, x, n),
        Piece::Pending(x, n) => put_pending(out, arch, x, n),
        Piece::Lost(x, n) => put_lost(out, arch, x, n),
        Piece::End(misfit) => put_last(out, misfit),
    }
}

/// Puts a piece on the page, or, where it does not fit there, first what the page holds and then the piece on the sink.
pub fn put_paged<O: Sink>(page: &mut Page, out: &mut O, arch: &Arch, piece: Piece) -> Put
    requires { IsFitPiece arch.now piece }
    ensures { PutsOver O.written O.faults out.old page.old.held out.new page.new.held (piece_text arch.now piece.entry) result }
{
    let len = page.len();
    match put_piece(page, arch, piece) {
        Put::Done => return Put::Done,
        Put::Failed => page.cut(len),
    }
    match page.flush(out) {
        Put::Done => put_piece(out, arch, piece),
        Put::Failed => Put::Failed,
    }
}
