//! The command `check`.
ghost use Rattle.tower_top.specs.Calls.{shelf_change, sink_change};
ghost use Rattle.tower_top.specs.Check as command;
ghost use Rattle.tower_top.specs.Commands.{asked_of};
ghost use Rattle.tower_top.specs.Endings.{Ends};
ghost use Rattle.tower_words.specs.Words.{given_of};

use crate::file::read_file;
use crate::status::{Status, after};
use crate::usage::usage;
use std::alloc::Global;
use tower_io::{Shelf, Sink};
use tower_report::put_check;
use tower_words::{Given, Options};

/// Tells what FILE has and what it weighs.
pub fn check<F: Shelf, O: Sink, E: Sink>(
    alloc: Global,
    given: &Given,
    shelf: &mut F,
    out: &mut O,
    err: &mut E,
) -> Status
    ensures { Ends (asked_of command.check (given_of given.now)) (record {
      shelf = shelf_change F.held F.blamed F.faults shelf.old shelf.new;
      out = sink_change O.written O.faults out.old out.new;
      err = sink_change E.written E.faults err.old err.new;
    }) result }
{
    if !given.has_only(Options::NONE) {
        return usage(err);
    }
    match read_file(alloc, given.file, shelf, err) {
        Ok(file) => after(put_check(out, &file), Status::Done),
        Err(status) => status,
    }
}
