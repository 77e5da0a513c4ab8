//! The top call: words and inputs to a text and a status.
ghost use Rattle.std.specs.Prelude.{map, string_bytes};
ghost use Rattle.tower_top.specs.Calls.{shelf_change, sink_change};
ghost use Rattle.tower_top.specs.Endings.{Ends};
ghost use Rattle.tower_top.specs.Top.{asked, request_of};
ghost use Rattle.tower_words.specs.Words.{given_of};

use crate::check::check;
use crate::compile::compile;
use crate::run::run;
use crate::status::Status;
use crate::usage::usage;
use std::alloc::Global;
use tower_io::{Shelf, Sink};
use tower_words::{Given, read_words};

/// Carries out the command that was given.
fn carry_out<F: Shelf, O: Sink, E: Sink>(
    alloc: Global,
    given: &Given,
    shelf: &mut F,
    out: &mut O,
    err: &mut E,
) -> Status
    ensures { Ends (asked (given_of given.now)) (record {
      shelf = shelf_change F.held F.blamed F.faults shelf.old shelf.new;
      out = sink_change O.written O.faults out.old out.new;
      err = sink_change E.written E.faults err.old err.new;
    }) result }
{
    if given.command == "check" {
        return check(alloc, given, shelf, out, err);
    }
    if given.command == "compile" {
        return compile(alloc, given, shelf, out, err);
    }
    if given.command == "run" {
        return run(alloc, given, shelf, out, err);
    }
    usage(err)
}

/// Carries out what the words ask for. The first word is the program's name. The inputs come from the shelf, the text
/// goes to `out`, and the one line that tells of a fault to `err`.
///
/// `check FILE` tells what an accepted file has and what it weighs. `compile FILE` writes the listing of its program.
/// `run FILE --record NAME` runs that program over a record, by the choices of `--choices NAME` where they are given, for
/// at most as many instructions as `--steps N` says.
/// After `WriteFault` a first part of what was due was written on each sink. After `Done`, `Stopped` and `No` the
/// command's text was written whole on `out`; after any other answer nothing was written there, and after `NoMemory`
/// nothing at all.
pub fn tower<F: Shelf, O: Sink, E: Sink>(
    alloc: Global,
    words: &[String],
    shelf: &mut F,
    out: &mut O,
    err: &mut E,
) -> Status
    ensures { Ends (request_of (map string_bytes words.now)) (record {
      shelf = shelf_change F.held F.blamed F.faults shelf.old shelf.new;
      out = sink_change O.written O.faults out.old out.new;
      err = sink_change E.written E.faults err.old err.new;
    }) result }
{
    match read_words(alloc, words) {
        Ok(Some(given)) => carry_out(alloc, &given, shelf, out, err),
        Ok(None) => usage(err),
        Err(_) => Status::NoMemory,
    }
}
