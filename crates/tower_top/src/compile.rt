//! The command `compile`.
ghost use Rattle.std.specs.Prelude.{◌≡◌, IfOk};
ghost use Rattle.tower_top.specs.Calls.{shelf_change, sink_change};
ghost use Rattle.tower_top.specs.Commands.{asked_of};
ghost use Rattle.tower_top.specs.Compile as command;
ghost use Rattle.tower_top.specs.Endings.{Ends};
ghost use Rattle.tower_words.specs.Words.{given_of};

use crate::file::read_file;
use crate::status::{Status, after};
use crate::usage::usage;
use crate::whole::put_whole;
use arch_checks::Checked;
use sqlite_items::Items;
use std::alloc::Global;
use task_build::build;
use task_listing::write;
use tower_io::{Shelf, Sink};
use tower_types::NoMemory;
use tower_words::{Given, Options};

/// The listing of the program of a file.
fn listing_of(alloc: Global, file: &Checked) -> Result<Items<u8>, NoMemory>
    ensures { IfOk result (λ bytes. bytes ≡ command.listing_of file.now) }
{
    let program = build(alloc, file)?;
    write(alloc, &program)
}

/// Writes the listing of the program of FILE.
pub fn compile<F: Shelf, O: Sink, E: Sink>(
    alloc: Global,
    given: &Given,
    shelf: &mut F,
    out: &mut O,
    err: &mut E,
) -> Status
    ensures { Ends (asked_of command.compile (given_of given.now)) (record {
      shelf = shelf_change F.held F.blamed F.faults shelf.old shelf.new;
      out = sink_change O.written O.faults out.old out.new;
      err = sink_change E.written E.faults err.old err.new;
    }) result }
{
    if !given.has_only(Options::NONE) {
        return usage(err);
    }
    let file = match read_file(alloc, given.file, shelf, err) {
        Ok(file) => file,
        Err(status) => return status,
    };
    match listing_of(alloc, &file) {
        Ok(text) => after(put_whole(out, text.as_slice()), Status::Done),
        Err(_) => Status::NoMemory,
    }
}
