//! The record, read and tested.
ghost use Rattle.event_record.specs.Record.{SpellsRecord, IsRecordFault};
ghost use Rattle.event_record.specs.declared.record.RecordFault.TheVariants as fault;
ghost use Rattle.std.specs.Prelude.{◌≡◌, IfOk};
ghost use Rattle.tower_meaning.specs.Atomic.{Fit};
ghost use Rattle.tower_syntax.specs.View.{events_of};
ghost use Rattle.tower_top.specs.Calls.{shelf_change, sink_change};
ghost use Rattle.tower_top.specs.Endings.{Reads};
ghost use Rattle.tower_top.specs.Fetched.{IsFetched};
ghost use Rattle.tower_top.specs.RecordInput.{kind_text, record_input};

use crate::fetched::{Fetched, TEXT_LIMIT};
use crate::status::{Status, after};
use arch_checks::Checked;
use event_record::{RecordFault, RecordKind, read_record};
use std::alloc::Global;
use tower_io::{Fetch, Shelf, Sink, fetch};
use tower_report::{put_bad, put_unread};
use tower_syntax::Events;

/// The kind of a fault, as its line tells it.
fn kind_text(kind: RecordKind) -> &'static str
    ensures { result.now ≡ kind_text kind }
{
    match kind {
        RecordKind::Long => "long",
        RecordKind::Line => "line",
        RecordKind::Name => "name",
        RecordKind::Value => "value",
        RecordKind::Many => "many",
    }
}

/// Reads the record of that name, or its first fault.
fn fetch_record<F: Shelf>(
    alloc: Global,
    file: &Checked,
    name: &str,
    shelf: &mut F,
) -> Fetched<Events, (u32, RecordKind)>
    ensures { IsFetched (shelf_change F.held F.blamed F.faults shelf.old shelf.new) name.now
        (λ text events. SpellsRecord file.now text (events_of events) × Fit file.now (events_of events))
        (λ text at. IsRecordFault file.now text (fault.At at.0 at.1)) result }
{
    let mut text = Vec::new(alloc);
    match fetch(alloc, shelf, name, TEXT_LIMIT, &mut text) {
        Fetch::Done => {}
        Fetch::Long => return Fetched::Wrong((0, RecordKind::Long)),
        Fetch::Failed => return Fetched::Unread,
        Fetch::NoMemory => return Fetched::NoMemory,
    }
    match read_record(alloc, file, text.as_slice()) {
        Ok(events) => Fetched::Valid(events),
        Err(RecordFault::At { line, kind }) => Fetched::Wrong((line, kind)),
        Err(RecordFault::NoMemory) => Fetched::NoMemory,
    }
}

/// Reads the record of that name, and tells where it could not be read or has a fault.
pub fn read_events<F: Shelf, E: Sink>(
    alloc: Global,
    file: &Checked,
    name: &str,
    shelf: &mut F,
    err: &mut E,
) -> Result<Events, Status>
    ensures reads { Reads (record_input file.now name.now) events_of (shelf_change F.held F.blamed F.faults shelf.old shelf.new)
        (sink_change E.written E.faults err.old err.new) result }
    ensures fit { IfOk result (λ events. Fit file.now (events_of events)) }
{
    match fetch_record(alloc, file, name, shelf) {
        Fetched::Valid(events) => Ok(events),
        Fetched::Wrong((line, kind)) => Err(after(
            put_bad(err, "record", line, kind_text(kind)),
            Status::BadInput,
        )),
        Fetched::Unread => Err(after(put_unread(err, shelf.blamed()), Status::ReadFault)),
        Fetched::NoMemory => Err(Status::NoMemory),
    }
}
