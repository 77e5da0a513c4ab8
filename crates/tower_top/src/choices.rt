//! The choices, read and tested.
ghost use Rattle.event_record.specs.Choices.{SpellsChoices, IsChoiceFault};
ghost use Rattle.event_record.specs.declared.choices.ChoiceFault.TheVariants as fault;
ghost use Rattle.std.specs.Prelude.{◌≡◌, option_map};
ghost use Rattle.tower_top.specs.Calls.{shelf_change, sink_change};
ghost use Rattle.tower_top.specs.ChoicesInput.{ReadsGivenChoices, choices_input, kind_text};
ghost use Rattle.tower_top.specs.Endings.{Reads};
ghost use Rattle.tower_top.specs.Fetched.{IsFetched};

use crate::fetched::{Fetched, TEXT_LIMIT};
use crate::status::{Status, after};
use event_record::{ChoiceFault, ChoiceKind, read_choices};
use std::alloc::Global;
use tower_io::{Fetch, Shelf, Sink, fetch};
use tower_report::{put_bad, put_unread};
use tower_syntax::Choice;

/// The kind of a fault, as its line tells it.
fn kind_text(kind: ChoiceKind) -> &'static str
    ensures { result.now ≡ kind_text kind }
{
    match kind {
        ChoiceKind::Long => "long",
        ChoiceKind::Line => "line",
        ChoiceKind::Many => "many",
    }
}

/// Reads the choices of that name, or their first fault.
fn fetch_choices<F: Shelf>(
    alloc: Global,
    name: &str,
    shelf: &mut F,
) -> Fetched<Vec<Choice>, (u32, ChoiceKind)>
    ensures { IsFetched (shelf_change F.held F.blamed F.faults shelf.old shelf.new) name.now
        (λ text choices. SpellsChoices text choices.items) (λ text at. IsChoiceFault text (fault.At at.0 at.1)) result }
{
    let mut text = Vec::new(alloc);
    match fetch(alloc, shelf, name, TEXT_LIMIT, &mut text) {
        Fetch::Done => {}
        Fetch::Long => return Fetched::Wrong((0, ChoiceKind::Long)),
        Fetch::Failed => return Fetched::Unread,
        Fetch::NoMemory => return Fetched::NoMemory,
    }
    match read_choices(alloc, text.as_slice()) {
        Ok(choices) => Fetched::Valid(choices),
        Err(ChoiceFault::At { line, kind }) => Fetched::Wrong((line, kind)),
        Err(ChoiceFault::NoMemory) => Fetched::NoMemory,
    }
}

/// Reads the choices of that name, and tells where they could not be read or have a fault.
fn read_named<F: Shelf, E: Sink>(
    alloc: Global,
    name: &str,
    shelf: &mut F,
    err: &mut E,
) -> Result<Vec<Choice>, Status>
    ensures { Reads (choices_input name.now) (λ choices. choices.items) (shelf_change F.held F.blamed F.faults shelf.old shelf.new)
        (sink_change E.written E.faults err.old err.new) result }
{
    match fetch_choices(alloc, name, shelf) {
        Fetched::Valid(choices) => Ok(choices),
        Fetched::Wrong((line, kind)) => Err(after(
            put_bad(err, "choices", line, kind_text(kind)),
            Status::BadInput,
        )),
        Fetched::Unread => Err(after(put_unread(err, shelf.blamed()), Status::ReadFault)),
        Fetched::NoMemory => Err(Status::NoMemory),
    }
}

/// Reads the choices of that name, or takes none where no name is given.
pub fn read_given_choices<F: Shelf, E: Sink>(
    alloc: Global,
    name: Option<&str>,
    shelf: &mut F,
    err: &mut E,
) -> Result<Vec<Choice>, Status>
    ensures { ReadsGivenChoices (λ choices. choices.items) (option_map (λ s. s.now) name.entry)
        (shelf_change F.held F.blamed F.faults shelf.old shelf.new) (sink_change E.written E.faults err.old err.new) result }
{
    match name {
        None => Ok(Vec::new(alloc)),
        Some(name) => read_named(alloc, name, shelf, err),
    }
}
