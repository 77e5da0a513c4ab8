//! The line that refuses a file.
ghost use Rattle.std.specs.Prelude.{◌≡◌, [], ◌∷◌, codes, decimal};
ghost use Rattle.std.specs.List.{flat_map};
ghost use Rattle.tower_report.specs.Bytes.{line};
ghost use Rattle.tower_report.specs.FaultText.{sort_text, want_text, what_text, round, fault_line};
ghost use Rattle.tower_report.specs.Puts.{Puts, answer_of};

use crate::pieces::{Written, answer, put_line, put_piece, put_spaced};
use arch_checks::{Fault, What};
use arch_names::Sort;
use arch_types::Want;
use itoa::Buffer;
use tower_io::{Put, Sink};
use tower_types::Name;

fn sort_text(sort: Sort) -> &'static [u8]
    ensures { result.now ≡ sort_text sort }
{
    match sort {
        Sort::Record => b"record",
        Sort::Source => b"source",
        Sort::Channel => b"channel",
        Sort::SourceOrChannel => b"source-or-channel",
        Sort::Output => b"output",
        Sort::Monitor => b"monitor",
        Sort::Handler => b"handler",
    }
}

fn want_text(want: &Want) -> &[u8]
    ensures { result.now ≡ want_text want.now }
{
    match want {
        Want::Scalar => b"scalar",
        Want::Number => b"number",
        Want::Unsigned => b"unsigned",
        Want::Array => b"array",
        Want::Record => b"record",
        Want::Exactly(text) => text.bytes(),
    }
}

fn what_text(what: What) -> &'static [u8]
    ensures { result.now ≡ what_text what }
{
    match what {
        What::Sources => b"sources",
        What::Channels => b"channels",
        What::Outputs => b"outputs",
        What::Monitors => b"monitors",
        What::Handlers => b"handlers",
        What::Records => b"records",
        What::Depth => b"depth",
        What::Words => b"words",
        What::Chain => b"chain",
        What::Memory => b"memory",
        What::Code => b"code",
    }
}

/// Puts the line of a fault that has a number.
fn put_one<E: Sink>(err: &mut E, name: &[u8], n: u64) -> Written
    ensures { Puts E.written E.faults err.old err.new (line (codes "refused:" ∷ name.now ∷ decimal n ∷ [])) (answer_of result) }
{
    let mut buffer = Buffer::new();
    let number = buffer.format(n).as_bytes();
    put_line(err, &[b"refused:", name, number])
}

/// Puts the line of a fault that has an offset.
fn put_at<E: Sink>(err: &mut E, name: &[u8], at: u32) -> Written
    ensures { Puts E.written E.faults err.old err.new (line (codes "refused:" ∷ name.now ∷ decimal at ∷ [])) (answer_of result) }
{
    put_one(err, name, u64::from(at))
}

/// Puts the line of a fault that has an offset and a further number.
fn put_two<E: Sink>(err: &mut E, name: &[u8], at: u32, n: u32) -> Written
    ensures { Puts E.written E.faults err.old err.new (line (codes "refused:" ∷ name.now ∷ decimal at ∷ decimal n ∷ [])) (answer_of result) }
{
    let mut at_buffer = Buffer::new();
    let mut buffer = Buffer::new();
    let place = at_buffer.format(at).as_bytes();
    let number = buffer.format(n).as_bytes();
    put_line(err, &[b"refused:", name, place, number])
}

/// Puts the line of a fault at an offset, where one thing is wanted and another was found.
fn put_found<'a, E: Sink>(
    err: &mut E,
    name: &'a [u8],
    at: u32,
    want: &'a [u8],
    found: &'a [u8],
) -> Written
    ensures { Puts E.written E.faults err.old err.new (line (codes "refused:" ∷ name.now ∷ decimal at ∷ want.now ∷ found.now ∷ [])) (answer_of result) }
{
    let mut buffer = Buffer::new();
    let place = buffer.format(at).as_bytes();
    put_line(err, &[b"refused:", name, place, want, found])
}

fn put_bound<E: Sink>(err: &mut E, handler: &Name, emitter: &Name, most: u64, bound: u64) -> Written
    ensures { Puts E.written E.faults err.old err.new (line (codes "refused:" ∷ codes "bound" ∷ handler.now ∷ emitter.now ∷ decimal most ∷ decimal bound ∷ [])) (answer_of result) }
{
    let mut most_buffer = Buffer::new();
    let mut bound_buffer = Buffer::new();
    let most = most_buffer.format(most).as_bytes();
    let bound = bound_buffer.format(bound).as_bytes();
    put_line(
        err,
        &[
            b"refused:",
            b"bound",
            handler.bytes(),
            emitter.bytes(),
            most,
            bound,
        ],
    )
}

fn put_size<E: Sink>(err: &mut E, what: What, count: u64, limit: u64) -> Written
    ensures { Puts E.written E.faults err.old err.new (line (codes "refused:" ∷ codes "size" ∷ what_text what ∷ decimal count ∷ decimal limit ∷ [])) (answer_of result) }
{
    let mut count_buffer = Buffer::new();
    let mut limit_buffer = Buffer::new();
    let count = count_buffer.format(count).as_bytes();
    let limit = limit_buffer.format(limit).as_bytes();
    put_line(err, &[b"refused:", b"size", what_text(what), count, limit])
}

fn put_work<E: Sink>(err: &mut E, source: &Name, cost: u64) -> Written
    ensures { Puts E.written E.faults err.old err.new (line (codes "refused:" ∷ codes "work" ∷ source.now ∷ decimal cost ∷ [])) (answer_of result) }
{
    let mut buffer = Buffer::new();
    let number = buffer.format(cost).as_bytes();
    put_line(err, &[b"refused:", b"work", source.bytes(), number])
}

/// Puts a name after a blank.
fn put_next<E: Sink>(err: &mut E, name: &Name) -> Written
    ensures { Puts E.written E.faults err.old err.new (32 ∷ name.now) (answer_of result) }
{
    put_piece(err, b" ")?;
    put_piece(err, name.bytes())?;
    Ok(())
}

/// Puts names, each after a blank.
fn put_names<E: Sink>(err: &mut E, names: &[Name]) -> Written
    ensures { Puts E.written E.faults err.old err.new (flat_map (λ name. 32 ∷ name) names.now) (answer_of result) }
{
    for name in names {
        put_next(err, name)?;
    }
    Ok(())
}

fn put_cycle<E: Sink>(err: &mut E, source: &Name, walk: &[Name]) -> Written
    ensures { Puts E.written E.faults err.old err.new (line (codes "refused:" ∷ codes "cycle" ∷ source.now ∷ round walk.now)) (answer_of result) }
{
    put_spaced(err, &[b"refused:", b"cycle", source.bytes()])?;
    put_names(err, walk)?;
    let again = walk.len().min(1);
    put_names(err, &walk[..again])?;
    put_piece(err, b"\n")?;
    Ok(())
}

fn put_line_of<E: Sink>(err: &mut E, fault: &Fault) -> Written
    ensures { Puts E.written E.faults err.old err.new (fault_line fault.now) (answer_of result) }
{
    match fault {
        Fault::Long { limit } => put_one(err, b"long", *limit),
        Fault::Byte { at } => put_at(err, b"byte", *at),
        Fault::Unopened { at } => put_at(err, b"unopened", *at),
        Fault::Nest { at } => put_at(err, b"nest", *at),
        Fault::Unclosed { at } => put_at(err, b"unclosed", *at),
        Fault::Empty => put_line(err, &[b"refused:", b"empty"]),
        Fault::Form { at } => put_at(err, b"form", *at),
        Fault::Number { at } => put_at(err, b"number", *at),
        Fault::Length { at } => put_at(err, b"length", *at),
        Fault::Twice { at, first } => put_two(err, b"twice", *at, *first),
        Fault::Unknown { at } => put_at(err, b"unknown", *at),
        Fault::Kind { at, want, found } => {
            put_found(err, b"kind", *at, sort_text(*want), sort_text(*found))
        }
        Fault::Mismatch { at, want, found } => {
            put_found(err, b"mismatch", *at, want_text(want), found.bytes())
        }
        Fault::NotPlace { at } => put_at(err, b"notplace", *at),
        Fault::Field { at } => put_at(err, b"field", *at),
        Fault::Range { at } => put_at(err, b"range", *at),
        Fault::Deep { at, depth } => put_two(err, b"deep", *at, *depth),
        Fault::Bound {
            handler,
            emitter,
            most,
            bound,
        } => put_bound(err, handler, emitter, *most, *bound),
        Fault::Cycle { source, walk } => put_cycle(err, source, walk.as_slice()),
        Fault::Size { what, count, limit } => put_size(err, *what, *count, *limit),
        Fault::Work { source, cost } => put_work(err, source, *cost),
        Fault::NoMemory => put_line(err, &[b"refused:"]),
    }
}

/// Puts the line that refuses a file for a fault. `NoMemory` is no fault of a file, and its line has no name.
pub fn put_fault<E: Sink>(err: &mut E, fault: &Fault) -> Put
    ensures { Puts E.written E.faults err.old err.new (fault_line fault.now) result }
{
    answer(put_line_of(err, fault))
}
