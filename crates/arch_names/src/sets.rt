//! The sets of names of a file, filled before the uses are gone through.
ghost use Rattle.std.specs.Prelude.{◌≡◌, ◌+◌, ◌++◌, ◌∷◌, [], map, OnOk, IfOk};
ghost use Rattle.tower_syntax.specs.RawView.{id_of, raw_field_of, raw_hpart_of, raw_part_of, raw_item_of};
ghost use Rattle.arch_names.specs.Names.{find};
ghost use Rattle.arch_names.specs.Sets.{declared_as, each, fields_of, emitter_of, next_emitter, emitters_of, state_of, next_state, states_of, handler_of, declared_by, counted, declared_in};

use crate::names::{Counts, Declared, Names, Thing};
use std::alloc::Global;
use tower_syntax::{Id, RawField, RawHpart, RawItem, RawPart, Target};
use tower_types::NoMemory;

/// Declares a name as something.
fn declare<T: Copy>(alloc: Global, names: &mut Names<T>, id: &Id, what: T) -> Result<(), NoMemory>
    ensures { OnOk result (find names.new ≡ find (names.old ++ declared_as (id_of id.now) what ∷ [])) }
{
    let declared = Declared { at: id.at, what };
    names.declare(alloc, &id.name, declared)?;
    Ok(())
}

/// One more.
fn next(number: u32) -> Result<u32, NoMemory>
    ensures { IfOk result (λ n. n ≡ number + 1) }
{
    match number.checked_add(1) {
        Some(number) => Ok(number),
        None => Err(NoMemory),
    }
}

/// The fields of a record.
pub fn field_names(alloc: Global, fields: &[RawField]) -> Result<Names<()>, NoMemory>
    ensures { IfOk result (λ names. find names ≡ find (fields_of (map raw_field_of fields.now))) }
{
    let mut names = Names::new(alloc);
    for field in fields {
        declare(alloc, &mut names, &field.name, ())?;
    }
    Ok(names)
}

fn add_emitter(
    alloc: Global,
    names: &mut Names<Target>,
    number: u32,
    part: &RawHpart,
) -> Result<u32, NoMemory>
    ensures names { OnOk result (find names.new ≡ find (names.old ++ emitter_of number (raw_hpart_of part.now))) }
    ensures number { IfOk result (λ n. n ≡ next_emitter number (raw_hpart_of part.now)) }
{
    match part {
        RawHpart::Emitter { name, .. } => {
            let after = next(number)?;
            declare(alloc, names, name, Target::Emitter(number))?;
            Ok(after)
        }
        RawHpart::Callback { .. } => Ok(number),
    }
}

/// The emitters of a handler.
pub fn emitter_names(alloc: Global, parts: &[RawHpart]) -> Result<Names<Target>, NoMemory>
    ensures { IfOk result (λ names. find names ≡ find (emitters_of (map raw_hpart_of parts.now))) }
{
    let mut names = Names::new(alloc);
    let mut number = 0;
    for part in parts {
        number = add_emitter(alloc, &mut names, number, part)?;
    }
    Ok(names)
}

fn add_state(
    alloc: Global,
    names: &mut Names<Target>,
    number: u32,
    part: &RawPart,
) -> Result<u32, NoMemory>
    ensures names { OnOk result (find names.new ≡ find (names.old ++ state_of number (raw_part_of part.now))) }
    ensures number { IfOk result (λ n. n ≡ next_state number (raw_part_of part.now)) }
{
    match part {
        RawPart::State { name, .. } => {
            let after = next(number)?;
            declare(alloc, names, name, Target::State(number))?;
            Ok(after)
        }
        RawPart::Handler { .. } => Ok(number),
    }
}

/// The states of a monitor.
pub fn state_names(alloc: Global, parts: &[RawPart]) -> Result<Names<Target>, NoMemory>
    ensures { IfOk result (λ names. find names ≡ find (states_of (map raw_part_of parts.now))) }
{
    let mut names = Names::new(alloc);
    let mut number = 0;
    for part in parts {
        number = add_state(alloc, &mut names, number, part)?;
    }
    Ok(names)
}

fn add_handler(alloc: Global, names: &mut Names<Thing>, part: &RawPart) -> Result<(), NoMemory>
    ensures { OnOk result (find names.new ≡ find (names.old ++ handler_of (raw_part_of part.now))) }
{
    match part {
        RawPart::State { .. } => Ok(()),
        RawPart::Handler { name, .. } => {
            declare(alloc, names, name, Thing::Handler)?;
            Ok(())
        }
    }
}

fn add_handlers(alloc: Global, names: &mut Names<Thing>, parts: &[RawPart]) -> Result<(), NoMemory>
    ensures { OnOk result (find names.new ≡ find (names.old ++ each handler_of (map raw_part_of parts.now))) }
{
    for part in parts {
        add_handler(alloc, names, part)?;
    }
    Ok(())
}

fn add_source(
    alloc: Global,
    names: &mut Names<Thing>,
    counts: Counts,
    id: &Id,
) -> Result<Counts, NoMemory>
    ensures names { OnOk result (find names.new ≡ find (names.old ++ declared_as (id_of id.now) (Thing.Source counts.sources) ∷ [])) }
    ensures counts { IfOk result (λ n. n ≡ record counts { sources = counts.sources + 1 }) }
{
    let sources = next(counts.sources)?;
    declare(alloc, names, id, Thing::Source(counts.sources))?;
    Ok(Counts { sources, ..counts })
}

fn add_item(
    alloc: Global,
    names: &mut Names<Thing>,
    counts: Counts,
    item: &RawItem,
) -> Result<Counts, NoMemory>
    ensures names { OnOk result (find names.new ≡ find (names.old ++ declared_by counts (raw_item_of item.now))) }
    ensures counts { IfOk result (λ n. n ≡ counted counts (raw_item_of item.now)) }
{
    match item {
        RawItem::Record { name, .. } => {
            let records = next(counts.records)?;
            declare(alloc, names, name, Thing::Record(counts.records))?;
            Ok(Counts { records, ..counts })
        }
        RawItem::Init { name, .. } => Ok(add_source(alloc, names, counts, name)?),
        RawItem::Period { name, .. } => Ok(add_source(alloc, names, counts, name)?),
        RawItem::Signal { name, .. } => Ok(add_source(alloc, names, counts, name)?),
        RawItem::Channel { name, .. } => {
            let channels = next(counts.channels)?;
            declare(alloc, names, name, Thing::Channel(counts.channels))?;
            Ok(Counts { channels, ..counts })
        }
        RawItem::Output { name, .. } => {
            declare(alloc, names, name, Thing::Output)?;
            Ok(counts)
        }
        RawItem::Monitor { name, parts, .. } => {
            declare(alloc, names, name, Thing::Monitor)?;
            add_handlers(alloc, names, parts.as_slice())?;
            Ok(counts)
        }
    }
}

/// The file's one set: the names of its items, and the handlers of each monitor behind it.
pub fn file_names(alloc: Global, items: &[RawItem]) -> Result<Names<Thing>, NoMemory>
    ensures { IfOk result (λ names. find names ≡ find (declared_in (map raw_item_of items.now))) }
{
    let mut names = Names::new(alloc);
    let mut counts = Counts {
        records: 0,
        sources: 0,
        channels: 0,
    };
    for item in items {
        counts = add_item(alloc, &mut names, counts, item)?;
    }
    Ok(names)
}
