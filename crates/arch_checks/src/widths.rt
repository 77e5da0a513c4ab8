//! The depth and the words of all types of a system. None of it takes memory.
ghost use Rattle.std.specs.Prelude.{◌≡◌, length, map, All};
ghost use Rattle.tower_types.specs.Ty.{shape_in, table_of};
ghost use Rattle.tower_types.specs.View.{ty_of, fields_of};
ghost use Rattle.tower_types.specs.Records.{saturated};
ghost use Rattle.tower_syntax.specs.View.{body_of};
ghost use Rattle.tower_syntax.specs.WellNumbered.{IsNumberedType, AreNumberedFields};
ghost use Rattle.arch_types.specs.Outline.{each};
ghost use Rattle.arch_checks.specs.Sizes.{types_of_fields, bound_types, shapes, greatest};
ghost use Rattle.arch_checks.specs.Measured.{measured, greatest_of};

use tower_syntax::{Arch, Body};
use tower_types::{Name, Ty, depth, words};

/// What of a type counts.
#[derive(Clone, Copy)]
pub(crate) enum Measure {
    Depth,
    Words,
}

fn type_width(arch: &Arch, measure: Measure, t: &Ty) -> u64
    requires { IsNumberedType (length arch.now.records) (ty_of t.now) }
    ensures { result ≡ saturated (measured measure (shape_in (table_of arch.now.records) (ty_of t.now))) }
{
    match measure {
        Measure::Depth => depth(arch.records(), t),
        Measure::Words => words(arch.records(), t),
    }
}

/// The greatest of all fields.
fn fields_width(arch: &Arch, measure: Measure, fields: &[(Name, Ty)]) -> u64
    requires { AreNumberedFields (length arch.now.records) (fields_of fields.now) }
    ensures { result ≡ saturated (greatest_of measure (table_of arch.now.records) (types_of_fields (fields_of fields.now))) }
{
    let mut most: u64 = 0;
    for (_, ty) in fields {
        most = most.max(type_width(arch, measure, ty));
    }
    most
}

/// The greatest of all names that callbacks bind.
fn binders_width(arch: &Arch, measure: Measure, bodies: &[Body]) -> u64
    requires { All (λ b. AreNumberedFields (length arch.now.records) b.binders) (map body_of bodies.now) }
    ensures { result ≡ saturated (greatest_of measure (table_of arch.now.records) (each (λ b. types_of_fields b.binders) (map body_of bodies.now))) }
{
    let mut most: u64 = 0;
    for body in bodies {
        most = most.max(fields_width(arch, measure, body.binders.as_slice()));
    }
    most
}

/// The greatest of all names that the callbacks of all handlers bind.
fn handlers_width(arch: &Arch, measure: Measure) -> u64
    ensures { result ≡ saturated (greatest_of measure (table_of arch.now.records) (each bound_types arch.now.handlers)) }
{
    let mut most: u64 = 0;
    for handler in arch.handlers() {
        most = most.max(binders_width(arch, measure, handler.callbacks.as_slice()));
    }
    most
}

/// The greatest of all states.
fn states_width(arch: &Arch, measure: Measure) -> u64
    ensures { result ≡ saturated (greatest_of measure (table_of arch.now.records) (each (λ m. types_of_fields m.states) arch.now.monitors)) }
{
    let mut most: u64 = 0;
    for monitor in arch.monitors() {
        most = most.max(fields_width(arch, measure, monitor.states.as_slice()));
    }
    most
}

/// The greatest of all messages of channels.
fn channels_width(arch: &Arch, measure: Measure) -> u64
    ensures { result ≡ saturated (greatest_of measure (table_of arch.now.records) (map (λ c. c.message) arch.now.channels)) }
{
    let mut most: u64 = 0;
    for channel in arch.channels() {
        most = most.max(type_width(arch, measure, &channel.message));
    }
    most
}

/// The greatest of all messages of sources.
fn sources_width(arch: &Arch, measure: Measure) -> u64
    ensures { result ≡ saturated (greatest_of measure (table_of arch.now.records) (map (λ s. s.message) arch.now.sources)) }
{
    let mut most: u64 = 0;
    for source in arch.sources() {
        most = most.max(type_width(arch, measure, &source.message));
    }
    most
}

/// The greatest of all records.
fn records_width(arch: &Arch, measure: Measure) -> u64
    ensures { result ≡ saturated (greatest (map (measured measure) (table_of arch.now.records))) }
{
    let mut most: u64 = 0;
    for r in 0..arch.records().len() {
        most = most.max(type_width(arch, measure, &Ty::Rec(r as u32)));
    }
    most
}

/// The greatest depth, or the most words, of all types and records.
pub(crate) fn greatest(arch: &Arch, measure: Measure) -> u64
    ensures { result ≡ saturated (greatest (map (measured measure) (shapes arch.now))) }
{
    let messages = sources_width(arch, measure).max(channels_width(arch, measure));
    let names = states_width(arch, measure).max(handlers_width(arch, measure));
    records_width(arch, measure).max(messages).max(names)
}
