//! What a callback sees.
ghost use Rattle.std.specs.Prelude.{◌≡◌, map, slice_index_or, IfOk};
ghost use Rattle.tower_types.specs.View.{ty_of, fields_of};
ghost use Rattle.tower_syntax.specs.NamedView.{named_type_of, named_place_of};
ghost use Rattle.tower_syntax.specs.View.{arch_of, emitter_of};
ghost use Rattle.arch_types.specs.Typing.{type_of, no_type, root_at};
ghost use Rattle.arch_types.specs.Body.{base};
ghost use Rattle.arch_types.specs.File.{message_on, messages};
ghost use Rattle.arch_types.specs.Walk.{type_at, known_type, may_write_among};
ghost use Rattle.arch_types.specs.Seen.{known, states_in, type_in};

use crate::lent::TypeRef;
use sqlite_items::Items;
use std::alloc::Global;
use tower_syntax::{ArchParts, Emitter, NamedPlace, NamedType, On, Root, Target};
use tower_types::{Name, NoMemory, Scalar, Ty};

/// What a handler's callbacks see at their beginning: their monitor, the type of the message, and the emitters.
#[derive(Drop)]
pub struct Scope<'a> {
    pub monitor: u32,
    pub message: TypeRef<'a>,
    pub emitters: Items<Emitter>,
}

/// The names that a callback has bound so far with their types, and whether each may be written.
#[derive(Drop)]
pub struct Bound {
    pub names: Items<(Name, Ty)>,
    pub writable: Items<bool>,
}

/// The type that stands where none is known.
fn no_type<'a>() -> TypeRef<'a>
    ensures { type_in result ≡ no_type }
{
    TypeRef::Scalar(Scalar::Bool)
}

/// The type that is written in a file.
pub fn type_of(alloc: Global, ty: &NamedType) -> Result<Ty, NoMemory>
    ensures { IfOk result (λ t. ty_of t ≡ type_of (named_type_of ty.now)) }
{
    match ty {
        NamedType::Word { scalar, .. } => Ok(Ty::Scalar(*scalar)),
        NamedType::Rec(link) => Ok(Ty::Rec(match link.target {
            Target::Record(r) => r,
            _ => 0,
        })),
        NamedType::Array { len, item, .. } => {
            let item = type_of(alloc, item.get())?;
            Ty::array(alloc, *len, item)
        }
    }
}

fn field_type(fields: &[(Name, Ty)], k: u32) -> TypeRef<'_>
    ensures { type_in result ≡ type_at (fields_of fields.now) k }
{
    match fields.get(k as usize) {
        Some((_, ty)) => TypeRef::of(ty),
        None => no_type(),
    }
}

fn state_type(system: &ArchParts, m: u32, k: u32) -> TypeRef<'_>
    ensures { type_in result ≡ type_at (states_in system.now m) k }
{
    match system.monitors.get(m as usize) {
        Some(monitor) => field_type(monitor.states.as_slice(), k),
        None => no_type(),
    }
}

/// The type of a name.
pub fn name_type<'a>(
    system: &'a ArchParts,
    scope: &Scope<'a>,
    bound: &'a Bound,
    target: Target,
) -> TypeRef<'a>
    ensures { type_in result ≡ known_type (known (arch_of system.now) scope.now bound.now) target }
{
    match target {
        Target::Param => scope.message,
        Target::Binder(b) => field_type(bound.names.as_slice(), b),
        Target::State(k) => state_type(system, scope.monitor, k),
        _ => no_type(),
    }
}

/// A name in the checked tree.
pub fn root_at(target: Target) -> Root
    ensures { result ≡ root_at target }
{
    match target {
        Target::Binder(b) => Root::Binder(b),
        Target::State(k) => Root::State(k),
        _ => Root::Param,
    }
}

/// Whether a name may be written.
pub fn writable(bound: &Bound, target: Target) -> bool
    ensures { result ≡ may_write_among bound.now.writable target }
{
    match target {
        Target::Binder(b) => match bound.writable.get(b as usize) {
            Some(writable) => *writable,
            None => false,
        },
        Target::State(_) => true,
        _ => false,
    }
}

/// The name that a place begins with.
pub fn base(place: &NamedPlace) -> Target
    ensures { result ≡ base (named_place_of place.now) }
{
    match place {
        NamedPlace::Root(link) => link.target,
        NamedPlace::Get { base: whole, .. } | NamedPlace::At { base: whole, .. } => {
            base(whole.get())
        }
    }
}

/// The type of the messages of a source or channel.
pub fn message_on(system: &ArchParts, on: On) -> TypeRef<'_>
    ensures { type_in result ≡ message_on (arch_of system.now) on }
{
    match on {
        On::Source(s) => match system.sources.get(s as usize) {
            Some(source) => TypeRef::of(&source.message),
            None => no_type(),
        },
        On::Channel(c) => match system.channels.get(c as usize) {
            Some(channel) => TypeRef::of(&channel.message),
            None => no_type(),
        },
    }
}

/// The type of the messages of an emitter.
pub fn emitter_message<'a>(system: &'a ArchParts, scope: &Scope, k: u32) -> TypeRef<'a>
    ensures { type_in result ≡ slice_index_or (messages (arch_of system.now) (map emitter_of scope.now.emitters)) k no_type }
{
    match scope.emitters.get(k as usize) {
        Some(emitter) => message_on(system, On::Channel(emitter.channel)),
        None => no_type(),
    }
}
