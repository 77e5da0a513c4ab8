//! What an atom at a place is read as.
ghost use Rattle.std.specs.Prelude.{◌≡◌, IfOk, IsOk};
ghost use Rattle.tower_syntax.specs.RawView.{id_of};
ghost use Rattle.tower_reader.specs.Reading.{name_offences, atom_offences, id_of_atom, atom_part};
ghost use Rattle.tower_reader.specs.Machine.{firsts};
ghost use Rattle.tower_reader.specs.View.{seen};

use crate::found::Found;
use crate::part::Part;
use crate::table::Atoms;
use crate::word::{literal_in, number_in, scalar_named, truth_named};
use std::alloc::Global;
use tower_syntax::spelling::is_name;
use tower_syntax::{Id, RawExpr, RawPlace, RawType};
use tower_types::{Name, NoMemory};

/// How many bytes a name may have.
const NAME_LIMIT: usize = 64;

fn name_found(at: u32, text: &[u8]) -> Found
    ensures { result ≡ firsts (name_offences at text.now) }
{
    if !is_name(text) {
        Found::form_alone(at)
    } else if text.len() <= NAME_LIMIT {
        Found::clean()
    } else {
        Found::length_alone(at)
    }
}

/// What is found in an atom where such atoms may stand.
pub(crate) fn atom_found(atoms: Atoms, at: u32, text: &[u8]) -> Found
    ensures { result ≡ firsts (atom_offences atoms at text.now) }
{
    match atoms {
        Atoms::None => Found::form_alone(at),
        Atoms::Name | Atoms::Place => name_found(at, text),
        Atoms::Type => match scalar_named(text) {
            Some(_) => Found::clean(),
            None => name_found(at, text),
        },
        Atoms::Expr => match truth_named(text) {
            Some(_) => Found::clean(),
            None => name_found(at, text),
        },
        Atoms::Number { low, high } => match number_in(low, high, text) {
            Some(_) => Found::clean(),
            None => Found::number_alone(at),
        },
        Atoms::Literal => match literal_in(text) {
            Some(_) => Found::clean(),
            None => Found::number_alone(at),
        },
    }
}

/// The name of an atom; a name that is too long is not kept.
fn id(alloc: Global, at: u32, text: &[u8]) -> Result<Id, NoMemory>
    ensures { IfOk result (λ id. id_of id ≡ id_of_atom at text.now) }
{
    let kept: &[u8] = if text.len() <= NAME_LIMIT { text } else { &[] };
    let name = Name::new(alloc, kept)?;
    Ok(Id { at, name })
}

fn type_part(alloc: Global, at: u32, text: &[u8]) -> Result<Part, NoMemory>
    ensures { IfOk result (λ p. seen p ≡ atom_part Atoms.Type at text.now) }
{
    match scalar_named(text) {
        Some(scalar) => Ok(Part::Type(RawType::Word { at, scalar })),
        None => Ok(Part::Type(RawType::Rec(id(alloc, at, text)?))),
    }
}

fn value_part(alloc: Global, at: u32, text: &[u8]) -> Result<Part, NoMemory>
    ensures { IfOk result (λ p. seen p ≡ atom_part Atoms.Expr at text.now) }
{
    match truth_named(text) {
        Some(yes) => Ok(Part::Expr(RawExpr::Truth { at, yes })),
        None => Ok(Part::Place(RawPlace::Root(id(alloc, at, text)?))),
    }
}

/// The part that an atom is where such atoms may stand.
pub(crate) fn atom_part(alloc: Global, atoms: Atoms, at: u32, text: &[u8]) -> Result<Part, NoMemory>
    ensures part { IfOk result (λ p. seen p ≡ atom_part atoms at text.now) }
    ensures none { atoms ≡ Atoms.None → IsOk result }
{
    match atoms {
        Atoms::None => Ok(Part::Nothing),
        Atoms::Name => Ok(Part::Name(id(alloc, at, text)?)),
        Atoms::Place => Ok(Part::Place(RawPlace::Root(id(alloc, at, text)?))),
        Atoms::Type => type_part(alloc, at, text),
        Atoms::Expr => value_part(alloc, at, text),
        Atoms::Number { low, high } => Ok(Part::Number(number_in(low, high, text).unwrap_or(0))),
        Atoms::Literal => Ok(Part::Literal(literal_in(text).unwrap_or(0))),
    }
}
