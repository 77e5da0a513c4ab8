//! Names of a generated file. All that is made here has the offset 0.
ghost use Rattle.std.specs.Prelude.{◌≡◌, ◌∷◌, ◌≤◌, IfOk, decimal, length};
ghost use Rattle.tower_syntax.specs.RawView.{id_of, raw_place_of, raw_expr_of};
ghost use Rattle.tower_syntax.specs.RawTree.{read};
ghost use Rattle.tower_gen.specs.File.{called, own};

use itoa::Buffer;
use std::alloc::Global;
use tower_syntax::{Id, RawExpr, RawPlace};
use tower_types::{Name, NoMemory};

/// A name of at most 64 bytes.
pub fn called(alloc: Global, text: &[u8]) -> Result<Id, NoMemory>
    requires { length text.now ≤ 64 }
    ensures { IfOk result (λ id. id_of id ≡ called text.now) }
{
    let name = Name::new(alloc, text)?;
    Ok(Id { at: 0, name })
}

/// A letter with a number behind it.
pub fn numbered(alloc: Global, letter: u8, n: u32) -> Result<Id, NoMemory>
    ensures { IfOk result (λ id. id_of id ≡ called (letter ∷ decimal n)) }
{
    let mut buffer = Buffer::new();
    let mut text = Vec::from_slice(alloc, &[letter])?;
    text.extend_from_slice(buffer.format(n).as_bytes())?;
    called(alloc, text.as_slice())
}

/// A name, as a place.
pub fn own(alloc: Global, name: &[u8]) -> Result<RawPlace, NoMemory>
    requires { length name.now ≤ 64 }
    ensures { IfOk result (λ p. raw_place_of p ≡ own name.now) }
{
    let name = called(alloc, name)?;
    Ok(RawPlace::Root(name))
}

/// What a name stands for.
pub fn value(alloc: Global, name: &[u8]) -> Result<RawExpr, NoMemory>
    requires { length name.now ≤ 64 }
    ensures { IfOk result (λ e. raw_expr_of e ≡ read (own name.now)) }
{
    let place = own(alloc, name)?;
    Ok(RawExpr::Read(place))
}
