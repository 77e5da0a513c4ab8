//! The monitors of a generated file, each with its handler.
ghost use Rattle.std.specs.Prelude.{◌≡◌, ◌<◌, ◌≤◌, IfOk, length, map};
ghost use Rattle.tower_syntax.specs.RawView.{id_of, raw_type_of, raw_hpart_of, raw_part_of, raw_item_of};
ghost use Rattle.tower_types.specs.declared.scalar.Scalar.TheVariants.{U32};
ghost use Rattle.tower_syntax.specs.RawTree.{word, array, state};
ghost use Rattle.tower_gen.specs.File.{called, heard, told, source_use, emitter_on, callback_with, hparts_with, handler_with, parts_with, monitor_with};

use crate::body::body;
use crate::names::{called, numbered};
use sqlite_items::{Boxed, Items};
use std::alloc::Global;
use tower_syntax::{Id, RawHpart, RawItem, RawPart, RawType};
use tower_types::{NoMemory, Scalar};

/// A state.
fn state(alloc: Global, name: &[u8], ty: RawType) -> Result<RawPart, NoMemory>
    requires { length name.now ≤ 64 }
    ensures { IfOk result (λ p. raw_part_of p ≡ state 0 (called name.now) (raw_type_of ty)) }
{
    let name = called(alloc, name)?;
    Ok(RawPart::State { at: 0, name, ty })
}

/// The channel that handler `i`, one behind the first 32, hears.
fn heard(i: u32) -> u32
    requires { 32 ≤ i }
    ensures { result ≡ heard i }
{
    let place = i - 32;
    4 * (place / 8) + place % 8 % 4
}

/// The channel that handler `i`, one of the first 56, emits on.
fn told(i: u32) -> u32
    requires { i < 56 }
    ensures { result ≡ told i }
{
    if i < 32 {
        return i % 4;
    }
    let place = i - 32;
    4 * (place / 8) + 4 + place % 8 / 2
}

/// The period or the channel that handler `i` hears.
fn source(alloc: Global, i: u32) -> Result<Id, NoMemory>
    ensures { IfOk result (λ id. id_of id ≡ called (source_use i)) }
{
    if i < 32 {
        numbered(alloc, b'p', i)
    } else {
        numbered(alloc, b'c', heard(i))
    }
}

/// The emitter of handler `i`.
fn emitter(alloc: Global, i: u32) -> Result<RawHpart, NoMemory>
    requires { i < 56 }
    ensures { IfOk result (λ p. raw_hpart_of p ≡ emitter_on (told i)) }
{
    let channel = numbered(alloc, b'c', told(i))?;
    let name = called(alloc, b"e")?;
    Ok(RawHpart::Emitter {
        at: 0,
        name,
        channel,
        bound: 1,
    })
}

/// The callback of handler `i`.
fn callback(alloc: Global, factor: u32, i: u32) -> Result<RawHpart, NoMemory>
    ensures { IfOk result (λ p. raw_hpart_of p ≡ callback_with factor i) }
{
    let stmts = body(alloc, factor, i)?;
    let name = called(alloc, b"x")?;
    Ok(RawHpart::Callback { at: 0, name, stmts })
}

/// The parts of handler `i`.
fn hparts(alloc: Global, factor: u32, i: u32) -> Result<Items<RawHpart>, NoMemory>
    ensures { IfOk result (λ ps. map raw_hpart_of ps ≡ hparts_with factor i) }
{
    let mut parts = Items::new(alloc);
    if i < 56 {
        parts.push(emitter(alloc, i)?)?;
    }
    parts.push(callback(alloc, factor, i)?)?;
    Ok(parts)
}

/// Handler `i`.
fn handler(alloc: Global, factor: u32, i: u32) -> Result<RawPart, NoMemory>
    ensures { IfOk result (λ p. raw_part_of p ≡ handler_with factor i) }
{
    let parts = hparts(alloc, factor, i)?;
    let name = numbered(alloc, b'h', i)?;
    let on = source(alloc, i)?;
    Ok(RawPart::Handler {
        at: 0,
        name,
        on,
        parts,
    })
}

/// The type of `v`: 8 words.
fn cells(alloc: Global) -> Result<RawType, NoMemory>
    ensures { IfOk result (λ t. raw_type_of t ≡ array 0 8 (word 0 U32)) }
{
    let item = Boxed::new(
        alloc,
        RawType::Word {
            at: 0,
            scalar: Scalar::U32,
        },
    )?;
    Ok(RawType::Array {
        at: 0,
        len: 8,
        item,
    })
}

/// A type of one word.
fn word(scalar: Scalar) -> RawType
    ensures { raw_type_of result ≡ word 0 scalar }
{
    RawType::Word { at: 0, scalar }
}

/// The parts of monitor `i`.
fn parts(alloc: Global, factor: u32, i: u32) -> Result<Items<RawPart>, NoMemory>
    ensures { IfOk result (λ ps. map raw_part_of ps ≡ parts_with factor i) }
{
    let mut parts = Items::new(alloc);
    parts.push(state(alloc, b"a", word(Scalar::U32))?)?;
    parts.push(state(alloc, b"v", cells(alloc)?)?)?;
    parts.push(state(alloc, b"pos", word(Scalar::Ix(8)))?)?;
    parts.push(handler(alloc, factor, i)?)?;
    Ok(parts)
}

/// Monitor `i`, whose handler has this factor.
pub fn monitor(alloc: Global, factor: u32, i: u32) -> Result<RawItem, NoMemory>
    ensures { IfOk result (λ x. raw_item_of x ≡ monitor_with factor i) }
{
    let parts = parts(alloc, factor, i)?;
    let name = numbered(alloc, b'm', i)?;
    Ok(RawItem::Monitor { at: 0, name, parts })
}
