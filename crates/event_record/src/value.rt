//! Values as they are written: whether a text spells one, and the value that it is at a type.
ghost use Rattle.std.specs.Prelude.{◌≡◌, length, All, IfOk, false, Some};
ghost use Rattle.tower_types.specs.Ty.{shape_of, table_of};
ghost use Rattle.tower_types.specs.View.{ty_of, fields_of, all_values_of};
ghost use Rattle.tower_types.specs.Records.{IsTypeAmong};
ghost use Rattle.event_record.specs.Tokens.{tokens};
ghost use Rattle.event_record.specs.Written.{depth_limit, literal_at};
ghost use Rattle.event_record.specs.Scanned.{may_begin, makes_value, take_literal, closed, take_each, take_values, take_value, whole_value, is_none};
ghost use Rattle.event_record.specs.Scanned.{shapes_at};
ghost use Rattle.event_record.specs.Made.{IsTaken, IsMade, Opens};

use crate::number::{is_literal, literal_in};
use crate::token::{Ahead, first_token};
use sqlite_items::Items;
use std::alloc::Global;
use tower_types::{Name, NoMemory, Records, Scalar, Ty, Value, fits_scalar};

/// How deep a value may be.
const DEPTH_LIMIT: u32 = 32;

fn may_begin(depth: u32, whole: bool) -> bool
    ensures { result ≡ may_begin depth whole }
{
    !whole && depth < DEPTH_LIMIT
}

/// Whether the text spells a value that is at most 32 deep.
pub(crate) fn is_value(text: &[u8]) -> bool
    ensures { result ≡ makes_value 0 false (tokens text.now) }
{
    let mut rest = text;
    let mut depth = 0;
    let mut whole = false;
    loop {
        match first_token(rest) {
            Ahead::End => return depth == 0 && whole,
            Ahead::Stray => return false,
            Ahead::Left(behind) => {
                if !may_begin(depth, whole) {
                    return false;
                }
                depth += 1;
                rest = behind;
            }
            Ahead::Right(behind) => {
                if depth == 0 {
                    return false;
                }
                depth -= 1;
                whole = depth == 0;
                rest = behind;
            }
            Ahead::Atom(word, behind) => {
                if !may_begin(depth, whole) || !is_literal(word) {
                    return false;
                }
                whole = depth == 0;
                rest = behind;
            }
        }
    }
}

/// A value, and the text behind it.
#[derive(Drop)]
struct Taken<'a> {
    value: Value,
    rest: &'a [u8],
}

/// The value of a literal at a scalar.
fn literal_at(s: Scalar, text: &[u8]) -> Option<Value>
    ensures { IsMade (literal_at s text.now) result }
{
    if s == Scalar::Bool {
        return truth_at(text);
    }
    let n = literal_in(text)?;
    if fits_scalar(s, n) {
        Some(Value::Word(n))
    } else {
        None
    }
}

fn truth_at(text: &[u8]) -> Option<Value>
    ensures { IsMade (literal_at Scalar.Bool text.now) result }
{
    if text == b"true".as_slice() {
        Some(Value::Word(1))
    } else if text == b"false".as_slice() {
        Some(Value::Word(0))
    } else {
        None
    }
}

/// The value of the scalar that the text begins with.
fn take_literal(s: Scalar, text: &[u8]) -> Option<Taken<'_>>
    ensures { IsTaken (take_literal s (tokens text.now)) result }
{
    match first_token(text) {
        Ahead::Atom(word, rest) => {
            let value = literal_at(s, word)?;
            Some(Taken { value, rest })
        }
        Ahead::End => None,
        Ahead::Left(_) => None,
        Ahead::Right(_) => None,
        Ahead::Stray => None,
    }
}

/// The text behind the bracket that opens a list, where one comes first.
fn opened(text: &[u8]) -> Option<&[u8]>
    ensures { Opens (tokens text.now) result }
{
    match first_token(text) {
        Ahead::Left(rest) => Some(rest),
        Ahead::End => None,
        Ahead::Atom(_, _) => None,
        Ahead::Right(_) => None,
        Ahead::Stray => None,
    }
}

/// The value of the type that the text begins with.
#[cycle(take)]
fn take_value<'a>(
    alloc: Global,
    text: &'a [u8],
    records: &Records,
    t: &Ty,
) -> Result<Option<Taken<'a>>, NoMemory>
    requires { IsTypeAmong (length records.now) (ty_of t.now) }
    ensures { IfOk result (IsTaken (take_value (shape_of records.now (ty_of t.now)) (tokens text.now))) }
{
    match t {
        Ty::Scalar(s) => Ok(take_literal(*s, text)),
        Ty::Array(len, element) => match opened(text) {
            Some(inside) => take_array(alloc, inside, records, *len, element.get()),
            None => Ok(None),
        },
        Ty::Rec(r) => {
            let fields = records.fields(*r);
            match opened(text) {
                Some(inside) => take_record(alloc, inside, records, fields),
                None => Ok(None),
            }
        }
    }
}

/// The list of parts, where it ends here.
fn closed(parts: Items<Value>, text: &[u8]) -> Option<Taken<'_>>
    ensures { IsTaken (closed (Some (all_values_of parts, tokens text.now))) result }
{
    match first_token(text) {
        Ahead::Right(rest) => {
            let value = Value::Parts(parts);
            Some(Taken { value, rest })
        }
        Ahead::End => None,
        Ahead::Left(_) => None,
        Ahead::Atom(_, _) => None,
        Ahead::Stray => None,
    }
}

/// An array of `len` elements of the type, behind its bracket.
#[cycle(take)]
fn take_array<'a>(
    alloc: Global,
    text: &'a [u8],
    records: &Records,
    len: u32,
    t: &Ty,
) -> Result<Option<Taken<'a>>, NoMemory>
    requires { IsTypeAmong (length records.now) (ty_of t.now) }
    ensures { IfOk result (IsTaken (closed (take_each len (take_value (shape_of records.now (ty_of t.now))) (tokens text.now)))) }
{
    let mut parts = Items::new(alloc);
    let mut rest = text;
    for _i in 0..len {
        match take_value(alloc, rest, records, t)? {
            None => return Ok(None),
            Some(taken) => {
                let Taken {
                    value,
                    rest: behind,
                } = taken;
                parts.push(value)?;
                rest = behind;
            }
        }
    }
    Ok(closed(parts, rest))
}

/// A record with these fields, behind its bracket.
#[cycle(take)]
fn take_record<'a>(
    alloc: Global,
    text: &'a [u8],
    records: &Records,
    fields: &[(Name, Ty)],
) -> Result<Option<Taken<'a>>, NoMemory>
    requires { All (λ f. IsTypeAmong (length records.now) f.1) (fields_of fields.now) }
    ensures { IfOk result (IsTaken (closed (take_values (shapes_at (table_of records.now) fields.now) (tokens text.now)))) }
{
    let mut parts = Items::new(alloc);
    let mut rest = text;
    for (_, t) in fields {
        match take_value(alloc, rest, records, t)? {
            None => return Ok(None),
            Some(taken) => {
                let Taken {
                    value,
                    rest: behind,
                } = taken;
                parts.push(value)?;
                rest = behind;
            }
        }
    }
    Ok(closed(parts, rest))
}

/// Whether no token comes.
fn is_at_end(text: &[u8]) -> bool
    ensures { result ≡ is_none (tokens text.now) }
{
    match first_token(text) {
        Ahead::End => true,
        Ahead::Left(_) => false,
        Ahead::Right(_) => false,
        Ahead::Atom(_, _) => false,
        Ahead::Stray => false,
    }
}

/// The value of the type that the text is.
pub(crate) fn value_of(
    alloc: Global,
    text: &[u8],
    records: &Records,
    t: &Ty,
) -> Result<Option<Value>, NoMemory>
    requires { IsTypeAmong (length records.now) (ty_of t.now) }
    ensures { IfOk result (IsMade (whole_value (take_value (shape_of records.now (ty_of t.now)) (tokens text.now)))) }
{
    match take_value(alloc, text, records, t)? {
        None => Ok(None),
        Some(Taken { value, rest }) => {
            if is_at_end(rest) {
                Ok(Some(value))
            } else {
                Ok(None)
            }
        }
    }
}
