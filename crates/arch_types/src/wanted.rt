//! What is asked of a node's type.
ghost use Rattle.std.specs.Prelude.{◌≡◌, IfOk};
ghost use Rattle.arch_types.specs.Wanted.{wanted, wanted_one, fulfils, shown, misfit, exactly};
ghost use Rattle.arch_types.specs.Seen.{view, type_in};
ghost use Rattle.arch_types.specs.Walk.{Passes};

use crate::fault::{TypeFault, Want};
use crate::lent::TypeRef;
use crate::text::type_text;
use std::alloc::Global;
use tower_types::{BinOp, Name, NoMemory, Scalar, UnOp, is_number, is_unsigned};

/// What the type table asks, but for a type that another node has.
#[derive(Clone, Copy, Debug, PartialEq, Eq)]
pub enum Asked {
    Scalar,
    Number,
    Unsigned,
    Truth,
    Array,
    Record,
}

/// What an operation asks of its first operand. Where that is so, a second one is to have the type of the first.
pub fn operand(op: BinOp) -> Asked
    ensures { view result ≡ wanted op }
{
    match op {
        BinOp::And | BinOp::Or | BinOp::Xor => Asked::Unsigned,
        BinOp::Eq => Asked::Scalar,
        BinOp::Both | BinOp::Either => Asked::Truth,
        _ => Asked::Number,
    }
}

/// What an operation on one operand asks of it.
pub fn only_operand(op: UnOp) -> Asked
    ensures { view result ≡ wanted_one op }
{
    match op {
        UnOp::Not => Asked::Truth,
        UnOp::Neg => Asked::Number,
    }
}

fn fulfils(asked: Asked, ty: TypeRef) -> bool
    ensures { result ≡ fulfils (view asked) (type_in ty.entry) }
{
    match (asked, ty) {
        (Asked::Scalar, TypeRef::Scalar(_)) => true,
        (Asked::Number, TypeRef::Scalar(s)) => is_number(s),
        (Asked::Unsigned, TypeRef::Scalar(s)) => is_unsigned(s),
        (Asked::Truth, TypeRef::Scalar(s)) => s == Scalar::Bool,
        (Asked::Array, TypeRef::Array(_, _)) => true,
        (Asked::Record, TypeRef::Rec(_)) => true,
        _ => false,
    }
}

fn shown(alloc: Global, names: &[Name], asked: Asked) -> Result<Want, NoMemory>
    ensures { IfOk result (λ w. w ≡ shown names.now (view asked)) }
{
    Ok(match asked {
        Asked::Scalar => Want::Scalar,
        Asked::Number => Want::Number,
        Asked::Unsigned => Want::Unsigned,
        Asked::Array => Want::Array,
        Asked::Record => Want::Record,
        Asked::Truth => Want::Exactly(type_text(alloc, names, TypeRef::Scalar(Scalar::Bool))?),
    })
}

/// The type of a node at an offset has to be of a kind.
pub fn ask(
    alloc: Global,
    names: &[Name],
    at: u32,
    asked: Asked,
    found: TypeRef,
) -> Result<(), TypeFault>
    ensures { Passes (misfit names.now at (view asked) (type_in found.entry)) result }
{
    if fulfils(asked, found) {
        return Ok(());
    }
    let want = shown(alloc, names, asked)?;
    let found = type_text(alloc, names, found)?;
    Err(TypeFault::Mismatch { at, want, found })
}

/// The type of a node at an offset has to be exactly this.
pub fn ask_same(
    alloc: Global,
    names: &[Name],
    at: u32,
    wanted: TypeRef,
    found: TypeRef,
) -> Result<(), TypeFault>
    ensures { Passes (misfit names.now at (exactly (type_in wanted.entry)) (type_in found.entry)) result }
{
    if wanted.same(found) {
        return Ok(());
    }
    let wanted = type_text(alloc, names, wanted)?;
    let found = type_text(alloc, names, found)?;
    Err(TypeFault::Mismatch {
        at,
        want: Want::Exactly(wanted),
        found,
    })
}
