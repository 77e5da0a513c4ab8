//! The rows of the type table: a node by its children, whose types are known.
ghost use Rattle.std.specs.Prelude.{◌≡◌};
ghost use Rattle.tower_syntax.specs.RawView.{id_of};
ghost use Rattle.tower_syntax.specs.View.{place_of};
ghost use Rattle.arch_types.specs.Typing.{place_from};
ghost use Rattle.arch_types.specs.Walk.{Gives, literal, read_row, un_row, bin_row, choose_row, cast_row, field_found, field_of_type, get_row, index_fits, index_row, Passes};
ghost use Rattle.arch_types.specs.Seen.{expr_in, place_in, type_in};

use crate::fault::TypeFault;
use crate::lent::TypeRef;
use crate::system::System;
use crate::wanted::{Asked, ask, ask_same, only_operand, operand};
use sqlite_items::{Boxed, Items};
use std::alloc::Global;
use tower_syntax::{Expr, Id, Place, PlaceStep, Root};
use tower_types::{BinOp, Name, Scalar, UnOp, binary_scalar, fits_scalar};

/// An expression of the checked tree with its type.
#[derive(Drop)]
pub struct TypedExpr<'a> {
    pub tree: Expr,
    pub ty: TypeRef<'a>,
}

/// A place of the checked tree with its type.
#[derive(Drop)]
pub struct TypedPlace<'a> {
    pub root: Root,
    pub steps: Items<PlaceStep>,
    pub ty: TypeRef<'a>,
}

impl TypedPlace<'_> {
    /// The place without its type.
    pub fn place(self) -> Place
        ensures { place_of result ≡ place_from (place_in self.entry).path }
    {
        Place {
            root: self.root,
            steps: self.steps,
        }
    }
}

/// A literal at an offset.
pub fn literal<'a>(at: u32, scalar: Scalar, value: i128) -> Result<TypedExpr<'a>, TypeFault>
    ensures { Gives expr_in (literal at scalar value) result }
{
    if fits_scalar(scalar, value) {
        Ok(TypedExpr {
            tree: Expr::Lit(scalar, value),
            ty: TypeRef::Scalar(scalar),
        })
    } else {
        Err(TypeFault::Range { at })
    }
}

/// A place that is read.
pub fn read_row<'a>(place: TypedPlace<'a>) -> TypedExpr<'a>
    ensures { expr_in result ≡ read_row (place_in place.entry) }
{
    let ty = place.ty;
    let place = place.place();
    TypedExpr {
        tree: Expr::Read(place),
        ty,
    }
}

/// An operation on one operand, which stands at an offset.
pub fn un_row<'a>(
    alloc: Global,
    names: &[Name],
    op: UnOp,
    at: u32,
    a: TypedExpr<'a>,
) -> Result<TypedExpr<'a>, TypeFault>
    ensures { Gives expr_in (un_row names.now op at (expr_in a.entry)) result }
{
    ask(alloc, names, at, only_operand(op), a.ty)?;
    let scalar = a.ty.scalar();
    let tree = Boxed::new(alloc, a.tree)?;
    Ok(TypedExpr {
        tree: Expr::Un(op, scalar, tree),
        ty: a.ty,
    })
}

/// An operation on two operands, each with its offset.
pub fn bin_row<'a>(
    alloc: Global,
    names: &[Name],
    op: BinOp,
    first_at: u32,
    a: TypedExpr,
    second_at: u32,
    b: TypedExpr,
) -> Result<TypedExpr<'a>, TypeFault>
    ensures { Gives expr_in (bin_row names.now op first_at (expr_in a.entry) second_at (expr_in b.entry)) result }
{
    ask(alloc, names, first_at, operand(op), a.ty)?;
    ask_same(alloc, names, second_at, a.ty, b.ty)?;
    let scalar = a.ty.scalar();
    let first = Boxed::new(alloc, a.tree)?;
    let second = Boxed::new(alloc, b.tree)?;
    Ok(TypedExpr {
        tree: Expr::Bin(op, scalar, first, second),
        ty: TypeRef::Scalar(binary_scalar(op, scalar)),
    })
}

/// A choice between two scalars; each expression with its offset.
pub fn choose_row<'a>(
    alloc: Global,
    names: &[Name],
    test: (u32, TypedExpr),
    yes: (u32, TypedExpr<'a>),
    no: (u32, TypedExpr),
) -> Result<TypedExpr<'a>, TypeFault>
    ensures { Gives expr_in (choose_row names.now test.entry.0 (expr_in test.entry.1) yes.entry.0 (expr_in yes.entry.1) no.entry.0 (expr_in no.entry.1)) result }
{
    let (test_at, test) = test;
    let (yes_at, yes) = yes;
    let (no_at, no) = no;
    ask(alloc, names, test_at, Asked::Truth, test.ty)?;
    ask(alloc, names, yes_at, Asked::Scalar, yes.ty)?;
    ask_same(alloc, names, no_at, yes.ty, no.ty)?;
    let test = Boxed::new(alloc, test.tree)?;
    let first = Boxed::new(alloc, yes.tree)?;
    let second = Boxed::new(alloc, no.tree)?;
    Ok(TypedExpr {
        tree: Expr::Cond(test, first, second),
        ty: yes.ty,
    })
}

/// A cast of a number to a type; both with their offsets.
pub fn cast_row<'a>(
    alloc: Global,
    names: &[Name],
    to_at: u32,
    to: TypeRef,
    at: u32,
    a: TypedExpr,
) -> Result<TypedExpr<'a>, TypeFault>
    ensures { Gives expr_in (cast_row names.now to_at (type_in to.entry) at (expr_in a.entry)) result }
{
    ask(alloc, names, to_at, Asked::Number, to)?;
    ask(alloc, names, at, Asked::Number, a.ty)?;
    let scalar = to.scalar();
    let tree = Boxed::new(alloc, a.tree)?;
    Ok(TypedExpr {
        tree: Expr::Cast(scalar, tree),
        ty: TypeRef::Scalar(scalar),
    })
}

/// The first field of a name in a value of this type, with its place.
fn field_of_type<'a>(
    system: &System<'a>,
    ty: TypeRef,
    field: &Id,
) -> Result<(u32, TypeRef<'a>), TypeFault>
    ensures { Gives (λ f. (f.0, type_in f.1)) (field_found field.now.at (field_of_type system.now.records (type_in ty.entry) field.now.name)) result }
{
    match ty {
        TypeRef::Rec(r) => match system.field(r, &field.name) {
            Some(found) => Ok(found),
            None => Err(TypeFault::Field { at: field.at }),
        },
        _ => Err(TypeFault::Field { at: field.at }),
    }
}

/// A field of a place, which stands at an offset.
pub fn get_row<'a>(
    alloc: Global,
    system: &System<'a>,
    at: u32,
    base: TypedPlace,
    field: &Id,
) -> Result<TypedPlace<'a>, TypeFault>
    ensures { Gives place_in (get_row system.now.record_names system.now.records at (place_in base.entry) (id_of field.now)) result }
{
    let names = system.parts().record_names.as_slice();
    ask(alloc, names, at, Asked::Record, base.ty)?;
    let (k, ty) = field_of_type(system, base.ty, field)?;
    let TypedPlace {
        root,
        mut steps,
        ..
    } = base;
    steps.push(PlaceStep::Field(k))?;
    Ok(TypedPlace { root, steps, ty })
}

/// The index has to be one of the array.
fn ask_index(
    alloc: Global,
    names: &[Name],
    whole: TypeRef,
    at: u32,
    found: TypeRef,
) -> Result<(), TypeFault>
    ensures { Passes (index_fits names.now (type_in whole.entry) at (type_in found.entry)) result }
{
    match whole {
        TypeRef::Array(len, _) => {
            ask_same(alloc, names, at, TypeRef::Scalar(Scalar::Ix(len)), found)?;
            Ok(())
        }
        _ => Ok(()),
    }
}

/// An element of a place; the place and the index with their offsets.
pub fn index_row<'a>(
    alloc: Global,
    names: &[Name],
    at: u32,
    base: TypedPlace<'a>,
    index_at: u32,
    index: TypedExpr,
) -> Result<TypedPlace<'a>, TypeFault>
    ensures { Gives place_in (index_row names.now at (place_in base.entry) index_at (expr_in index.entry)) result }
{
    ask(alloc, names, at, Asked::Array, base.ty)?;
    ask_index(alloc, names, base.ty, index_at, index.ty)?;
    let TypedPlace {
        root,
        mut steps,
        ty,
    } = base;
    steps.push(PlaceStep::At(index.tree))?;
    Ok(TypedPlace {
        root,
        steps,
        ty: ty.element(),
    })
}
