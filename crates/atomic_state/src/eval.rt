//! The values of expressions and places.
ghost use Rattle.std.specs.Prelude.{◌≡◌, ◌∷◌, IfOk, IsTrue, MatchOption, unsigned_abs};
ghost use Rattle.std.specs.Option.{option_copied};
ghost use Rattle.tower_types.specs.Value.{num, part, fits_scalar, has_numbers};
ghost use Rattle.tower_types.specs.Arithmetic.{applies, applies_one, binary_of, unary_of, is_number, wrap_to};
ghost use Rattle.tower_types.specs.View.{value_of};
ghost use Rattle.tower_syntax.specs.Tree.{Steps, read};
ghost use Rattle.tower_syntax.specs.View.{expr_of, place_of};
ghost use Rattle.tower_meaning.specs.Body.{expr_value, place_value, path_of};
ghost use Rattle.tower_meaning.specs.Fitting.{IsNumber, IsPath, IsPlace, IsValue};
ghost use Rattle.atomic_state.specs.FrameView.{env_of};
ghost use Rattle.atomic_state.specs.Places.{step_of, steps_in, IsNoRead};
ghost use Rattle.atomic_state.specs.TreeView.{tree_of, seen};

use crate::frame::Frame;
use crate::tree::Tree;
use std::alloc::Global;
use tower_syntax::{Expr, Place, PlaceStep};
use tower_types::{
    BinOp, NoMemory, Scalar, UnOp, Value, applies, applies_one, binary, fits_scalar, has_numbers,
    is_number, unary, wrap,
};

/// An operation on a number. Where it has none of the scalar's numbers, as never in a typed system, it gives 0.
fn operate_one(op: UnOp, t: Scalar, a: i128) -> i128
    ensures { IsTrue (applies_one op t) → IsTrue (fits_scalar t a) → result ≡ unary_of op t a }
{
    if applies_one(op, t) && fits_scalar(t, a) {
        unary(op, t, a)
    } else {
        0
    }
}

/// The same of two numbers.
fn operate(op: BinOp, t: Scalar, a: i128, b: i128) -> i128
    ensures { IsTrue (applies op t) → IsTrue (fits_scalar t a) → IsTrue (fits_scalar t b) → result ≡ binary_of op t a b }
{
    if applies(op, t) && fits_scalar(t, a) && fits_scalar(t, b) {
        binary(op, t, a, b)
    } else {
        0
    }
}

/// A number wrapped to a scalar, which in a typed system is a number and has some.
fn convert(t: Scalar, a: i128) -> i128
    ensures { IsTrue (is_number t) → IsTrue (has_numbers t) → result ≡ wrap_to t a }
{
    if is_number(t) && has_numbers(t) {
        wrap(t, a)
    } else {
        0
    }
}

/// The number of an expression that is one.
#[cycle(eval)]
pub fn number(e: &Expr, frame: &Frame) -> i128
    ensures { IsNumber (env_of frame.now) (expr_of e.now) → result ≡ num (expr_value (env_of frame.now) (expr_of e.now)) }
{
    match e {
        Expr::Lit(_, n) => *n,
        Expr::Read(p) => number_of(place(p, frame)),
        Expr::Un(op, t, a) => {
            let a = number(a.get(), frame);
            operate_one(*op, *t, a)
        }
        Expr::Bin(op, t, a, b) => {
            let a = number(a.get(), frame);
            let b = number(b.get(), frame);
            operate(*op, *t, a, b)
        }
        Expr::Cond(c, a, b) => {
            if number(c.get(), frame) != 0 {
                number(a.get(), frame)
            } else {
                number(b.get(), frame)
            }
        }
        Expr::Cast(t, a) => {
            let a = number(a.get(), frame);
            convert(*t, a)
        }
    }
}

/// The value at a place. A number 0 may be left out.
#[cycle(eval)]
pub fn place<'a>(p: &Place, frame: &'a Frame) -> Option<&'a Tree>
    ensures { IsPlace (env_of frame.now) (place_of p.now) → seen (option_copied result) ≡ place_value (env_of frame.now) (place_of p.now) }
{
    let mut part = frame.root(p.root);
    for step in p.steps.as_slice() {
        let k = index(step, frame);
        part = part_in(part, k);
    }
    part
}

/// The number of the part that a step leads to.
#[cycle(eval)]
fn index(step: &PlaceStep, frame: &Frame) -> u128
    ensures { (rest : Steps) → IsPath (env_of frame.now) (step_of step.now rest) →
        (path_of (env_of frame.now) (step_of step.now rest) ≡ result ∷ path_of (env_of frame.now) rest) × IsPath (env_of frame.now) rest }
{
    match step {
        PlaceStep::Field(k) => u128::from(*k),
        PlaceStep::At(e) => number(e, frame).unsigned_abs(),
    }
}

fn number_of(part: Option<&Tree>) -> i128
    ensures { result ≡ num (seen (option_copied part.entry)) }
{
    match part {
        Some(tree) => tree.number(),
        None => 0,
    }
}

fn part_in(whole: Option<&Tree>, k: u128) -> Option<&Tree>
    ensures { seen (option_copied result) ≡ part k (seen (option_copied whole.entry)) }
{
    match whole {
        Some(tree) => tree.part(k),
        None => None,
    }
}

/// The numbers of the parts that a place leads through.
pub fn path(alloc: Global, p: &Place, frame: &Frame) -> Result<Vec<u128>, NoMemory>
    ensures { IfOk result (λ ks. IsPlace (env_of frame.now) (place_of p.now) → ks.items ≡ path_of (env_of frame.now) (steps_in (place_of p.now))) }
{
    let mut path = Vec::new(alloc);
    for step in p.steps.as_slice() {
        let k = index(step, frame);
        path.push(k)?;
    }
    Ok(path)
}

/// A tree of the value at a place.
pub fn copy_at(alloc: Global, p: &Place, frame: &Frame) -> Result<Tree, NoMemory>
    ensures { IfOk result (λ t. IsPlace (env_of frame.now) (place_of p.now) → tree_of t ≡ place_value (env_of frame.now) (place_of p.now)) }
{
    match place(p, frame) {
        Some(tree) => tree.copy(alloc),
        None => Ok(Tree::Word(0)),
    }
}

fn value_at(alloc: Global, p: &Place, frame: &Frame) -> Result<Value, NoMemory>
    ensures { IfOk result (λ v. IsPlace (env_of frame.now) (place_of p.now) → value_of v ≡ place_value (env_of frame.now) (place_of p.now)) }
{
    match place(p, frame) {
        Some(tree) => tree.value(alloc),
        None => Ok(Value::Word(0)),
    }
}

/// The place that an expression reads, if it is one.
fn read_place(e: &Expr) -> Option<&Place>
    ensures { MatchOption result (IsNoRead (expr_of e.now)) (λ p. expr_of e.now ≡ read (place_of p.now)) }
{
    match e {
        Expr::Read(p) => Some(p),
        Expr::Lit(_, _) => None,
        Expr::Un(_, _, _) => None,
        Expr::Bin(_, _, _, _) => None,
        Expr::Cond(_, _, _) => None,
        Expr::Cast(_, _) => None,
    }
}

/// The value of an expression that is a number or a place.
pub fn value(alloc: Global, e: &Expr, frame: &Frame) -> Result<Value, NoMemory>
    ensures { IfOk result (λ v. IsValue (env_of frame.now) (expr_of e.now) → value_of v ≡ expr_value (env_of frame.now) (expr_of e.now)) }
{
    match read_place(e) {
        Some(p) => value_at(alloc, p, frame),
        None => Ok(Value::Word(number(e, frame))),
    }
}
