//! The statements of a handler.
ghost use Rattle.std.specs.Prelude.{◌≡◌, ◌≤◌, IfOk, codes, length, pos};
ghost use Rattle.tower_types.specs.declared.scalar.Scalar.TheVariants.{U32, Ix};
ghost use Rattle.tower_types.specs.declared.scalar.BinOp.TheVariants.{Add, Mul};
ghost use Rattle.tower_syntax.specs.RawView.{raw_place_of, raw_expr_of, raw_stmt_of, all_raw_stmts_of};
ghost use Rattle.tower_syntax.specs.RawTree.{index, read, lit, bin, set, loop, emit, stmt, no_stmts};
ghost use Rattle.tower_gen.specs.File.{called, own, message, emits, body_with};

use crate::names::{called, own, value};
use sqlite_items::{Boxed, Items};
use std::alloc::Global;
use tower_syntax::{RawExpr, RawPlace, RawStmt, RawType};
use tower_types::{BinOp, NoMemory, Scalar};

/// The cell of `v` with the index that a name stands for.
fn cell(alloc: Global, name: &[u8]) -> Result<RawPlace, NoMemory>
    requires { length name.now ≤ 64 }
    ensures { IfOk result (λ p. raw_place_of p ≡ index 0 (own (codes "v")) (read (own name.now))) }
{
    let base = Boxed::new(alloc, own(alloc, b"v")?)?;
    let index = Boxed::new(alloc, value(alloc, name)?)?;
    Ok(RawPlace::At { at: 0, base, index })
}

/// An operation on two expressions.
fn bin(alloc: Global, op: BinOp, a: RawExpr, b: RawExpr) -> Result<RawExpr, NoMemory>
    ensures { IfOk result (λ e. raw_expr_of e ≡ bin 0 op (raw_expr_of a) (raw_expr_of b)) }
{
    let a = Boxed::new(alloc, a)?;
    let b = Boxed::new(alloc, b)?;
    Ok(RawExpr::Bin { at: 0, op, a, b })
}

/// The message of handler `i`, as a `u32`: that of a period is cast.
fn message(alloc: Global, i: u32) -> Result<RawExpr, NoMemory>
    ensures { IfOk result (λ e. raw_expr_of e ≡ message i) }
{
    let x = value(alloc, b"x")?;
    if i >= 32 {
        return Ok(x);
    }
    let a = Boxed::new(alloc, x)?;
    let ty = RawType::Word {
        at: 0,
        scalar: Scalar::U32,
    };
    Ok(RawExpr::Cast { at: 0, ty, a })
}

/// The message goes into the cell at `pos`.
fn put_message(alloc: Global, i: u32) -> Result<RawStmt, NoMemory>
    ensures { IfOk result (λ s. raw_stmt_of s ≡ set 0 (index 0 (own (codes "v")) (read (own (codes "pos")))) (message i)) }
{
    let place = cell(alloc, b"pos")?;
    let value = message(alloc, i)?;
    Ok(RawStmt::Set {
        at: 0,
        place,
        value,
    })
}

/// `pos` goes on by 1.
fn move_on(alloc: Global) -> Result<RawStmt, NoMemory>
    ensures { IfOk result (λ s. raw_stmt_of s ≡ set 0 (own (codes "pos")) (bin 0 Add (read (own (codes "pos"))) (lit 0 (Ix 8) (pos 1)))) }
{
    let one = RawExpr::Lit {
        at: 0,
        scalar: Scalar::Ix(8),
        value: 1,
    };
    let value = bin(alloc, BinOp::Add, value(alloc, b"pos")?, one)?;
    let place = own(alloc, b"pos")?;
    Ok(RawStmt::Set {
        at: 0,
        place,
        value,
    })
}

/// `a` times the factor.
fn scaled(alloc: Global, factor: u32) -> Result<RawExpr, NoMemory>
    ensures { IfOk result (λ e. raw_expr_of e ≡ bin 0 Mul (read (own (codes "a"))) (lit 0 U32 (pos factor))) }
{
    let factor = RawExpr::Lit {
        at: 0,
        scalar: Scalar::U32,
        value: i128::from(factor),
    };
    bin(alloc, BinOp::Mul, value(alloc, b"a")?, factor)
}

/// One cell is added to `a`, which is first taken times the factor.
fn add_cell(alloc: Global, factor: u32) -> Result<RawStmt, NoMemory>
    ensures { IfOk result (λ s. raw_stmt_of s ≡ set 0 (own (codes "a"))
        (bin 0 Add (bin 0 Mul (read (own (codes "a"))) (lit 0 U32 (pos factor))) (read (index 0 (own (codes "v")) (read (own (codes "i"))))))) }
{
    let cell = RawExpr::Read(cell(alloc, b"i")?);
    let value = bin(alloc, BinOp::Add, scaled(alloc, factor)?, cell)?;
    let place = own(alloc, b"a")?;
    Ok(RawStmt::Set {
        at: 0,
        place,
        value,
    })
}

/// All cells are added to `a`.
fn add_cells(alloc: Global, factor: u32) -> Result<RawStmt, NoMemory>
    ensures { IfOk result (λ s. raw_stmt_of s ≡ loop 0 (called (codes "i")) 8 (stmt (set 0 (own (codes "a"))
        (bin 0 Add (bin 0 Mul (read (own (codes "a"))) (lit 0 U32 (pos factor))) (read (index 0 (own (codes "v")) (read (own (codes "i"))))))) no_stmts)) }
{
    let mut body = Items::new(alloc);
    body.push(add_cell(alloc, factor)?)?;
    let name = called(alloc, b"i")?;
    Ok(RawStmt::Loop {
        at: 0,
        name,
        times: 8,
        body,
    })
}

/// `a` is emitted.
fn emit(alloc: Global) -> Result<RawStmt, NoMemory>
    ensures { IfOk result (λ s. raw_stmt_of s ≡ emit 0 (called (codes "e")) (read (own (codes "a")))) }
{
    let emitter = called(alloc, b"e")?;
    let value = value(alloc, b"a")?;
    Ok(RawStmt::Emit {
        at: 0,
        emitter,
        value,
    })
}

/// The statements of handler `i`.
pub fn body(alloc: Global, factor: u32, i: u32) -> Result<Items<RawStmt>, NoMemory>
    ensures { IfOk result (λ ss. all_raw_stmts_of ss ≡ body_with factor i) }
{
    let mut stmts = Items::new(alloc);
    stmts.push(put_message(alloc, i)?)?;
    stmts.push(move_on(alloc)?)?;
    stmts.push(add_cells(alloc, factor)?)?;
    if i < 56 {
        stmts.push(emit(alloc)?)?;
    }
    Ok(stmts)
}
