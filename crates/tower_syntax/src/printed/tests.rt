//! The lines of small files.

use super::{line_of, print, scalar_text};
use crate::raw::{Id, Raw, RawExpr, RawHpart, RawItem, RawPart, RawPlace, RawStmt, RawType};
use sqlite_items::{Boxed, Items};
use std::alloc::Global;
use std::test::Fail;
use tower_types::{BinOp, Name, NoMemory, Scalar};

fn one<T: Drop>(alloc: Global, first: T) -> Result<Items<T>, NoMemory> {
    let mut items = Items::new(alloc);
    items.push(first)?;
    Ok(items)
}

fn two<T: Drop>(alloc: Global, first: T, second: T) -> Result<Items<T>, NoMemory> {
    let mut items = one(alloc, first)?;
    items.push(second)?;
    Ok(items)
}

/// A name, cut at 64 bytes.
fn id(alloc: Global, name: &[u8]) -> Result<Id, NoMemory> {
    let name = Name::new(alloc, &name[..name.len().min(64)])?;
    Ok(Id { at: 0, name })
}

fn root(alloc: Global, name: &[u8]) -> Result<RawPlace, NoMemory> {
    Ok(RawPlace::Root(id(alloc, name)?))
}

/// `(set PLACE (+ PLACE VALUE))`.
fn increase(alloc: Global, place: &[u8], value: RawExpr) -> Result<RawStmt, NoMemory> {
    let a = Boxed::new(alloc, RawExpr::Read(root(alloc, place)?))?;
    let b = Boxed::new(alloc, value)?;
    let place = root(alloc, place)?;
    let value = RawExpr::Bin {
        at: 0,
        op: BinOp::Add,
        a,
        b,
    };
    Ok(RawStmt::Set {
        at: 0,
        place,
        value,
    })
}

/// A handler with one callback of one statement.
fn handler(
    alloc: Global,
    name: &[u8],
    on: &[u8],
    param: &[u8],
    stmt: RawStmt,
) -> Result<RawPart, NoMemory> {
    let stmts = one(alloc, stmt)?;
    let callback = RawHpart::Callback {
        at: 0,
        name: id(alloc, param)?,
        stmts,
    };
    let parts = one(alloc, callback)?;
    Ok(RawPart::Handler {
        at: 0,
        name: id(alloc, name)?,
        on: id(alloc, on)?,
        parts,
    })
}

/// A monitor with one state and one handler.
fn monitor(
    alloc: Global,
    name: &[u8],
    state: &[u8],
    scalar: Scalar,
    handler: RawPart,
) -> Result<RawItem, NoMemory> {
    let ty = RawType::Word { at: 0, scalar };
    let state = RawPart::State {
        at: 0,
        name: id(alloc, state)?,
        ty,
    };
    let parts = two(alloc, state, handler)?;
    Ok(RawItem::Monitor {
        at: 0,
        name: id(alloc, name)?,
        parts,
    })
}

fn clock(alloc: Global) -> Result<Raw, NoMemory> {
    let by_one = RawExpr::Lit {
        at: 0,
        scalar: Scalar::U32,
        value: 1,
    };
    let tick = handler(
        alloc,
        b"tick",
        b"beat",
        b"t",
        increase(alloc, b"n", by_one)?,
    )?;
    let count = monitor(alloc, b"count", b"n", Scalar::U32, tick)?;
    let beat = RawItem::Period {
        at: 0,
        name: id(alloc, b"beat")?,
        ms: 10,
        priority: 5,
        depth: None,
    };
    let items = two(alloc, beat, count)?;
    Ok(Raw {
        at: 0,
        version: 1,
        name: id(alloc, b"clock")?,
        items,
    })
}

fn burst(alloc: Global) -> Result<Raw, NoMemory> {
    let message = RawExpr::Read(root(alloc, b"v")?);
    let handler = handler(alloc, b"h", b"s", b"v", increase(alloc, b"x", message)?)?;
    let monitor = monitor(alloc, b"m", b"x", Scalar::U8, handler)?;
    let name = id(alloc, b"s")?;
    let message = RawType::Word {
        at: 0,
        scalar: Scalar::U8,
    };
    let signal = RawItem::Signal {
        at: 0,
        name,
        message,
        priority: 1,
        depth: Some(2),
    };
    let items = two(alloc, signal, monitor)?;
    Ok(Raw {
        at: 0,
        version: 2,
        name: id(alloc, b"burst")?,
        items,
    })
}

#[test]
fn prints_a_file_with_no_items(rt: HostRuntime) -> Result<(), Fail> {
    let name = Name::new(rt.alloc(), b"none")?;
    let raw = Raw {
        at: 0,
        version: 1,
        name: Id { at: 7, name },
        items: Items::new(rt.alloc()),
    };
    let line = print(rt.alloc(), &raw)?;
    assert_eq!(rt; line.as_str(), "(tower none)");
    Ok(())
}

#[test]
fn prints_files_of_both_versions(rt: HostRuntime) -> Result<(), Fail> {
    let line = line_of(rt.alloc(), &clock(rt.alloc())?)?;
    let text =
        "(tower clock (period beat 10 5) (monitor count (state n u32) (handler tick beat (callback t (set n (+ n (u32 1)))))))";
    assert_eq!(rt; line.as_slice(), text.as_bytes());
    let line = line_of(rt.alloc(), &burst(rt.alloc())?)?;
    let text =
        "(tower2 burst (signal s u8 1 2) (monitor m (state x u8) (handler h s (callback v (set x (+ x v))))))";
    assert_eq!(rt; line.as_slice(), text.as_bytes());
    Ok(())
}

#[test]
fn names_scalars(rt: HostRuntime) -> Result<(), Fail> {
    for (scalar, text) in [
        (Scalar::Bool, "bool"),
        (Scalar::I64, "i64"),
        (Scalar::Ix(65_536), "(ix 65536)"),
    ] {
        assert_eq!(rt;
            scalar_text(rt.alloc(), scalar)?.bytes(),
            text.as_bytes(),
            "at {text}"
        );
    }
    Ok(())
}
