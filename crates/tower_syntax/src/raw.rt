ghost use Rattle.std.specs.Prelude.{◌≡◌, IfOk};
ghost use Rattle.tower_syntax.specs.RawView.{id_of, raw_type_of, raw_place_of, raw_expr_of, raw_stmt_of};
ghost use Rattle.tower_syntax.specs.Offset.{id_offset, type_offset, place_offset, expr_offset, stmt_offset};

use sqlite_items::{Boxed, Items};
use std::alloc::Global;
use tower_types::{BinOp, Name, NoMemory, Scalar, UnOp};

/// A name as it stands in the text, declared or used. `at` is the offset of its atom.
#[derive(Drop)]
pub struct Id {
    pub at: u32,
    pub name: Name,
}

/// A file as it is written. Each `at`, here and below, is the offset of the node in the text, and each list
/// is in text order. `version` is 1 or 2.
#[derive(Drop)]
pub struct Raw {
    pub at: u32,
    pub version: u8,
    pub name: Id,
    pub items: Items<RawItem>,
}

/// A part of a file. `depth` is `Some` exactly at a period or signal of a file of version 2.
#[derive(Drop)]
pub enum RawItem {
    Record {
        at: u32,
        name: Id,
        fields: Items<RawField>,
    },
    Init {
        at: u32,
        name: Id,
        priority: u8,
    },
    Period {
        at: u32,
        name: Id,
        ms: u32,
        priority: u8,
        depth: Option<u32>,
    },
    Signal {
        at: u32,
        name: Id,
        message: RawType,
        priority: u8,
        depth: Option<u32>,
    },
    Channel {
        at: u32,
        name: Id,
        message: RawType,
    },
    Output {
        at: u32,
        name: Id,
        channel: Id,
    },
    Monitor {
        at: u32,
        name: Id,
        parts: Items<RawPart>,
    },
}

#[derive(Drop)]
pub struct RawField {
    pub at: u32,
    pub name: Id,
    pub ty: RawType,
}

/// A part of a monitor.
#[derive(Drop)]
pub enum RawPart {
    State {
        at: u32,
        name: Id,
        ty: RawType,
    },
    Handler {
        at: u32,
        name: Id,
        on: Id,
        parts: Items<RawHpart>,
    },
}

/// A part of a handler.
#[derive(Drop)]
pub enum RawHpart {
    Emitter {
        at: u32,
        name: Id,
        channel: Id,
        bound: u32,
    },
    Callback {
        at: u32,
        name: Id,
        stmts: Items<RawStmt>,
    },
}

/// A type: a scalar, a record by its name, or an array.
#[derive(Drop)]
pub enum RawType {
    Word {
        at: u32,
        scalar: Scalar,
    },
    Rec(Id),
    Array {
        at: u32,
        len: u32,
        item: Boxed<RawType>,
    },
}

/// A statement. `yes_at` and `no_at` are the offsets of the lists `then` and `else`.
#[derive(Drop)]
pub enum RawStmt {
    Bind {
        at: u32,
        name: Id,
        value: RawExpr,
    },
    Local {
        at: u32,
        name: Id,
        ty: RawType,
    },
    Set {
        at: u32,
        place: RawPlace,
        value: RawExpr,
    },
    Copy {
        at: u32,
        to: RawPlace,
        from: RawPlace,
    },
    Branch {
        at: u32,
        test: RawExpr,
        yes_at: u32,
        yes: Items<RawStmt>,
        no_at: u32,
        no: Items<RawStmt>,
    },
    Loop {
        at: u32,
        name: Id,
        times: u32,
        body: Items<RawStmt>,
    },
    Emit {
        at: u32,
        emitter: Id,
        value: RawExpr,
    },
}

/// A part of a value that has a name: a name, a field of a place, or an element of one.
#[cycle(raw)]
#[derive(Drop)]
pub enum RawPlace {
    Root(Id),
    Get {
        at: u32,
        base: Boxed<RawPlace>,
        field: Id,
    },
    At {
        at: u32,
        base: Boxed<RawPlace>,
        index: Boxed<RawExpr>,
    },
}

#[cycle(raw)]
#[derive(Drop)]
pub enum RawExpr {
    Truth {
        at: u32,
        yes: bool,
    },
    Read(RawPlace),
    Lit {
        at: u32,
        scalar: Scalar,
        value: i128,
    },
    Un {
        at: u32,
        op: UnOp,
        a: Boxed<RawExpr>,
    },
    Bin {
        at: u32,
        op: BinOp,
        a: Boxed<RawExpr>,
        b: Boxed<RawExpr>,
    },
    Cond {
        at: u32,
        test: Boxed<RawExpr>,
        yes: Boxed<RawExpr>,
        no: Boxed<RawExpr>,
    },
    Cast {
        at: u32,
        ty: RawType,
        a: Boxed<RawExpr>,
    },
}

impl Id {
    /// The same name at the same offset.
    pub fn copy(&self, alloc: Global) -> Result<Id, NoMemory>
        ensures { IfOk result (λ id. id_of id ≡ id_of self.now) }
    {
        let name = self.name.copy(alloc)?;
        Ok(Id { at: self.at, name })
    }
}

impl RawType {
    /// The offset of the type.
    pub fn at(&self) -> u32
        ensures { result ≡ type_offset id_offset (raw_type_of self.now) }
    {
        match self {
            RawType::Word { at, .. } | RawType::Array { at, .. } => *at,
            RawType::Rec(name) => name.at,
        }
    }
}

impl RawStmt {
    /// The offset of the statement.
    pub fn at(&self) -> u32
        ensures { result ≡ stmt_offset (raw_stmt_of self.now) }
    {
        match self {
            RawStmt::Bind { at, .. }
            | RawStmt::Local { at, .. }
            | RawStmt::Set { at, .. }
            | RawStmt::Copy { at, .. }
            | RawStmt::Branch { at, .. }
            | RawStmt::Loop { at, .. }
            | RawStmt::Emit { at, .. } => *at,
        }
    }
}

impl RawPlace {
    /// The offset of the place.
    pub fn at(&self) -> u32
        ensures { result ≡ place_offset id_offset (raw_place_of self.now) }
    {
        match self {
            RawPlace::Root(name) => name.at,
            RawPlace::Get { at, .. } | RawPlace::At { at, .. } => *at,
        }
    }
}

impl RawExpr {
    /// The offset of the expression.
    pub fn at(&self) -> u32
        ensures { result ≡ expr_offset id_offset (raw_expr_of self.now) }
    {
        match self {
            RawExpr::Truth { at, .. }
            | RawExpr::Lit { at, .. }
            | RawExpr::Un { at, .. }
            | RawExpr::Bin { at, .. }
            | RawExpr::Cond { at, .. }
            | RawExpr::Cast { at, .. } => *at,
            RawExpr::Read(place) => place.at(),
        }
    }
}
