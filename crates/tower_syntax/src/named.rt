ghost use Rattle.std.specs.Prelude.{◌≡◌};
ghost use Rattle.tower_syntax.specs.NamedView.{named_type_of, named_place_of, named_expr_of, named_stmt_of};
ghost use Rattle.tower_syntax.specs.Offset.{link_offset, type_offset, place_offset, expr_offset, stmt_offset};

use crate::raw::Id;
use sqlite_items::{Boxed, Items};
use tower_types::{BinOp, Scalar, UnOp};

/// What a used name names. The numbers count declarations in text order: binders within their callback,
/// emitters within their handler, states within their monitor, and all others over the file, each kind by
/// itself.
#[derive(Clone, Copy, Debug, PartialEq, Eq)]
pub enum Target {
    Record(u32),
    Source(u32),
    Channel(u32),
    Emitter(u32),
    /// The callback's message.
    Param,
    Binder(u32),
    State(u32),
}

/// A used name after it was looked up. `at` is the offset of its atom.
#[derive(Clone, Copy, Debug, PartialEq, Eq)]
pub struct Link {
    pub at: u32,
    pub target: Target,
}

/// A file with each used name looked up, but for the fields after `get`. It has the shape of the file as it
/// is written. Each `at`, here and below, is the offset of the node in the text, and each list
/// is in text order. `version` is 1 or 2.
#[derive(Drop)]
pub struct Named {
    pub at: u32,
    pub version: u8,
    pub name: Id,
    pub items: Items<NamedItem>,
}

/// A part of a file. `depth` is `Some` exactly at a period or signal of a file of version 2.
#[derive(Drop)]
pub enum NamedItem {
    Record {
        at: u32,
        name: Id,
        fields: Items<NamedField>,
    },
    Init {
        at: u32,
        name: Id,
        priority: u8,
    },
    Period {
        at: u32,
        name: Id,
        ms: u32,
        priority: u8,
        depth: Option<u32>,
    },
    Signal {
        at: u32,
        name: Id,
        message: NamedType,
        priority: u8,
        depth: Option<u32>,
    },
    Channel {
        at: u32,
        name: Id,
        message: NamedType,
    },
    Output {
        at: u32,
        name: Id,
        channel: Link,
    },
    Monitor {
        at: u32,
        name: Id,
        parts: Items<NamedPart>,
    },
}

#[derive(Drop)]
pub struct NamedField {
    pub at: u32,
    pub name: Id,
    pub ty: NamedType,
}

/// A part of a monitor.
#[derive(Drop)]
pub enum NamedPart {
    State {
        at: u32,
        name: Id,
        ty: NamedType,
    },
    Handler {
        at: u32,
        name: Id,
        on: Link,
        parts: Items<NamedHpart>,
    },
}

/// A part of a handler.
#[derive(Drop)]
pub enum NamedHpart {
    Emitter {
        at: u32,
        name: Id,
        channel: Link,
        bound: u32,
    },
    Callback {
        at: u32,
        name: Id,
        stmts: Items<NamedStmt>,
    },
}

/// A type: a scalar, a record by its name, or an array.
#[derive(Drop)]
pub enum NamedType {
    Word {
        at: u32,
        scalar: Scalar,
    },
    Rec(Link),
    Array {
        at: u32,
        len: u32,
        item: Boxed<NamedType>,
    },
}

/// A statement. `yes_at` and `no_at` are the offsets of the lists `then` and `else`.
#[derive(Drop)]
pub enum NamedStmt {
    Bind {
        at: u32,
        name: Id,
        value: NamedExpr,
    },
    Local {
        at: u32,
        name: Id,
        ty: NamedType,
    },
    Set {
        at: u32,
        place: NamedPlace,
        value: NamedExpr,
    },
    Copy {
        at: u32,
        to: NamedPlace,
        from: NamedPlace,
    },
    Branch {
        at: u32,
        test: NamedExpr,
        yes_at: u32,
        yes: Items<NamedStmt>,
        no_at: u32,
        no: Items<NamedStmt>,
    },
    Loop {
        at: u32,
        name: Id,
        times: u32,
        body: Items<NamedStmt>,
    },
    Emit {
        at: u32,
        emitter: Link,
        value: NamedExpr,
    },
}

/// A part of a value that has a name: a name, a field of a place, or an element of one.
#[cycle(named)]
#[derive(Drop)]
pub enum NamedPlace {
    Root(Link),
    Get {
        at: u32,
        base: Boxed<NamedPlace>,
        field: Id,
    },
    At {
        at: u32,
        base: Boxed<NamedPlace>,
        index: Boxed<NamedExpr>,
    },
}

#[cycle(named)]
#[derive(Drop)]
pub enum NamedExpr {
    Truth {
        at: u32,
        yes: bool,
    },
    Read(NamedPlace),
    Lit {
        at: u32,
        scalar: Scalar,
        value: i128,
    },
    Un {
        at: u32,
        op: UnOp,
        a: Boxed<NamedExpr>,
    },
    Bin {
        at: u32,
        op: BinOp,
        a: Boxed<NamedExpr>,
        b: Boxed<NamedExpr>,
    },
    Cond {
        at: u32,
        test: Boxed<NamedExpr>,
        yes: Boxed<NamedExpr>,
        no: Boxed<NamedExpr>,
    },
    Cast {
        at: u32,
        ty: NamedType,
        a: Boxed<NamedExpr>,
    },
}

impl NamedType {
    /// The offset of the type.
    pub fn at(&self) -> u32
        ensures { result ≡ type_offset link_offset (named_type_of self.now) }
    {
        match self {
            NamedType::Word { at, .. } | NamedType::Array { at, .. } => *at,
            NamedType::Rec(name) => name.at,
        }
    }
}

impl NamedStmt {
    /// The offset of the statement.
    pub fn at(&self) -> u32
        ensures { result ≡ stmt_offset (named_stmt_of self.now) }
    {
        match self {
            NamedStmt::Bind { at, .. }
            | NamedStmt::Local { at, .. }
            | NamedStmt::Set { at, .. }
            | NamedStmt::Copy { at, .. }
            | NamedStmt::Branch { at, .. }
            | NamedStmt::Loop { at, .. }
            | NamedStmt::Emit { at, .. } => *at,
        }
    }
}

impl NamedPlace {
    /// The offset of the place.
    pub fn at(&self) -> u32
        ensures { result ≡ place_offset link_offset (named_place_of self.now) }
    {
        match self {
            NamedPlace::Root(name) => name.at,
            NamedPlace::Get { at, .. } | NamedPlace::At { at, .. } => *at,
        }
    }
}

impl NamedExpr {
    /// The offset of the expression.
    pub fn at(&self) -> u32
        ensures { result ≡ expr_offset link_offset (named_expr_of self.now) }
    {
        match self {
            NamedExpr::Truth { at, .. }
            | NamedExpr::Lit { at, .. }
            | NamedExpr::Un { at, .. }
            | NamedExpr::Bin { at, .. }
            | NamedExpr::Cond { at, .. }
            | NamedExpr::Cast { at, .. } => *at,
            NamedExpr::Read(place) => place.at(),
        }
    }
}
