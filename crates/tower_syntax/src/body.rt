use sqlite_items::{Boxed, Items};
use tower_types::{BinOp, Name, Scalar, Ty, UnOp};

/// Where a place begins: the callback's message, one of its binders, or a state of its monitor.
#[derive(Clone, Copy, Debug, PartialEq, Eq)]
pub enum Root {
    Param,
    Binder(u32),
    State(u32),
}

/// One step into a value: a field of a record by its number, or an element of an array.
#[cycle(tree)]
#[derive(Drop)]
pub enum PlaceStep {
    Field(u32),
    At(Expr),
}

/// A part of a value that has a name.
#[cycle(tree)]
#[derive(Drop)]
pub struct Place {
    pub root: Root,
    pub steps: Items<PlaceStep>,
}

/// An expression. Each scalar is the type at which the operation is done.
#[cycle(tree)]
#[derive(Drop)]
pub enum Expr {
    Lit(Scalar, i128),
    Read(Place),
    Un(UnOp, Scalar, Boxed<Expr>),
    Bin(BinOp, Scalar, Boxed<Expr>, Boxed<Expr>),
    Cond(Boxed<Expr>, Boxed<Expr>, Boxed<Expr>),
    Cast(Scalar, Boxed<Expr>),
}

/// A statement. The first number of `Bind`, `Local` and `Loop` is a binder of the callback, the second of
/// `Loop` is the number of turns, and that of `Emit` is an emitter of the handler.
#[derive(Drop)]
pub enum Stmt {
    Bind(u32, Expr),
    Local(u32),
    Set(Place, Expr),
    Copy(Place, Place),
    Branch(Expr, Items<Stmt>, Items<Stmt>),
    Loop(u32, u32, Items<Stmt>),
    Emit(u32, Expr),
}

/// A callback: its name for the message, the names that it binds in text order, and its statements.
#[derive(Drop)]
pub struct Body {
    pub param: Name,
    pub binders: Items<(Name, Ty)>,
    pub stmts: Items<Stmt>,
}
