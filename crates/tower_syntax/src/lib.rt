//! The trees of a file: as it is written, with its names numbered, and accepted.
#![tactic(auto)]

mod arch;
mod body;
mod event;
pub mod laws;
mod named;
mod printed;
mod raw;
pub mod spelling;
mod words;

pub use arch::{
    Arch, ArchParts, Channel, Emitter, Handler, Listener, Monitor, On, Output, Source, SourceKind,
};
pub use body::{Body, Expr, Place, PlaceStep, Root, Stmt};
pub use event::{Choice, Entry, Events, Mark};
pub use named::{
    Link, Named, NamedExpr, NamedField, NamedHpart, NamedItem, NamedPart, NamedPlace, NamedStmt,
    NamedType, Target,
};
pub use printed::{print, scalar_text};
pub use raw::{Id, Raw, RawExpr, RawField, RawHpart, RawItem, RawPart, RawPlace, RawStmt, RawType};
pub use words::{binary_word, scalar_word, tower_word, truth_word, unary_word};
