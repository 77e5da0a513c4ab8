//! What a profile text says, with its names not yet looked up. An `at` is the offset of the token that says it.
use sqlite_items::Items;
use tower_types::{Name, Scalar};

/// A name.
#[derive(Debug, Drop)]
pub struct Id {
    pub at: u32,
    pub name: Name,
}

/// What arrays are made of: a scalar, or a record by its name.
#[derive(Debug, Drop)]
pub enum Base {
    Scalar(Scalar),
    Record(Name),
}

/// A type: the lengths of its arrays from the outermost on, and what they are made of.
#[derive(Debug, Drop)]
pub struct TypeSaid {
    pub lengths: Items<u32>,
    pub base: Base,
}

/// A field of a record.
#[derive(Debug, Drop)]
pub struct FieldSaid {
    pub at: u32,
    pub name: Name,
    pub ty: TypeSaid,
}

/// One field or more.
#[derive(Debug, Drop)]
pub struct FieldsSaid {
    pub before: Items<FieldSaid>,
    pub last: FieldSaid,
}

/// The type that a channel or a signal carries.
#[derive(Debug, Drop)]
pub struct Carried {
    pub at: u32,
    pub ty: TypeSaid,
}

/// An emitter of a handler: its name, the name of its channel, and its bound.
#[derive(Debug, Drop)]
pub struct EmitterSaid {
    pub at: u32,
    pub name: Name,
    pub channel: Name,
    pub bound: u32,
}

/// One emitter or more.
#[derive(Debug, Drop)]
pub struct EmittersSaid {
    pub before: Items<EmitterSaid>,
    pub last: EmitterSaid,
}

/// One monitor or more.
#[derive(Debug, Drop)]
pub struct TouchesSaid {
    pub before: Items<Id>,
    pub last: Id,
}

/// What a thread is started by.
#[derive(Debug, Drop)]
pub enum Dispatch {
    Init,
    /// Every so many ms.
    Period(u32),
    Signal(Carried),
}

/// The thread of a source. `depth` is `Some` exactly at a period or signal of a text with depths.
#[derive(Debug, Drop)]
pub struct ThreadSaid {
    pub id: Id,
    pub dispatch: Dispatch,
    pub priority: u8,
    pub touches: Option<TouchesSaid>,
    pub depth: Option<u32>,
}

/// A declaration.
#[derive(Debug, Drop)]
pub enum Declared {
    Record {
        id: Id,
        fields: FieldsSaid,
    },
    Channel {
        id: Id,
        carries: Carried,
    },
    Output {
        id: Id,
        hears: Id,
    },
    Handler {
        id: Id,
        part_of: Id,
        hears: Id,
        emits: Option<EmittersSaid>,
    },
    Monitor {
        id: Id,
    },
    Thread(ThreadSaid),
}

/// A whole text. `deep` says whether its property set has the line of depths.
#[derive(Debug, Drop)]
pub struct Said {
    pub deep: bool,
    pub id: Id,
    pub declared: Items<Declared>,
}

/// The groups of declarations, in their order.
#[derive(Clone, Copy, Debug, PartialEq, Eq)]
pub enum Group {
    Records,
    Channels,
    Listeners,
    Monitors,
    Threads,
}
