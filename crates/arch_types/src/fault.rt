//! What may be wrong with the types of a file.
use std::alloc::AllocError;
use tower_types::{NoMemory, Text};

/// What is wanted of a type. A record may be called `number`, so these are no texts.
#[derive(Debug, Drop)]
pub enum Want {
    Scalar,
    Number,
    Unsigned,
    Array,
    Record,
    /// The type with this text.
    Exactly(Text),
}

/// The first fault of a file's types, or want of memory. `at` is the offset of the node at fault.
#[derive(Debug, Drop)]
pub enum TypeFault {
    /// A node whose type is not what is wanted of it.
    Mismatch { at: u32, want: Want, found: Text },
    /// A place that may only be read, where one is written.
    NotPlace { at: u32 },
    /// A field that the record has not.
    Field { at: u32 },
    /// A literal that its type has not.
    Range { at: u32 },
    /// An expression or place that is too high.
    Deep { at: u32, depth: u32 },
    NoMemory,
}

impl From<NoMemory> for TypeFault {
    ghost use Rattle.std.specs.Prelude.{◌≡◌};
    ghost use Rattle.arch_types.specs.declared.fault.TypeFault.TheVariants as fault;

    ghost from_gives = { λ _ e. e ≡ fault.NoMemory };

    fn from(_: NoMemory) -> TypeFault {
        TypeFault::NoMemory
    }
}

impl From<AllocError> for TypeFault {
    ghost use Rattle.std.specs.Prelude.{◌≡◌};
    ghost use Rattle.arch_types.specs.declared.fault.TypeFault.TheVariants as fault;

    ghost from_gives = { λ _ e. e ≡ fault.NoMemory };

    fn from(_: AllocError) -> TypeFault {
        TypeFault::NoMemory
    }
}
