//! What may be wrong with a text.
ghost use Rattle.std.specs.Prelude.{◌≡◌};
ghost use Rattle.tower_reader.specs.Verdict.{fault_of};

use std::alloc::AllocError;
use tower_sexp::SexpFault;
use tower_types::NoMemory;

/// The first fault of a text, with its offset, or want of memory.
#[derive(Clone, Copy, Debug, PartialEq, Eq)]
pub enum ReadFault {
    /// More bytes than the limit.
    Long { limit: u64 },
    /// A byte outside a comment that is no blank, no bracket, no `;` and not from 21 to 7E.
    Byte { at: u32 },
    /// A `)` with no list unclosed before it.
    Unopened { at: u32 },
    /// A `(` that would make the 257th unclosed list.
    Nest { at: u32 },
    /// The innermost list that is unclosed where the text ends.
    Unclosed { at: u32 },
    /// No node at all.
    Empty,
    /// A node for which its place has no row and no atom.
    Form { at: u32 },
    /// An atom that is no number of the range of its place.
    Number { at: u32 },
    /// A name of more than 64 bytes.
    Length { at: u32 },
    NoMemory,
}

/// A fault of the tokens.
pub(crate) fn fault_of(fault: SexpFault) -> ReadFault
    ensures { result ≡ fault_of fault }
{
    match fault {
        SexpFault::Byte { at } => ReadFault::Byte { at },
        SexpFault::Unopened { at } => ReadFault::Unopened { at },
        SexpFault::Nest { at } => ReadFault::Nest { at },
        SexpFault::Unclosed { at } => ReadFault::Unclosed { at },
        SexpFault::Empty => ReadFault::Empty,
        SexpFault::NoMemory => ReadFault::NoMemory,
    }
}

impl From<AllocError> for ReadFault {
    ghost use Rattle.std.specs.Prelude.{◌≡◌};
    ghost use Rattle.tower_reader.specs.declared.fault.ReadFault.TheVariants.{NoMemory};

    ghost from_gives = { λ _ e. e ≡ NoMemory };

    fn from(_: AllocError) -> ReadFault {
        ReadFault::NoMemory
    }
}

impl From<NoMemory> for ReadFault {
    ghost use Rattle.std.specs.Prelude.{◌≡◌};
    ghost use Rattle.tower_reader.specs.declared.fault.ReadFault.TheVariants.{NoMemory};

    ghost from_gives = { λ _ e. e ≡ NoMemory };

    fn from(_: NoMemory) -> ReadFault {
        ReadFault::NoMemory
    }
}
