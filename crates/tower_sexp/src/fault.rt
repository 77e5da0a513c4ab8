//! What may be wrong with a text.
use std::alloc::AllocError;

/// The first fault of a text, with its offset, or want of memory.
#[derive(Clone, Copy, Debug, PartialEq, Eq)]
pub enum SexpFault {
    /// A byte outside a comment that is no blank, no bracket, no `;` and not from 21 to 7E.
    Byte { at: u32 },
    /// A `)` with no list unclosed before it.
    Unopened { at: u32 },
    /// A `(` that would make the 257th unclosed list.
    Nest { at: u32 },
    /// The innermost list that is unclosed where the text ends.
    Unclosed { at: u32 },
    /// No node at all.
    Empty,
    NoMemory,
}

impl From<AllocError> for SexpFault {
    ghost use Rattle.std.specs.Prelude.{◌≡◌};
    ghost use Rattle.tower_sexp.specs.declared.fault.SexpFault.TheVariants.{NoMemory};

    ghost from_gives = { λ _ e. e ≡ NoMemory };

    fn from(_: AllocError) -> SexpFault {
        SexpFault::NoMemory
    }
}
