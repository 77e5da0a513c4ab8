//! What may be wrong with the names of a file.
use std::alloc::AllocError;
use tower_types::NoMemory;

/// What a name of the file's one set is declared as, or may be.
#[derive(Clone, Copy, Debug, PartialEq, Eq)]
pub enum Sort {
    Record,
    Source,
    Channel,
    SourceOrChannel,
    Output,
    Monitor,
    Handler,
}

/// The first fault of a file's names, or want of memory. `at` is the offset of the name at fault.
#[derive(Clone, Copy, Debug, PartialEq, Eq)]
pub enum NameFault {
    /// A second declaration of a name, with the offset of the first.
    Twice { at: u32, first: u32 },
    /// A use of a name that is not declared there.
    Unknown { at: u32 },
    /// A use of a name that is declared as something else.
    Kind { at: u32, want: Sort, found: Sort },
    NoMemory,
}

impl From<NoMemory> for NameFault {
    ghost use Rattle.std.specs.Prelude.{◌≡◌};
    ghost use Rattle.arch_names.specs.declared.fault.NameFault.TheVariants as fault;

    ghost from_gives = { λ _ e. e ≡ fault.NoMemory };

    fn from(_: NoMemory) -> NameFault {
        NameFault::NoMemory
    }
}

impl From<AllocError> for NameFault {
    ghost use Rattle.std.specs.Prelude.{◌≡◌};
    ghost use Rattle.arch_names.specs.declared.fault.NameFault.TheVariants as fault;

    ghost from_gives = { λ _ e. e ≡ fault.NoMemory };

    fn from(_: AllocError) -> NameFault {
        NameFault::NoMemory
    }
}
