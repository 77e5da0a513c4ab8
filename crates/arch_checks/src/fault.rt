//! What may be wrong with a file.
ghost use Rattle.std.specs.Prelude.{◌≡◌};
ghost use Rattle.arch_checks.specs.Faults.{of_read, of_name, of_type};

use arch_names::{NameFault, Sort};
use arch_types::{TypeFault, Want};
use sqlite_items::Items;
use tower_reader::ReadFault;
use tower_types::{Name, NoMemory, Text};

/// What of a file has a limit, in the order in which the limits are looked at.
#[derive(Clone, Copy, Debug, PartialEq, Eq)]
pub enum What {
    Sources,
    Channels,
    Outputs,
    Monitors,
    Handlers,
    Records,
    /// The greatest depth of a type.
    Depth,
    /// The words of the widest type.
    Words,
    /// The handlers on the longest walk from a source.
    Chain,
    Memory,
    Code,
}

/// The first fault of a file, or want of memory. `at` is the offset of the byte or node at fault, in bytes from the
/// start of the text. A count is 2^64 - 1 where it is greater.
#[derive(Debug, Drop)]
pub enum Fault {
    /// More bytes than the limit.
    Long {
        limit: u64,
    },
    /// A byte outside a comment that is no blank, no bracket, no `;` and not from 21 to 7E.
    Byte {
        at: u32,
    },
    /// A `)` with no list unclosed before it.
    Unopened {
        at: u32,
    },
    /// A `(` that would make the 257th unclosed list.
    Nest {
        at: u32,
    },
    /// The innermost list that is unclosed where the text ends.
    Unclosed {
        at: u32,
    },
    /// No node at all.
    Empty,
    /// A node for which its place has no row and no atom.
    Form {
        at: u32,
    },
    /// An atom that is no number of the range of its place.
    Number {
        at: u32,
    },
    /// A name of more than 64 bytes.
    Length {
        at: u32,
    },
    /// A second declaration of a name, with the offset of the first.
    Twice {
        at: u32,
        first: u32,
    },
    /// A use of a name that is not declared there.
    Unknown {
        at: u32,
    },
    /// A use of a name that is declared as something else.
    Kind {
        at: u32,
        want: Sort,
        found: Sort,
    },
    /// A node whose type is not what is wanted of it.
    Mismatch {
        at: u32,
        want: Want,
        found: Text,
    },
    /// A place that may only be read, where one is written.
    NotPlace {
        at: u32,
    },
    /// A field that the record has not.
    Field {
        at: u32,
    },
    /// A literal that its type has not.
    Range {
        at: u32,
    },
    /// An expression or place that is too high.
    Deep {
        at: u32,
        depth: u32,
    },
    /// An emitter on which one message of its handler may put more than its bound.
    Bound {
        handler: Name,
        emitter: Name,
        most: u64,
        bound: u64,
    },
    /// A source that reaches a cycle, with the handlers on the cycle, none of them twice.
    Cycle {
        source: Name,
        walk: Items<Name>,
    },
    /// More of something than its limit.
    Size {
        what: What,
        count: u64,
        limit: u64,
    },
    /// A source one message of which may cost more instructions than the limit.
    Work {
        source: Name,
        cost: u64,
    },
    NoMemory,
}

impl From<ReadFault> for Fault {
    ghost use Rattle.std.specs.Prelude.{◌≡◌};
    ghost use Rattle.arch_checks.specs.Faults.{of_read};

    ghost from_gives = { λ f e. e ≡ of_read f };

    fn from(fault: ReadFault) -> Fault {
        match fault {
            ReadFault::Long { limit } => Fault::Long { limit },
            ReadFault::Byte { at } => Fault::Byte { at },
            ReadFault::Unopened { at } => Fault::Unopened { at },
            ReadFault::Nest { at } => Fault::Nest { at },
            ReadFault::Unclosed { at } => Fault::Unclosed { at },
            ReadFault::Empty => Fault::Empty,
            ReadFault::Form { at } => Fault::Form { at },
            ReadFault::Number { at } => Fault::Number { at },
            ReadFault::Length { at } => Fault::Length { at },
            ReadFault::NoMemory => Fault::NoMemory,
        }
    }
}

impl From<NameFault> for Fault {
    ghost use Rattle.std.specs.Prelude.{◌≡◌};
    ghost use Rattle.arch_checks.specs.Faults.{of_name};

    ghost from_gives = { λ f e. e ≡ of_name f };

    fn from(fault: NameFault) -> Fault {
        match fault {
            NameFault::Twice { at, first } => Fault::Twice { at, first },
            NameFault::Unknown { at } => Fault::Unknown { at },
            NameFault::Kind { at, want, found } => Fault::Kind { at, want, found },
            NameFault::NoMemory => Fault::NoMemory,
        }
    }
}

impl From<TypeFault> for Fault {
    ghost use Rattle.std.specs.Prelude.{◌≡◌};
    ghost use Rattle.arch_checks.specs.Faults.{of_type};

    ghost from_gives = { λ f e. e ≡ of_type f };

    fn from(fault: TypeFault) -> Fault {
        match fault {
            TypeFault::Mismatch { at, want, found } => Fault::Mismatch { at, want, found },
            TypeFault::NotPlace { at } => Fault::NotPlace { at },
            TypeFault::Field { at } => Fault::Field { at },
            TypeFault::Range { at } => Fault::Range { at },
            TypeFault::Deep { at, depth } => Fault::Deep { at, depth },
            TypeFault::NoMemory => Fault::NoMemory,
        }
    }
}

impl From<NoMemory> for Fault {
    ghost use Rattle.std.specs.Prelude.{◌≡◌};
    ghost use Rattle.arch_checks.specs.declared.fault.Fault.TheVariants as fault;

    ghost from_gives = { λ _ e. e ≡ fault.NoMemory };

    fn from(_: NoMemory) -> Fault {
        Fault::NoMemory
    }
}
