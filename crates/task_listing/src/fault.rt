//! What may be wrong with the text of a listing.
use std::alloc::AllocError;

/// The kinds of faults, in the order in which they come.
#[derive(Clone, Copy, Debug, PartialEq, Eq)]
pub enum ListKind {
    /// The text has more than 67,108,864 bytes. It is at line 0.
    Long,
    /// The words or blanks are not those that stand there. It comes at the first line that is wrong, as `Number` does.
    Line,
    /// A word where a number stands is none, is misspelt, or is out of its range.
    Number,
    /// The text ends before `end` and its LF. It is at the number of lines plus 1.
    Short,
    /// Bytes stand behind `end` and its LF.
    After,
    /// An instruction breaks a rule of programs, or a message or a width is 0.
    Place,
    /// All words, or all instructions, are too many. It is at line 0.
    Limit,
}

/// Why a text is no listing: the first fault, with its line, counted from 1; or want of memory.
#[derive(Clone, Copy, Debug, PartialEq, Eq)]
pub enum ListFault {
    At { line: u32, kind: ListKind },
    NoMemory,
}

impl From<AllocError> for ListFault {
    ghost use Rattle.std.specs.Prelude.{◌≡◌};
    ghost use Rattle.task_listing.specs.declared.fault.ListFault.TheVariants.{NoMemory};

    ghost from_gives = { λ _ e. e ≡ NoMemory };

    fn from(_: AllocError) -> ListFault {
        ListFault::NoMemory
    }
}
