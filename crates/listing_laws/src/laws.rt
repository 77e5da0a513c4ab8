//! What holds of the listing of each accepted system's program. The body is empty: the contract is the law.

ghost use Rattle.listing_laws.specs.Laws.{ProgramsAreListed};

/// The listing of the program of each accepted system is that of no other program, and the program is sound. It has at
/// most 67,108,864 bytes and no fault: so `read` answers this program, with no condition left but memory.
pub fn programs_are_listed()
    ensures { ProgramsAreListed }
{}
