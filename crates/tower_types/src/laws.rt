//! What holds of the definitions, with worked cases. Each body is empty: the contract is the law.

ghost use Rattle.tower_types.specs.Laws.{Wraps, Divides, KeepsRanges, HasNumbers, HasZero};
ghost use Rattle.tower_types.specs.WorkedValues.{WorkedArithmetic, WorkedTypes};

/// The operations at the ends of their scalars.
pub fn worked_arithmetic()
    ensures { WorkedArithmetic }
{}

/// The width, depth, zero value and range of some types.
pub fn worked_types()
    ensures { WorkedTypes }
{}

/// A wrapped number is one of its scalar, and differs by a multiple of how many the scalar has.
pub fn wrapping()
    ensures { Wraps }
{}

/// A quotient and its remainder give the dividend again, also at a zero divisor.
pub fn dividing()
    ensures { Divides }
{}

/// The result of each operation is a number of its scalar.
pub fn operations_keep_ranges()
    ensures { KeepsRanges }
{}

/// A value that fits has as many numbers as its type has words, and no other value has the same.
pub fn values_have_numbers()
    ensures { HasNumbers }
{}

/// The zero value fits its type, and each of its numbers is 0.
pub fn zero_values()
    ensures { HasZero }
{}
