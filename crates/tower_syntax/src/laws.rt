//! Worked cases of the definitions. The body is empty: the check computes what its contract says.

ghost use Rattle.tower_syntax.specs.Examples.{clock};
ghost use Rattle.tower_syntax.specs.WellNumbered.{IsWellNumbered};
ghost use Rattle.tower_syntax.specs.WorkedLines.{WorkedLines};
ghost use Rattle.tower_syntax.specs.WorkedWeights.{WorkedWeights};

/// The costs of each source, the memory and the code of some systems.
pub fn worked_weights()
    ensures { WorkedWeights }
{}

/// The lines of some files of both versions.
pub fn worked_lines()
    ensures { WorkedLines }
{}

/// A system that is well numbered.
pub fn worked_numbers()
    ensures { IsWellNumbered clock }
{}
