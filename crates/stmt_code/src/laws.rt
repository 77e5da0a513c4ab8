//! What the code of a handler does. Each body is empty: the contract is the law.

ghost use Rattle.stmt_code.specs.FrameParts.{FramesAreLaidOut};
ghost use Rattle.stmt_code.specs.WorkedEmissions.{WorkedEmissions};
ghost use Rattle.stmt_code.specs.Effects.{SectionsDoEffects, SectionsAreShort};

/// From its LOCK to its UNLOCK the code of a handler does its effect, within its weight, and changes only what is its own.
pub fn sections_do_effects()
    ensures effects { SectionsDoEffects }
    ensures short { SectionsAreShort }
{}

/// The words of a frame do not overlap, and with the buffers of its handler they are no more than the handler's weight.
pub fn frames_are_laid_out()
    ensures { FramesAreLaidOut }
{}

/// Worked emissions: of a name, a part of one, a state, a place that moves, and a number.
pub fn worked_emissions()
    ensures { WorkedEmissions }
{}
