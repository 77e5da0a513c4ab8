//! Laws of the definitions, and worked cases. The bodies are empty: the check proves or computes what the
//! contracts say.

ghost use Rattle.arch_names.specs.Resolved.{LinksAreDetermined};
ghost use Rattle.arch_names.specs.Walk.{NoneIsClean, SomeIsFirst};
ghost use Rattle.arch_names.specs.WorkedNames.{WorkedNames};

/// A file has at most one linked tree.
pub fn links_are_determined()
    ensures { LinksAreDetermined }
{}

/// The fault and the links that are computed, as in the worked cases, are those that the relation says.
pub fn walk_is_right()
    ensures clean { NoneIsClean }
    ensures first { SomeIsFirst }
{}

/// What the names of some files come to.
pub fn worked_names()
    ensures { WorkedNames }
{}
