//! The laws of the definitions. Each is the contract of a function that does nothing.
ghost use Rattle.tower_sexp.specs.Laws.{TextSplits, FaultIsFirst, WrongIsFirst, NoneIsFaultless, FaultlessSpells, SpellsOne};

/// A text splits into blanks, comments, brackets, atoms and stray bytes in exactly one way, and `marks_of` computes its
/// marks.
pub fn marks_law()
    ensures { TextSplits }
{}

/// `first_fault` computes the first of what offends, and `first_wrong` the first stray byte or wrong bracket.
pub fn fault_law()
    ensures fault { FaultIsFirst }
    ensures wrong { WrongIsFirst }
    ensures faultless { NoneIsFaultless }
{}

/// The tokens of a text with no fault spell exactly one list of trees, which `trees_spelled` computes.
pub fn trees_law()
    ensures spells { FaultlessSpells }
    ensures one { SpellsOne }
{}
