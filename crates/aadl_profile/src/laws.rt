//! Laws of the definitions. Each body is empty: the contract is the law.
ghost use Rattle.aadl_profile.specs.WorkedTexts.{WorkedTexts};
ghost use Rattle.aadl_profile.specs.Profile.{Says, IsWalkFault};

/// The canonical text of one system, and that of each kind of declaration.
pub fn worked_texts()
    ensures { WorkedTexts }
{}
