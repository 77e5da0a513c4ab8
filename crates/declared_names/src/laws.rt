//! The law. It is the contract of a function that does nothing.
ghost use Rattle.declared_names.specs.Laws.{AcceptedFilesHaveNames};

/// In an accepted file the names of sources, channels, outputs, monitors and states are names of at most 64 bytes, and
/// no two sources have the same.
pub fn names_law()
    ensures { AcceptedFilesHaveNames }
{}
