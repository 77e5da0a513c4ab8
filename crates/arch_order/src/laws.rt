//! The laws. Each is the contract of a function that does nothing.

ghost use Rattle.arch_order.specs.Laws.{ReadFilesAscend, LinkedFilesAscend, LinkedFilesAreNumbered};

/// The names of a text that was read stand in text order, and so do the parts of each callback of its linked tree,
/// up to the end of the text.
pub fn read_files_ascend()
    ensures read { ReadFilesAscend }
    ensures linked { LinkedFilesAscend }
{}

/// In the linked tree of a text that was read each number names something that exists, and is in its range.
pub fn linked_files_are_numbered()
    ensures { LinkedFilesAreNumbered }
{}
