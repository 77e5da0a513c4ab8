//! The laws. Each is the contract of a function that does nothing.
ghost use Rattle.printed_files.specs.Capped.{LinesAreCapped};
ghost use Rattle.printed_files.specs.Fit.{FitNamesAreClean, FitHasNoOffsets, LinksHaveNoOffsets};
ghost use Rattle.printed_files.specs.Right.{TypesHaveNoOffsets, RightFilesAreAccepted};

/// The line of a file that is right apart from its offsets is accepted, as the system that the file is.
pub fn right_files_are_accepted()
    ensures { RightFilesAreAccepted }
{}

/// Names that are right apart from their offsets are so at any offsets, and so is what they refer to. Where such a file is
/// in text order, no name offends.
pub fn names_have_no_offsets()
    ensures clean { FitNamesAreClean }
    ensures fit { FitHasNoOffsets }
    ensures links { LinksHaveNoOffsets }
{}

/// The handlers that are made of a linked tree depend on no offset.
pub fn types_have_no_offsets()
    ensures { TypesHaveNoOffsets }
{}

/// A printed line is no longer than if each of its atoms had 64 bytes.
pub fn lines_are_capped()
    ensures { LinesAreCapped }
{}
