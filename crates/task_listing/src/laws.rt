//! The laws of the definitions. Each is the contract of a function that does nothing.
ghost use Rattle.task_listing.specs.Laws.{FaultIsFirst, NoneIsFaultless, ListingIsOfOne, ListingIsFaultless, IsListingOrFault, NoListingHasFault};
ghost use Rattle.task_listing.specs.Laws.{LinesAreRows, RightLines, WrongLines, WrongNumbers, NoOtherKind, WrongPlaces, ListingIsShort};
ghost use Rattle.task_listing.specs.WorkedTexts.{WorkedTexts};
ghost use Rattle.task_listing.specs.WorkedTable.{WorkedTable};

/// The verdict of a text is the first of what offends, and none where nothing does.
pub fn fault_law()
    ensures fault { FaultIsFirst }
    ensures none { NoneIsFaultless }
{}

/// A text is the listing of at most one program. A listing that is not too long has no fault, so `read` answers its
/// program. Each text is a listing or has exactly one first fault, and none is both.
pub fn listing_law()
    ensures one { ListingIsOfOne }
    ensures faultless { ListingIsFaultless }
    ensures either { IsListingOrFault }
    ensures apart { NoListingHasFault }
{}

/// Words are read as an instruction exactly where they are those of its row in the table by which it is written, with
/// operands in their ranges.
pub fn table_law()
    ensures { LinesAreRows }
{}

/// What is wrong with a line by itself, by the table of forms: a line is `Line` exactly where its words are not those that
/// stand there, whatever its numbers; `Number` exactly where they are and a word that is to be a number is none, or none
/// of its range; and of no other kind. A right line of an instruction is `Place` exactly where it spells no instruction
/// that keeps the rules.
pub fn line_law()
    ensures right { RightLines }
    ensures line { WrongLines }
    ensures number { WrongNumbers }
    ensures other { NoOtherKind }
    ensures place { WrongPlaces }
{}

/// A line of a listing takes at most 41 bytes, with its LF.
pub fn length_law()
    ensures { ListingIsShort }
{}

/// A worked listing with each instruction once and operands that differ: the text is as the table of instructions has it.
pub fn worked_table()
    ensures { WorkedTable }
{}

/// Worked texts: the counter's listing, of which `task_code` works the marks, and damaged ones with their faults.
pub fn worked_texts()
    ensures { WorkedTexts }
{}
