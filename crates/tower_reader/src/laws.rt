//! The laws of the definitions. Each is the contract of a function that does nothing.
ghost use Rattle.tower_reader.specs.Laws.{VerdictSpells, VerdictFault, SpelledIsPrintable, SpelledPrintsAsWritten, PrintReadsBack, AlikePrintSame, SamePrintAlike};
ghost use Rattle.tower_reader.specs.WorkedPrinted.{WorkedPrinted};
ghost use Rattle.tower_reader.specs.Worked.{WorkedTrees, WorkedTokens, WorkedForms, WorkedNumbers};

/// `verdict` computes the tree of a text, or its fault. So a text spells one tree or has one fault, and never both.
pub fn verdict_law()
    ensures spells { VerdictSpells }
    ensures fault { VerdictFault }
{}

/// What a text spells can be printed, so its names and numbers are in their ranges. The line that it is printed as has the
/// nodes of the text, in their order.
pub fn spelled_is_printable()
    ensures printable { SpelledIsPrintable }
    ensures as_written { SpelledPrintsAsWritten }
{}

/// What is printed of a tree reads back: where the line is within the byte limit, it spells the same tree, offsets apart.
pub fn print_reads_back()
    ensures { PrintReadsBack }
{}

/// Trees that are equal, offsets apart, are printed as the same line. Printable trees that are printed as the same line
/// within the byte limit are equal, offsets apart.
pub fn alike_law()
    ensures same_line { AlikePrintSame }
    ensures alike { SamePrintAlike }
{}

/// Texts with their trees and faults.
pub fn worked_texts()
    ensures trees { WorkedTrees }
    ensures tokens { WorkedTokens }
    ensures forms { WorkedForms }
    ensures numbers { WorkedNumbers }
{}

/// A printed file read again, and files that are not alike.
pub fn worked_printed()
    ensures { WorkedPrinted }
{}
