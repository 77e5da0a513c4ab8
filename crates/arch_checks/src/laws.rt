//! The laws of the definitions. Each is the contract of a function that does nothing.
ghost use Rattle.arch_checks.specs.WorkedSizes.{WorkedSizes};
ghost use Rattle.arch_checks.specs.Laws.{AcceptedFilesAreSafe, NumbersAreKept, TypesAreWide, TypesAreShallow, WalksAreShort, SystemsAreInFileOrder};
ghost use Rattle.arch_checks.specs.Wide.{WideTypesHaveWords, ValuesAreShallow};
ghost use Rattle.arch_checks.specs.Laws.{OneVerdict, MemoryIsNoFault, WrittenTypesCount};
ghost use Rattle.arch_checks.specs.WorkedFaults.{WorkedLengths, WorkedReadings, WorkedNames};
ghost use Rattle.arch_checks.specs.WorkedNumbers.{WorkedNumbers};
ghost use Rattle.arch_checks.specs.WorkedTypes.{WorkedLiterals, WorkedPlaces, WorkedSums, WorkedBits, WorkedComparisons, WorkedTruths, WorkedChoices, WorkedSets, WorkedCopies, WorkedHeights, WorkedFiles};
ghost use Rattle.arch_checks.specs.WorkedSystems.{WorkedSystems, WorkedBounds, WorkedLinks, WorkedWeights};

/// What an accepted file keeps: its numbers name what exists and are in their ranges, each node has its type, no source
/// reaches a cycle, and nothing is above its limit.
pub fn accepted_files_are_safe()
    ensures { AcceptedFilesAreSafe }
{}

/// In an accepted system each record has a field, each period has 1 to 1,000,000 milliseconds, each depth is from 1 to
/// 64, and each emitter's bound is at most 65,536.
pub fn numbers_law()
    ensures { NumbersAreKept }
{}

/// Each message, state and bound name of an accepted system, and so what an output is given, has 1 to 4,096 words. No
/// record and no type of these is deeper than 32, and no value that fits a type is deeper than it.
pub fn types_law()
    ensures wide { TypesAreWide }
    ensures words { WideTypesHaveWords }
    ensures shallow { TypesAreShallow }
    ensures values { ValuesAreShallow }
{}

/// No walk from a source of an accepted system has more than 100 handlers.
pub fn walks_law()
    ensures { WalksAreShort }
{}

/// The handlers of an accepted system ascend by monitor, and its listeners are the outputs and handlers of the file in
/// the order of the text.
pub fn order_law()
    ensures { SystemsAreInFileOrder }
{}

/// Each text is accepted as exactly one system, or has exactly one fault. Want of memory is no fault of a text.
pub fn one_verdict()
    ensures one { OneVerdict }
    ensures memory { MemoryIsNoFault }
{}

/// The depth and the words that have limits are those of the type nodes and records of the text.
pub fn written_types_count()
    ensures { WrittenTypesCount }
{}

/// Worked depths and widths. The body is empty: the check computes what the contract says.
pub fn worked_sizes()
    ensures { WorkedSizes }
{}

/// The first faults of texts, and texts without one, by their reading and their names; and texts with their numbered trees.
pub fn worked_faults()
    ensures lengths { WorkedLengths }
    ensures readings { WorkedReadings }
    ensures names { WorkedNames }
    ensures numbers { WorkedNumbers }
{}

/// The first faults of texts, and texts without one, by their types.
pub fn worked_types()
    ensures literals { WorkedLiterals }
    ensures places { WorkedPlaces }
    ensures sums { WorkedSums }
    ensures bits { WorkedBits }
    ensures comparisons { WorkedComparisons }
    ensures truths { WorkedTruths }
    ensures choices { WorkedChoices }
    ensures sets { WorkedSets }
    ensures copies { WorkedCopies }
    ensures heights { WorkedHeights }
    ensures files { WorkedFiles }
{}

/// Texts that are accepted, with their systems and weights, and the first faults of texts by their bounds and links.
pub fn worked_systems()
    ensures systems { WorkedSystems }
    ensures bounds { WorkedBounds }
    ensures links { WorkedLinks }
    ensures weights { WorkedWeights }
{}
