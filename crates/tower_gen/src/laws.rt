//! The laws. Each is the contract of a function that does nothing.
ghost use Rattle.tower_gen.specs.Made.{DrawnFilesAreRight, DrawsAreInRange, MadeFilesAreRight};
ghost use Rattle.tower_gen.specs.Rows.{Memory, Widths};
ghost use Rattle.tower_gen.specs.Worked.{WorkedItems};

/// The printed file of every number is accepted, as a system of which each source costs 25,550, the memory weighs 54,208
/// and the code 291,200. So it is for all draws in their ranges, and whatever words a generator gives are in these.
pub fn made_files_are_accepted()
    ensures numbers { MadeFilesAreRight }
    ensures draws { DrawnFilesAreRight }
    ensures ranges { DrawsAreInRange }
{}

/// What is computed of each generated file: the memory, the depth and the width of its types; and five items, as they are
/// printed where 7 is drawn.
pub fn computed()
    ensures memory { Memory }
    ensures widths { Widths }
    ensures items { WorkedItems }
{}
