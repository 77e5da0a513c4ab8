//! What holds of the program of each accepted system. Each body is empty: the contract is the law.

ghost use Rattle.task_build.specs.WorkedPrograms.{WorkedPrograms};
ghost use Rattle.task_build.specs.WorkedRuns.{WorkedRuns};
ghost use Rattle.task_build.specs.Laws.{ProgramsAreSound, ProgramsAreAlone, ProgramsKeepRules, PlacesAreSmall};
ghost use Rattle.task_build.specs.Laws.{ProgramsAreShaped, TasksArePlanned, EntriesCarry, EventsFit};

/// The headline: the program of each accepted system is sound, with no condition left. Each of its tasks is right alone,
/// it keeps the rules of programs, and no place in its code is above the limit on instructions.
pub fn programs_are_sound()
    ensures sound { ProgramsAreSound }
    ensures alone { ProgramsAreAlone }
    ensures rules { ProgramsKeepRules }
    ensures places { PlacesAreSmall }
{}

/// The program of any system has its shape, with words and instructions within the weights.
pub fn programs_are_shaped()
    ensures { ProgramsAreShaped }
{}

/// In each task of the program of an accepted system the head stands first, and the code of each handler that its source
/// reaches at its entry, with a frame and buffers of its own. Each entry carries out its item within the weight `deliver`.
pub fn entries_carry()
    ensures planned { TasksArePlanned }
    ensures carry { EntriesCarry }
{}

/// What fits an accepted system fits its program, so a machine can be made for each record that fits.
pub fn events_fit()
    ensures { EventsFit }
{}

/// Worked programs: of one handler with a state, of one that tells two outputs, of one with two emitters, and of a diamond.
pub fn worked_programs()
    ensures { WorkedPrograms }
{}

/// Worked runs: of a diamond on a period, of one with two emitters on a channel, and of one in which two walks lead to
/// a handler, behind which an output stands on its channel.
pub fn worked_runs()
    ensures { WorkedRuns }
{}
