//! What holds of the marks of runs, tried against the atomic meaning. Each body is empty: the contract is the law.

ghost use Rattle.replay_laws.specs.Laws.{ReplayConfirms, ReplayConfirmsPrograms, MisfitRefutes};

/// All marks of a run of a sound program fit, and what they come to has the run's outputs, the words of each monitor
/// that no task holds, what waits and what was lost. So it is with each run of the program of an accepted system.
pub fn replay_confirms_runs()
    ensures sound { ReplayConfirms }
    ensures programs { ReplayConfirmsPrograms }
{}

/// A run with a mark that does not fit shows that its program is not sound.
pub fn misfits_refute()
    ensures { MisfitRefutes }
{}
