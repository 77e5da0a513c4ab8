//! Worked cases of the law, and programs that it refuses. The bodies are empty: the contracts are the laws.

ghost use Rattle.tower_syntax.specs.Arch.{Arch};
ghost use Rattle.tower_syntax.specs.Examples.{clock};
ghost use Rattle.task_code.specs.Program.{Program};
ghost use Rattle.lock_reduction.specs.Consequences.{InEachRun, GivesOutputs, NoneWaitsForItself, NoDeadlock, RestsIdle};
ghost use Rattle.task_code.specs.WorkedListing.{counter};
ghost use Rattle.lock_reduction.specs.Reduce.{Sound};
ghost use Rattle.lock_reduction.specs.Wrong.{IsRefuted, SticksATask, MisfitsTheReplay, WritesOtherOutputs, LeavesOtherWords};
ghost use Rattle.lock_reduction.specs.Wrong.{HoldsOtherMessages, LocksAnotherMonitor, IdlesTooSoon, CostsTooMuch};
ghost use Rattle.lock_reduction.specs.Wrong.{never_locks, reads_before_lock, stores_after_unlock, adds_two, locks_twice, drops};
ghost use Rattle.lock_reduction.specs.Wrong.{tell, delivers_before_unlock, delivers_in_reverse, emits_past_buffer, tells_twice, pair, locks_another, still, spins};

/// The counter of ten instructions is sound for its system.
pub fn counter_is_sound()
    ensures { Sound clock counter }
{}

/// Programs of their system's shape of which a run shows something against them, each of its own kind. None of them is
/// sound, and none is right alone.
pub fn wrong_programs_are_refused()
    ensures never_locks { IsRefuted clock never_locks SticksATask }
    ensures reads_before_lock { IsRefuted clock reads_before_lock SticksATask }
    ensures stores_after_unlock { IsRefuted clock stores_after_unlock LeavesOtherWords }
    ensures adds_two { IsRefuted clock adds_two LeavesOtherWords }
    ensures locks_twice { IsRefuted clock locks_twice MisfitsTheReplay }
    ensures drops { IsRefuted clock drops IdlesTooSoon }
    ensures delivers_before_unlock { IsRefuted tell delivers_before_unlock SticksATask }
    ensures delivers_in_reverse { IsRefuted tell delivers_in_reverse WritesOtherOutputs }
    ensures emits_past_buffer { IsRefuted tell emits_past_buffer HoldsOtherMessages }
    ensures tells_twice { IsRefuted tell tells_twice MisfitsTheReplay }
    ensures locks_another { IsRefuted pair locks_another LocksAnotherMonitor }
    ensures spins { IsRefuted still spins CostsTooMuch }
{}

/// In each run of a sound program the outputs are those of the replay of its marks.
pub fn outputs_are_the_replays()
    ensures { (arch : Arch) (p : Program) → Sound arch p → InEachRun arch p (GivesOutputs arch) }
{}

/// In each run of a sound program no task waits for a lock that it holds, and where one waits it is not so that none
/// can step.
pub fn no_task_waits_for_itself()
    ensures deadlock { (arch : Arch) (p : Program) → Sound arch p → InEachRun arch p (NoDeadlock p) }
    ensures apart { (arch : Arch) (p : Program) → Sound arch p → InEachRun arch p (NoneWaitsForItself p) }
{}

/// Where no task of a sound program can step, all are idle and no message waits.
pub fn a_run_rests_idle()
    ensures { (arch : Arch) (p : Program) → Sound arch p → InEachRun arch p (RestsIdle p) }
{}
