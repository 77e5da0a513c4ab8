//! Response bounds of a system: what a run at a rate is, what w intervals may have to carry, and that a period with a
//! window ends each event before its next one arrives. The bodies are empty: the contracts are the laws.
#![tactic(auto)]

ghost use Rattle.bound_law.specs.Bounds.{StretchesAreShort, WindowsPromise};

/// In a stretch of a priority the instructions of its first intervals are at most their demand, and fewer where it goes on.
pub fn middle_law()
    ensures { StretchesAreShort }
{}

/// Where a period has a window, its task is at TAKE with an empty queue just before each tick that brings it a message, in
/// every run of a sound program that is paced, sampled, spaced and by ceiling.
pub fn bounds_law()
    ensures { WindowsPromise }
{}
