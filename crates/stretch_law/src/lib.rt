//! Response bounds, over a machine of which only the facts of the layers below are known: what a run, a stretch, a demand
//! and a window are, and that a window keeps what it promises. The bodies are empty: the contracts are the laws.
#![tactic(auto)]

ghost use Rattle.stretch_law.specs.Laws.{StretchesAreShort, WindowsMeet, DemandsGrow};

/// In a stretch the instructions of its first intervals are at most their demand, and fewer where it goes on.
pub fn middle_law()
    ensures { StretchesAreShort }
{}

/// Where a period has a window, in every run that is paced, sampled, spaced and by ceiling its task is clear just before
/// each tick that brings it a message.
pub fn bounds_law()
    ensures { WindowsMeet }
{}

/// A larger window never has a smaller demand.
pub fn demand_law()
    ensures { DemandsGrow }
{}
