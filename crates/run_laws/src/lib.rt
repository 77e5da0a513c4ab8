//! Laws of whole runs. The bodies are empty: the contracts are the laws.
#![tactic(auto)]

ghost use Rattle.run_laws.specs.Enough.{EnoughNeverStops, CostsAreMost};
ghost use Rattle.run_laws.specs.WorkedCosts.{WorkedCosts};

/// With as many instructions as all messages cost, no run of a sound program is stopped: each initialisation has one
/// message, and the record brings the others. With any limit no more are executed.
pub fn enough_never_stops()
    ensures ends { EnoughNeverStops }
    ensures most { CostsAreMost }
{}

/// Worked cases of what messages cost.
pub fn worked_costs()
    ensures { WorkedCosts }
{}
