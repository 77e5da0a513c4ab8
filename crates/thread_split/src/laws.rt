//! What is known of each plan, and worked cases. The bodies are empty: the check proves or computes what the contracts
//! say.

ghost use Rattle.thread_split.specs.Laws.{PlansHold};
ghost use Rattle.thread_split.specs.Worked.{WorkedPlans};

/// The handlers of a plan are those that a list of links leads to from its source, each once and ascending, and its
/// monitors are those of its handlers.
pub fn plans_law()
    ensures { PlansHold }
{}

/// The plans of some systems.
pub fn worked_plans()
    ensures { WorkedPlans }
{}
