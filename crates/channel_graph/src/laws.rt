//! Laws of the definitions, and worked cases. The bodies are empty: the check proves or computes what the
//! contracts say.

ghost use Rattle.channel_graph.specs.Laws.{DeliverRecurs, DeliverIsOnly, CostFollows, ShownIs, ChainsExist};
ghost use Rattle.channel_graph.specs.Worked.{WorkedGraph};

/// Cycles that are shown, what sources reach, and counts of messages of some systems.
pub fn worked_graph()
    ensures { WorkedGraph }
{}

/// Where no source reaches a cycle, a handler that one reaches costs its section and all that its emitters hold, each
/// message with what the handlers on its channel cost. `deliver` says that of each such handler, and nothing else does,
/// so the cost of a source follows from it.
pub fn deliver_law()
    ensures recurs { DeliverRecurs }
    ensures only { DeliverIsOnly }
    ensures cost { CostFollows }
{}

/// The cycle that is shown is that of the least source that reaches a handler which leads back to itself. From the
/// least such handler on it is a shortest walk back, each time to the least handler that is one link nearer. `shown`
/// computes it, and no other cycle is it.
pub fn shown_law()
    ensures { ShownIs }
{}

/// A system in which no source reaches a cycle has a chain, the greatest number of handlers on a walk from a source,
/// which is at most the number of its handlers.
pub fn chain_law()
    ensures { ChainsExist }
{}
