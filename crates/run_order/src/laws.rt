//! The law. It is the contract of a function that does nothing.
ghost use Rattle.run_order.specs.Laws.{RunTextsAreOrders};

/// The text of a run is an order. For every accepted file, every program with no more tasks than the file has sources,
/// every record, all choices, each limit of at most 1,000,000,000 instructions and each rule: where the text has at most
/// 16,777,216 bytes, the order that it spells is the list of the run's marks, and it has no fault. So `read_order` gives
/// this list, or wants memory.
pub fn run_texts_are_orders()
    ensures { RunTextsAreOrders }
{}
