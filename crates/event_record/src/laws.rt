//! The laws of the three texts. Each is the contract of a function that does nothing.
ghost use Rattle.event_record.specs.Laws.{RecordsHaveOneOutcome, ChoicesHaveOneOutcome, OrdersHaveOneOutcome};

/// A text spells one list of entries for a system or has one fault, and never both.
pub fn records_have_one_outcome()
    ensures { RecordsHaveOneOutcome }
{}

/// A text spells one list of choices or has one fault, and never both.
pub fn choices_have_one_outcome()
    ensures { ChoicesHaveOneOutcome }
{}

/// A text spells one list of marks for a system or has one fault, and never both.
pub fn orders_have_one_outcome()
    ensures { OrdersHaveOneOutcome }
{}
