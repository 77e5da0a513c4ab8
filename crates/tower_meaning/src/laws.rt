//! What holds of the definitions, with worked cases. Each body is empty: the contract is the law.

ghost use Rattle.tower_syntax.specs.Arch.{Arch, Events};
ghost use Rattle.tower_syntax.specs.Typed.{IsTyped};
ghost use Rattle.tower_syntax.specs.WellNumbered.{IsWellNumbered};
ghost use Rattle.tower_meaning.specs.Atomic.{Fit};
ghost use Rattle.tower_meaning.specs.Fits.{KeepsTypes, BringsFitting};
ghost use Rattle.tower_meaning.specs.Replayed.{ReplayedComesTo, NoMisfitIsDefined};
ghost use Rattle.tower_meaning.specs.WorkedBodies.{Arithmetic, Statements};
ghost use Rattle.tower_meaning.specs.WorkedRuns.{Deliveries, Orders, Misfits, Places, Barrier, Depths};
ghost use Rattle.tower_meaning.specs.WorkedFlight.{Flight};

/// Numbers wrap to their type after each operation, and a zero divisor gives 0 and the whole rest.
pub fn worked_arithmetic()
    ensures { Arithmetic }
{}

/// Each statement does what it says, and callbacks run one after another.
pub fn worked_statements()
    ensures { Statements }
{}

/// What follows from a message comes depth first, by emitter, message and subscriber.
pub fn worked_deliveries()
    ensures { Deliveries }
{}

/// The same events in other orders of their marks.
pub fn worked_orders()
    ensures { Orders }
{}

/// Marks that do not fit, and the state before them.
pub fn worked_misfits()
    ensures { Misfits }
{}

/// A value is moved whole, to a place whose index is computed.
pub fn worked_places()
    ensures { Places }
{}

/// A signal does not start before the initialisation has ended.
pub fn worked_barrier()
    ensures { Barrier }
{}

/// A message that finds its queue full is dropped and counted.
pub fn worked_depths()
    ensures { Depths }
{}

/// A system of ordinary use over twenty ticks and two signals.
pub fn worked_flight()
    ensures { Flight }
{}

/// The meaning of a typed system keeps its types: whatever is delivered, emitted or left in a monitor fits.
pub fn meaning_keeps_types()
    ensures keeps { (arch : Arch) → IsWellNumbered arch → IsTyped arch → KeepsTypes arch }
    ensures brings { (arch : Arch) (events : Events) → IsTyped arch → Fit arch events → BringsFitting arch events }
{}

/// A replay comes to the state that its marks lead to, where all fit, and else to its first misfit and the state before
/// that. There is no misfit exactly where the replay is defined.
pub fn first_misfit_law()
    ensures comes_to { ReplayedComesTo }
    ensures no_misfit { NoMisfitIsDefined }
{}
