//! What holds of the definitions. Each body is empty: the contract is the law.

ghost use Rattle.std.specs.Prelude.{◌≡◌, ◌+◌, ℕ, List, map, Some};
ghost use Rattle.tower_syntax.specs.declared.event.Choice.{Choice};
ghost use Rattle.tower_syntax.specs.Arch.{Events};
ghost use Rattle.task_code.specs.Program.{Program};
ghost use Rattle.task_code.specs.Run.{reached};
ghost use Rattle.task_code.specs.Policy.{Policy};
ghost use Rattle.task_code.specs.Plan.{plan, step_of, instructions};
ghost use Rattle.task_code.specs.WorkedListing.{WorkedListing};
ghost use Rattle.task_code.specs.Emitting.{EmissionEmits, EmissionIsShort};

/// Ten instructions count the messages of a period: their marks, the lock, and the whole run.
pub fn worked_listing()
    ensures { WorkedListing }
{}

/// A plan is a run: each of its steps is defined where it stands, its run is what they reach, and it counts each
/// instruction against the limit.
pub fn plan_is_a_run()
    ensures reaches { (policy : Policy) (p : Program) (events : Events) (choices : List Choice) (limit : ℕ) → reached p events (map step_of (plan policy p events choices limit).steps) ≡ Some (plan policy p events choices limit).run }
    ensures counts { (policy : Policy) (p : Program) (events : Events) (choices : List Choice) (limit : ℕ) → instructions (plan policy p events choices limit).steps + (plan policy p events choices limit).left ≡ limit }
{}

/// The code of an emission moves a message of w words into its buffer by 3 w + 1 instructions, and changes nothing else.
pub fn emissions_emit()
    ensures emits { EmissionEmits }
    ensures short { EmissionIsShort }
{}
