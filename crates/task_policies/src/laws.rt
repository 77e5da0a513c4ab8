//! What holds of the rules. Each body is empty: the contract is the law.
ghost use Rattle.task_policies.specs.Sums.{CoresAddUp};
ghost use Rattle.task_policies.specs.Worked.{WorkedCeilings, WorkedCores};

/// Whom the ceiling rule names of four tasks, and the ceilings of one whole system.
pub fn worked_ceilings()
    ensures { WorkedCeilings }
{}

/// Whom the rule of several cores names of four tasks.
pub fn worked_cores()
    ensures { WorkedCores }
{}

/// On however many cores, each instruction of a run is on one of them: the numbers of all cores add up to that of the run.
pub fn cores_add_up()
    ensures { CoresAddUp }
{}
