//! Worked texts. Each body is empty: the contract is the law.
ghost use Rattle.tower_report.specs.WorkedTexts.{WorkedValues, WorkedLines};
ghost use Rattle.tower_report.specs.WorkedRuns.{WorkedRuns, WorkedReplays};
ghost use Rattle.tower_report.specs.WorkedFaults.{WorkedChecks, WorkedFaults};

/// Values, and the lines of marks, outputs, monitors and sources.
pub fn worked_texts()
    ensures values { WorkedValues }
    ensures lines { WorkedLines }
{}

/// Runs: to the end, stopped, and of two tasks by choices and a rule, with outputs and a lost message.
pub fn worked_runs()
    ensures { WorkedRuns }
{}

/// Replays whose marks fit, and some with a misfit.
pub fn worked_replays()
    ensures { WorkedReplays }
{}

/// What `check` tells of three systems.
pub fn worked_checks()
    ensures { WorkedChecks }
{}

/// The line of each kind of fault.
pub fn worked_faults()
    ensures { WorkedFaults }
{}
