//! What holds of a task alone. The body is empty: the contract is the law.

ghost use Rattle.std.specs.Prelude.{◌↔◌, ℕ};
ghost use Rattle.task_code.specs.declared.program.Task.{Task};
ghost use Rattle.task_code.specs.Program.{Program};
ghost use Rattle.task_alone.specs.Setting.{Setting};
ghost use Rattle.task_alone.specs.Alone.{Safe, first_state};
ghost use Rattle.task_alone.specs.LoneRun.{NothingIsMissing};

/// A task is safe alone for any number of steps exactly where in each of its runs alone, given by the list of what it
/// is handed, nothing that is asked is missing and no message costs too much.
pub fn safe_law()
    ensures { (s : Setting) (p : Program) (t : Task) (x : ℕ) → ((n : ℕ) → Safe s p t x n (first_state t)) ↔ NothingIsMissing s p t x }
{}
