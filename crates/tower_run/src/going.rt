//! A run that is going on.
use crate::page::Page;
use crate::scheduler::Scheduler;
use task_machine::Machine;
use tower_syntax::Arch;

/// What stays the same in a run: the system, the rule for turns, the number of tasks, the greatest number of
/// instructions, and whether it is counted how often the rule names a waiting task.
#[derive(Drop)]
pub struct Job<'a> {
    pub arch: &'a Arch,
    pub rule: Scheduler,
    pub tasks: u32,
    pub limit: u64,
    pub counts_waits: bool,
}

/// A run so far: the machine, the text that is still to go to the sink, the number of instructions, the number of those
/// before which the rule named a waiting task, and those on each core that the rule tells apart. `busy` has a place for
/// each task.
#[derive(Drop)]
pub struct Going {
    pub machine: Machine,
    pub page: Page,
    pub busy: Vec<bool>,
    pub count: u64,
    pub waits: u64,
    pub cores: Vec<u64>,
}

/// What came of a choice, or of a part of one.
#[derive(Clone, Copy, Debug, PartialEq, Eq)]
pub enum Turn {
    /// The run went on.
    Went,
    /// It could not be done, and nothing changed.
    Passed,
    /// The limit of instructions was met, and one is due.
    Stopped,
    /// A put failed.
    Failed,
}
