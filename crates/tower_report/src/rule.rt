/// How a run is told to give turns.
#[derive(Clone, Copy, Debug, PartialEq, Eq)]
pub enum Rule {
    /// To a ready task of the greatest priority.
    Fixed,
    /// By the ceiling rule: a task that holds a monitor is as urgent as the monitor's ceiling.
    Ceiling,
    /// To the most urgent ready tasks, on so many cores, from 1 to 64.
    Cores(u32),
}
