//! What the lines of a listing are.

/// What a line is.
#[derive(Clone, Copy, Debug, PartialEq, Eq)]
pub enum Kind {
    Title,
    /// The number of monitors.
    Monitors,
    Monitor,
    /// The number of outputs.
    Outputs,
    Output,
    /// The number of tasks.
    Tasks,
    Task,
    Buffer,
    Instruction,
    Ending,
}
