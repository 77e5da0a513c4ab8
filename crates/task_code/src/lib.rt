//! Programs of tasks, and the machine that they run on.
#![tactic(auto)]

mod code;
mod emitting;
mod fitting;
mod frame;
pub mod laws;
mod program;

pub use code::Code;
pub use emitting::emission;
pub use fitting::fits;
pub use frame::{Frame, Frames};
pub use program::{Buffer, Instr, Program, Task};
