ghost use Rattle.std.specs.Prelude.{◌≡◌};
ghost use Rattle.tower_top.specs.Endings.{status_after};
ghost use Rattle.tower_top.specs.Status.{code_of};

use tower_io::Put;

/// How a call of `tower` ended. The numbers are the exit statuses of the program.
#[derive(Clone, Copy, Debug, PartialEq, Eq)]
pub enum Status {
    /// The command's text was written whole.
    Done,
    /// The file of the language has a fault.
    Refused,
    /// The words give no command.
    Usage,
    /// An input could not be read.
    ReadFault,
    /// A text could not be written.
    WriteFault,
    /// There was no memory, and nothing was written.
    NoMemory,
    /// A further input has a fault.
    BadInput,
    /// The run met its limit of instructions.
    Stopped,
    /// The command's question has the answer no.
    No,
}

impl Status {
    /// The exit status of the program.
    pub fn code(self) -> u8
        ensures { result ≡ code_of self }
    {
        self as u8
    }
}

/// The status, or that of a put that failed.
pub fn after(put: Put, status: Status) -> Status
    ensures { result ≡ status_after put status }
{
    match put {
        Put::Done => status,
        Put::Failed => Status::WriteFault,
    }
}
