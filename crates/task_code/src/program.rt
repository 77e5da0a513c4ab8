ghost use Rattle.std.specs.Prelude.{◌≡◌, ◌<◌, length, slice_get, Some};
ghost use Rattle.task_code.specs.Rules.{KeepsRules};

use sqlite_items::Items;
use std::marker::Model;
use tower_types::{BinOp, Scalar, UnOp};

/// One instruction. A task has private words, an operand stack, a call stack and buffers of messages.
#[derive(Clone, Copy, Debug, PartialEq, Eq)]
pub enum Instr {
    /// Pushes a number.
    Push(i128),
    /// Pops a word.
    Drop,
    /// Pushes the topmost word again.
    Dup,
    /// Pushes a private word.
    Ld(u32),
    /// Pops into a private word.
    St(u32),
    /// Pops an index, and pushes that one of the private words from an address on, so many of which count.
    Ldx(u32, u32),
    /// Pops a word and an index, and writes that one of the private words.
    Stx(u32, u32),
    /// As `Ldx`, on the words of a monitor, which is named first.
    Ldm(u32, u32, u32),
    /// As `Stx`, on the words of a monitor, which is named first.
    Stm(u32, u32, u32),
    Un(UnOp, Scalar),
    Bin(BinOp, Scalar),
    /// Wraps the topmost word to a type.
    Cast(Scalar),
    Jmp(u32),
    /// Pops a word and jumps where it is 0.
    Jz(u32),
    Call(u32),
    Ret,
    /// Takes the oldest message of the task's source, to the private words from an address on.
    Take(u32),
    Lock(u32),
    Unlock(u32),
    /// Gives an output the private words from an address on.
    Out(u32, u32),
    /// Empties a buffer.
    Bclr(u32),
    /// Pops a word and an index, and writes that word of the message after a buffer's last.
    Bput(u32),
    /// A buffer's count grows by one.
    Badd(u32),
    /// Pops the index of a word and of a message, and pushes that word of that message of a buffer.
    Bget(u32),
    /// Pushes a buffer's count.
    Bcnt(u32),
}

/// A buffer of an emitter: the words of a message, and how many messages it holds at most.
#[derive(Clone, Copy, Debug, PartialEq, Eq)]
pub struct Buffer {
    pub width: u32,
    pub bound: u32,
}

/// The code of one source. `message` is the words of its messages, and `room` the number of its private words.
#[derive(Debug, Drop)]
pub struct Task {
    pub priority: u8,
    pub message: u32,
    pub room: u32,
    pub buffers: Items<Buffer>,
    pub code: Items<Instr>,
}

/// A program: the words of each monitor and of each output, and a task for each source in file order. It keeps
/// that every address, place and number in its code is in range, and its limits on words and instructions.
#[derive(Debug, Drop)]
pub struct Program {
    monitors: Items<u32>,
    outputs: Items<u32>,
    tasks: Items<Task>,
}

impl Model for Program {
    ghost use Rattle.task_code.specs.Program.{Program};
    ghost use Rattle.task_code.specs.Rules.{KeepsRules};

    ghost Value = { Program };

    ghost view = { λ p. record { monitors = p.monitors; outputs = p.outputs; tasks = p.tasks } };

    ghost invariant = { λ p. KeepsRules (record { monitors = p.monitors; outputs = p.outputs; tasks = p.tasks }) };
}

impl Program {
    /// The program of these parts, which must keep the rules.
    pub fn new(monitors: Items<u32>, outputs: Items<u32>, tasks: Items<Task>) -> Program
        requires { KeepsRules (record { monitors = monitors; outputs = outputs; tasks = tasks }) }
        ensures { result ≡ record { monitors = monitors; outputs = outputs; tasks = tasks } }
    {
        Program {
            monitors,
            outputs,
            tasks,
        }
    }

    /// The number of words of each monitor.
    pub fn monitors(&self) -> &[u32]
        ensures { result.now ≡ self.now.monitors }
    {
        self.monitors.as_slice()
    }

    /// The number of words of each output.
    pub fn outputs(&self) -> &[u32]
        ensures { result.now ≡ self.now.outputs }
    {
        self.outputs.as_slice()
    }

    pub fn tasks(&self) -> &[Task]
        ensures tasks { result.now ≡ self.now.tasks }
        ensures rules { KeepsRules self.now }
    {
        self.tasks.as_slice()
    }
}
