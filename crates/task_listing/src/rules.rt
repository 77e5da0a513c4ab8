//! The rules that an instruction keeps in a task.
ghost use Rattle.std.specs.Prelude.{◌≡◌};
ghost use Rattle.task_code.specs.declared.program.Instr.{Instr};
ghost use Rattle.task_listing.specs.Judging.{keeps, is_range};

use task_code::Instr;
use tower_types::is_number;

/// The numbers of a `task` line that its instructions depend on: the words of a message, the private words, and how
/// many buffers and instructions the task has.
#[derive(Clone, Copy, Debug, PartialEq, Eq)]
pub struct Head {
    pub message: u32,
    pub room: u32,
    pub buffers: u32,
    pub code: u32,
}

fn is_range(a: u32, n: u32, room: u32) -> bool
    ensures { result ≡ is_range a n room }
{
    1 <= n && u64::from(a) + u64::from(n) <= u64::from(room)
}

/// What the instructions of a task may name.
#[derive(Clone, Copy)]
pub(crate) struct Limits<'a> {
    pub(crate) monitors: &'a [u32],
    pub(crate) outputs: &'a [u32],
    pub(crate) head: Head,
}

impl Limits<'_> {
    fn has_in_monitor(&self, m: u32, a: u32, n: u32) -> bool
        ensures { result ≡ keeps self.now.monitors.now self.now.outputs.now self.now.head (Instr.Ldm m a n) }
    {
        match self.monitors.get(m as usize) {
            Some(words) => is_range(a, n, *words),
            None => false,
        }
    }

    fn has_output(&self, o: u32, a: u32) -> bool
        ensures { result ≡ keeps self.now.monitors.now self.now.outputs.now self.now.head (Instr.Out o a) }
    {
        match self.outputs.get(o as usize) {
            Some(words) => u64::from(a) + u64::from(*words) <= u64::from(self.head.room),
            None => false,
        }
    }

    fn has_monitor(&self, m: u32) -> bool
        ensures { result ≡ keeps self.now.monitors.now self.now.outputs.now self.now.head (Instr.Lock m) }
    {
        (m as usize) < self.monitors.len()
    }

    fn has_message(&self, a: u32) -> bool
        ensures { result ≡ keeps self.now.monitors.now self.now.outputs.now self.now.head (Instr.Take a) }
    {
        u64::from(a) + u64::from(self.head.message) <= u64::from(self.head.room)
    }

    /// Whether an instruction keeps the rules.
    pub(crate) fn keeps(&self, instr: Instr) -> bool
        ensures { result ≡ keeps self.now.monitors.now self.now.outputs.now self.now.head instr }
    {
        match instr {
            Instr::Push(_) | Instr::Drop | Instr::Dup | Instr::Ret => true,
            Instr::Un(_, _) | Instr::Bin(_, _) => true,
            Instr::Ld(a) | Instr::St(a) => a < self.head.room,
            Instr::Ldx(a, n) | Instr::Stx(a, n) => is_range(a, n, self.head.room),
            Instr::Ldm(m, a, n) | Instr::Stm(m, a, n) => self.has_in_monitor(m, a, n),
            Instr::Cast(scalar) => is_number(scalar),
            Instr::Jmp(to) | Instr::Jz(to) | Instr::Call(to) => to < self.head.code,
            Instr::Take(a) => self.has_message(a),
            Instr::Lock(m) | Instr::Unlock(m) => self.has_monitor(m),
            Instr::Out(o, a) => self.has_output(o, a),
            Instr::Bclr(b) | Instr::Bput(b) | Instr::Badd(b) => b < self.head.buffers,
            Instr::Bget(b) | Instr::Bcnt(b) => b < self.head.buffers,
        }
    }
}
