ghost use Rattle.std.specs.List.{list_any};

use crate::noted::Noted;
use crate::policy::Policy;
use crate::running::Running;
use crate::standing::Standing;
use std::alloc::Global;
use std::marker::Model;
use task_code::Program;
use tower_syntax::{Events, Mark};
use tower_types::NoMemory;

/// What came of a `go`.
#[derive(Clone, Copy, Debug, PartialEq, Eq)]
pub enum Went {
    /// A task executed an instruction, which made the mark.
    Stepped(Option<Mark>),
    NoneReady,
}

/// What came of an `event`.
#[derive(Clone, Copy, Debug, PartialEq, Eq)]
pub enum Came {
    Arrived,
    /// The record is at its end.
    NoMore,
}

/// A machine that executes a program on an event record.
#[derive(Drop)]
pub struct Machine {
    running: Running,
    noted: Noted,
}

impl Model for Machine {
    ghost use Rattle.std.specs.Prelude.{◌≡◌, length};
    ghost use Rattle.std.specs.Coded.{codes};
    ghost use Rattle.tower_types.specs.contracts.value.Value as value;
    ghost use Rattle.task_machine.specs.State.{State};

    ghost Value = { State };

    ghost coded = { Prim.hlevel (codes, value.the_row.coded) };

    ghost view = { λ m. m.running };

    ghost use Rattle.task_machine.specs.Noted.{AreNoted};

    ghost invariant = { λ m. AreNoted m.running m.noted };
}

impl Machine {
    ghost use Rattle.std.specs.Prelude.{◌≡◌, ◌<◌, ◌↔◌, IfSome, IfNone, IfOk, true, List, ℕ, ℤ, Some, length, slice_get, slice_index};
    ghost use Rattle.std.specs.List.{list_any};
    ghost use Rattle.std.specs.Option.{option_map, option_copied};
    ghost use Rattle.tower_syntax.specs.View.{events_of};
    ghost use Rattle.task_code.specs.Fits.{Fits};
    ghost use Rattle.task_code.specs.Standing.{is_finished, IsReady, IsWaiting};
    ghost use Rattle.task_code.specs.Run.{mark_of};
    ghost use Rattle.task_machine.specs.Bits.{words_for, bit};
    ghost use Rattle.task_code.specs.Machine.{HeldBy};
    ghost use Rattle.task_machine.specs.Lock.{free_words_at};
    ghost use Rattle.task_machine.specs.Standing.{standing_of};
    ghost use Rattle.task_machine.specs.State.{State, Goes, Comes, ready, holds, standing_in, next_entry, start, wrote_last, does_next, turned, first_of};

    /// A machine for a program, on an event record that fits it. It takes all memory that the machine ever uses. On a
    /// refusal both arguments are dropped.
    pub fn new(alloc: Global, program: Program, events: Events) -> Result<Machine, NoMemory>
        requires { Fits program (events_of events) }
        ensures { IfOk result (λ m. m ≡ start program events) }
    {
        let running = Running::new(alloc, program, events)?;
        let noted = Noted::new(alloc, &running)?;
        Ok(Machine { running, noted })
    }

    /// The task that the rule names for the number `k` executes one instruction. `NoneReady` comes exactly where no
    /// task is ready, and changes nothing. `Stepped` has the mark of a TAKE, an UNLOCK or an OUT, and none at another
    /// instruction.
    pub fn go<P: Policy>(&mut self, policy: &P, k: u32) -> Went
        requires tasks { P.tasks policy.now ≡ length self.old.program.tasks }
        requires monitors { IfSome (P.monitors policy.now) (λ n. n ≡ length self.old.program.monitors) }
        ensures step { Goes self.old (P.names policy.now (ready self.old) (holds self.old) k) result self.new }
        ensures none { (result ≡ Went.NoneReady) ↔ ((x : ℕ) → slice_get (ready self.old) x ≡ Some true → ⊥) }
        ensures program { self.new.program ≡ self.old.program }
        ensures events { self.new.events ≡ self.old.events }
    {
        match policy.pick(self.noted.ready(), self.running.holds(), k) {
            Some(x) => Went::Stepped(self.step(x)),
            None => Went::NoneReady,
        }
    }

    /// A task that is ready executes its next instruction. Answers the mark that this makes.
    fn step(&mut self, x: u32) -> Option<Mark>
        requires task { x < length self.old.program.tasks }
        requires ready { standing_in self.old x ≡ IsReady }
        ensures state { self.new ≡ turned self.old x (does_next self.old x) }
        ensures mark { result ≡ first_of (mark_of x (does_next self.old x)) }
    {
        let action = self.noted.action(&self.running, x as usize);
        let touched = self.running.touched(x as usize, action);
        let mark = self.running.turn(x, action);
        self.noted.settle(&self.running, x as usize, touched);
        mark
    }

    /// The next entry of the record comes. `NoMore` comes exactly at the record's end, and changes nothing. `Arrived`
    /// comes also where messages were dropped.
    pub fn event(&mut self) -> Came
        ensures step { Comes self.old (next_entry self.old) result self.new }
        ensures program { self.new.program ≡ self.old.program }
        ensures events { self.new.events ≡ self.old.events }
    {
        match self.running.event() {
            Some(arrival) => {
                self.noted.reach(&self.running, arrival);
                Came::Arrived
            }
            None => Came::NoMore,
        }
    }

    /// How a task stands.
    pub fn standing(&self, task: u32) -> Standing
        requires { task < length self.now.program.tasks }
        ensures { standing_of result ≡ standing_in self.now task }
    {
        self.noted.standing(&self.running, task as usize)
    }

    /// For each task whether it is ready. It takes no memory.
    pub fn ready(&self) -> &[bool]
        ensures ready { result.now ≡ ready self.now }
        ensures count { length result.now ≡ length self.now.program.tasks }
    {
        self.noted.ready()
    }

    /// Which tasks wait for a monitor: task t has the bit t modulo 64, counted from the lowest, of the word t / 64. Bits
    /// that are no task's are 0. It takes no memory.
    pub fn waiters(&self, m: u32) -> &[u64]
        requires { m < length self.now.program.monitors }
        ensures count { length result.now ≡ words_for (length self.now.program.tasks) }
        ensures bits { (t : ℕ) → (bit result.now t ≡ 1) ↔ (standing_in self.now t ≡ IsWaiting m) }
    {
        self.noted.waiters(&self.running, m as usize)
    }

    /// Is a task ready.
    pub fn is_any_ready(&self) -> bool
        ensures { result ≡ list_any (λ b. b) (ready self.now) }
    {
        self.noted.ready().iter().any(|ready| *ready)
    }

    /// The words of a monitor. `None` comes exactly where a task holds its lock.
    pub fn monitor(&self, m: u32) -> Option<&[i128]>
        requires { m < length self.now.program.monitors }
        ensures words { option_copied result ≡ free_words_at (slice_get self.now.machine.locks m) }
        ensures locked { IfNone result ((t : ℕ) × (slice_get self.now.machine.locks m ≡ Some (HeldBy t))) }
        ensures length { IfSome result (λ ws. length ws.now ≡ slice_index self.now.program.monitors m) }
    {
        self.running.monitor(m as usize)
    }

    /// The output of the last step and the words that it got. `None` comes exactly where that step was no OUT.
    pub fn wrote(&self) -> Option<(u32, &[i128])>
        ensures value { option_map (λ w. (w.0, w.1.now)) result ≡ wrote_last self.now }
        ensures output { IfSome result (λ w. w.0 < length self.now.program.outputs) }
    {
        self.running.wrote()
    }

    /// Is the record at its end, with all tasks idle.
    pub fn finished(&self) -> bool
        ensures { result ≡ is_finished self.now.program (events_of self.now.events) self.now.machine }
    {
        self.running.has_ended() && self.noted.are_idle(&self.running)
    }

    /// The task of the last step and whether its instruction was visible. `None` comes exactly where the last step
    /// was an event, or there was none.
    pub fn last(&self) -> Option<(u32, bool)>
        ensures value { result ≡ option_map (λ t. (t.task, t.visible)) self.now.last }
        ensures task { IfSome result (λ t. t.0 < length self.now.program.tasks) }
    {
        self.running.last()
    }

    /// For each task the monitor whose lock it holds.
    pub fn holds(&self) -> &[Option<u32>]
        ensures held { result.now ≡ holds self.now }
        ensures count { length result.now ≡ length self.now.program.tasks }
    {
        self.running.holds()
    }

    /// How many messages of a source found its queue full.
    pub fn lost(&self, source: u32) -> u64
        requires { source < length self.now.program.tasks }
        ensures { result ≡ slice_index self.now.machine.lost source }
    {
        self.running.lost(source as usize)
    }
}
