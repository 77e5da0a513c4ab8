ghost use Rattle.std.specs.Prelude.{◌≡◌, Some, take, drop};
ghost use Rattle.task_code.specs.Does.{is_take};

use crate::action::{Action, Change};
use crate::arrival::{bring, bring_tick, is_due};
use crate::execute::next;
use crate::lock::Lock;
use crate::message::Message;
use crate::own::Own;
use crate::queue::Queue;
use crate::start::{first_locks, first_parts, first_queues, no_locks, signal_messages};
use sqlite_items::Items;
use std::alloc::Global;
use std::collections::VecDeque;
use std::marker::Model;
use task_code::{Instr, Program};
use tower_syntax::{Entry, Events, Mark, SourceKind};
use tower_types::NoMemory;

/// A machine that runs. It has the messages of the signals that are to come, so that no step takes memory.
#[derive(Drop)]
pub struct Running {
    program: Program,
    events: Events,
    messages: VecDeque<Items<i128>>,
    tasks: Vec<Own>,
    locks: Vec<Lock>,
    queues: Vec<Queue>,
    holds: Vec<Option<u32>>,
    place: usize,
    ticks: u64,
    last: Option<Turn>,
}

/// A step of a task: whether its instruction was visible, and what OUT wrote.
#[derive(Clone, Copy, Debug)]
pub struct Turn {
    pub task: u32,
    pub visible: bool,
    pub wrote: Option<Piece>,
}

/// So many private words of a task from an address on, which an output got.
#[derive(Clone, Copy, Debug)]
pub struct Piece {
    pub output: u32,
    pub at: usize,
    pub words: usize,
}

impl Model for Running {
    ghost use Rattle.tower_syntax.specs.View.{events_of};
    ghost use Rattle.task_machine.specs.State.{State};
    ghost use Rattle.std.specs.Coded.{codes};
    ghost use Rattle.tower_types.specs.contracts.value.Value as value;

    ghost Value = { State };

    ghost coded = { Prim.hlevel (codes, value.the_row.coded) };

    ghost use Rattle.task_machine.specs.View.{machine_of, state_of, IsRunning};

    ghost view = { λ r. state_of r.program r.events (machine_of r.tasks.items r.locks.items r.queues.items r.place) r.tasks.items r.last };

    ghost invariant = { λ r. IsRunning r.program r.events r.tasks.items r.locks.items r.queues.items r.messages.items r.holds.items r.ticks r.place r.last };
}

impl Running {
    ghost use Rattle.std.specs.Prelude.{◌≡◌, IfOk};
    ghost use Rattle.tower_syntax.specs.View.{events_of};
    ghost use Rattle.task_code.specs.Fits.{Fits};
    ghost use Rattle.task_machine.specs.State.{start};

    /// The machine at its start. It takes all memory that it ever uses; on a refusal both arguments are dropped.
    pub fn new(alloc: Global, program: Program, events: Events) -> Result<Running, NoMemory>
        requires { Fits program (events_of events) }
        ensures { IfOk result (λ r. r ≡ start program events) }
    {
        let messages = signal_messages(alloc, events.entries.as_slice())?;
        let tasks = first_parts(alloc, program.tasks())?;
        let locks = first_locks(alloc, program.monitors())?;
        let queues = first_queues(
            alloc,
            events.kinds.as_slice(),
            events.depths.as_slice(),
            events.entries.as_slice(),
        )?;
        let holds = no_locks(alloc, program.tasks().len())?;
        Ok(Running {
            program,
            events,
            messages,
            tasks,
            locks,
            queues,
            holds,
            place: 0,
            ticks: 0,
            last: None,
        })
    }
}

impl Running {
    ghost use Rattle.std.specs.Prelude.{◌≡◌, ◌+◌, ◌<◌, ◌^◌, length, slice_get, Some, IfSome};
    ghost use Rattle.task_code.specs.declared.program.Task.{Task};
    ghost use Rattle.task_code.specs.Own.{Own as OwnPart};
    ghost use Rattle.task_machine.specs.Action.{effect, changed, HasRoom, IsWithin, CanGoOn};
    ghost use Rattle.task_machine.specs.State.{does_next, turned};
    ghost use Rattle.task_machine.specs.Noted.{IsNext, touched_by};

    /// What the next instruction of a task comes to.
    pub fn action(&self, x: usize) -> Action
        requires { x < length self.now.program.tasks }
        ensures { IsNext self.now x result }
    {
        let task = &self.program.tasks()[x];
        next(&self.tasks[x], &self.program, task)
    }

    /// The monitor whose lock the next instruction of a task takes or gives back.
    pub fn touched(&self, x: usize, action: Action) -> Option<u32>
        requires task { x < length self.now.program.tasks }
        requires next { IsNext self.now x action }
        ensures monitor { result ≡ touched_by (does_next self.now x) }
        ensures below { IfSome result (λ m. m < length self.now.program.monitors) }
    {
        match action {
            Action::Lock(monitor) => Some(monitor),
            Action::Unlock => self.holds[x],
            Action::Stuck => None,
            Action::Private(_) => None,
            Action::Take(_) => None,
            Action::Out(_, _, _) => None,
        }
    }
}

impl Running {
    ghost use Rattle.std.specs.Prelude.{◌≡◌, ◌<◌, Bool, true, false, Option, Some, None, not, length, nat_lt, slice_get};
    ghost use Rattle.tower_syntax.specs.Arrival.{is_init};
    ghost use Rattle.tower_syntax.specs.View.{events_of};
    ghost use Rattle.task_code.specs.declared.program.Task.{Task};
    ghost use Rattle.task_code.specs.Own.{Own as OwnPart};
    ghost use Rattle.task_code.specs.Does.{at_take};
    ghost use Rattle.task_code.specs.Machine.{queue};
    ghost use Rattle.task_code.specs.Standing.{is_clear, is_ready, at_lock, kind_at};

    /// The number of sources, which is that of the tasks.
    pub fn sources(&self) -> usize
        ensures kinds { result ≡ length (events_of self.now.events).kinds }
        ensures tasks { result ≡ length self.now.program.tasks }
        ensures parts { result ≡ length self.now.machine.tasks }
        ensures queues { result ≡ length self.now.machine.queues }
    {
        self.events.kinds.len()
    }

    pub fn is_init(&self, x: usize) -> bool
        ensures { result ≡ is_init (kind_at (events_of self.now.events) x) }
    {
        match sqlite_items::at(self.events.kinds.as_slice(), x) {
            Some(SourceKind::Init) => true,
            Some(SourceKind::Period(_)) => false,
            Some(SourceKind::Signal) => false,
            None => false,
        }
    }

    /// Does a message wait for a source.
    pub fn has_message(&self, x: usize) -> bool
        ensures { result ≡ nat_lt 0 (length (queue self.now.machine x)) }
    {
        x < self.queues.len() && self.queues[x].len() > 0
    }

    /// The number of monitors.
    pub fn monitors(&self) -> usize
        ensures { result ≡ length self.now.program.monitors }
    {
        self.program.monitors().len()
    }

    /// Is the lock of a monitor free.
    pub fn is_free(&self, m: usize) -> bool
        ensures { result ≡ is_ready (at_lock m (slice_get self.now.machine.locks m)) }
    {
        m < self.locks.len() && self.locks[m].words().is_some()
    }

    /// Is a task at TAKE, with an empty queue.
    pub fn is_clear(&self, x: usize) -> bool
        requires { x < length self.now.program.tasks }
        ensures clear { (t : Task) → (own : OwnPart) → slice_get self.now.program.tasks x ≡ Some t → slice_get self.now.machine.tasks x ≡ Some own → result ≡ is_clear t own (queue self.now.machine x) }
        ensures part { x < length self.now.machine.tasks }
        ensures queue { x < length self.now.machine.queues }
    {
        self.is_at_take(x) && !self.has_message(x)
    }

    fn is_at_take(&self, x: usize) -> bool
        requires { x < length self.now.program.tasks }
        ensures at { (t : Task) → (own : OwnPart) → slice_get self.now.program.tasks x ≡ Some t → slice_get self.now.machine.tasks x ≡ Some own → result ≡ at_take t own }
        ensures part { x < length self.now.machine.tasks }
        ensures queue { x < length self.now.machine.queues }
    {
        let task = &self.program.tasks()[x];
        match sqlite_items::at(task.code.as_slice(), self.tasks[x].place()) {
            Some(instr) => is_take(*instr),
            None => false,
        }
    }
}

/// So many words from a place on, as far as there are some.
fn part(words: &[i128], at: usize, n: usize) -> &[i128]
    ensures { result.now ≡ take n (drop at words.now) }
{
    let rest = &words[at.min(words.len())..];
    &rest[..n.min(rest.len())]
}

fn is_take(instr: Instr) -> bool
    ensures { result ≡ is_take (Some instr) }
{
    match instr {
        Instr::Take(_) => true,
        _ => false,
    }
}

impl Running {
    ghost use Rattle.std.specs.Prelude.{◌≡◌, ◌+◌, ◌<◌, ◌≤◌, ◌^◌, List, ℤ, length, slice_get, Some, IsSomeAnd};
    ghost use Rattle.task_code.specs.declared.program.Task.{Task};
    ghost use Rattle.task_code.specs.Own.{Own as OwnPart, held_monitor};
    ghost use Rattle.task_code.specs.Standing.{at_lock, IsReady};
    ghost use Rattle.task_machine.specs.Action.{effect, HasRoom};
    ghost use Rattle.task_machine.specs.State.{turned};

    /// A task executes an instruction on its own part.
    fn change(&mut self, x: u32, change: Change)
        requires task { x < length self.old.program.tasks }
        requires room { (own : OwnPart) → slice_get self.old.machine.tasks x ≡ Some own → HasRoom change own }
        requires place { (own : OwnPart) → slice_get self.old.machine.tasks x ≡ Some own → own.place + 1 < 2 ^ 64 }
        ensures { (own : OwnPart) → slice_get self.old.machine.tasks x ≡ Some own → self.new ≡ turned self.old x (effect (Action.Private change) own) }
    {
        self.tasks[x as usize].change(change);
        self.last = Some(Turn {
            task: x,
            visible: false,
            wrote: None,
        });
    }

    /// A task takes the oldest message of its source.
    fn take(&mut self, x: u32, at: usize)
        requires task { x < length self.old.program.tasks }
        requires within { (t : Task) → slice_get self.old.program.tasks x ≡ Some t → at + t.message ≤ t.room }
        requires waiting { (q : List (List ℤ)) → slice_get self.old.machine.queues x ≡ Some q → 0 < length q }
        requires place { (own : OwnPart) → slice_get self.old.machine.tasks x ≡ Some own → own.place + 1 < 2 ^ 64 }
        ensures { (own : OwnPart) → slice_get self.old.machine.tasks x ≡ Some own → self.new ≡ turned self.old x (effect (Action.Take at) own) }
    {
        let i = x as usize;
        match self.queues[i].take() {
            Some(message) => message.give(&mut self.tasks[i], at),
            None => unreachable!(),
        }
        self.last = Some(Turn {
            task: x,
            visible: true,
            wrote: None,
        });
    }

    /// A task locks a monitor that is free.
    fn lock(&mut self, x: u32, monitor: u32)
        requires task { x < length self.old.program.tasks }
        requires free { at_lock monitor (slice_get self.old.machine.locks monitor) ≡ IsReady }
        requires place { (own : OwnPart) → slice_get self.old.machine.tasks x ≡ Some own → own.place + 1 < 2 ^ 64 }
        ensures { (own : OwnPart) → slice_get self.old.machine.tasks x ≡ Some own → self.new ≡ turned self.old x (effect (Action.Lock monitor) own) }
    {
        let i = x as usize;
        match self.locks[monitor as usize].seize(x) {
            Some(words) => self.tasks[i].lock(monitor, words),
            None => unreachable!(),
        }
        self.holds[i] = Some(monitor);
        self.last = Some(Turn {
            task: x,
            visible: true,
            wrote: None,
        });
    }

    /// A task unlocks the monitor that it holds.
    fn unlock(&mut self, x: u32)
        requires task { x < length self.old.program.tasks }
        requires held { (own : OwnPart) → slice_get self.old.machine.tasks x ≡ Some own → IsSomeAnd (held_monitor own) (λ m. m < length self.old.program.monitors) }
        requires place { (own : OwnPart) → slice_get self.old.machine.tasks x ≡ Some own → own.place + 1 < 2 ^ 64 }
        ensures { (own : OwnPart) → slice_get self.old.machine.tasks x ≡ Some own → self.new ≡ turned self.old x (effect Action.Unlock own) }
    {
        let i = x as usize;
        match self.tasks[i].unlock() {
            Some((monitor, words)) => self.locks[monitor as usize] = Lock::free(words),
            None => unreachable!(),
        }
        self.holds[i] = None;
        self.last = Some(Turn {
            task: x,
            visible: true,
            wrote: None,
        });
    }

    /// A task gives an output some of its words.
    fn out(&mut self, x: u32, piece: Piece)
        requires task { x < length self.old.program.tasks }
        requires place { (own : OwnPart) → slice_get self.old.machine.tasks x ≡ Some own → own.place + 1 < 2 ^ 64 }
        requires output { piece.output < length self.old.program.outputs }
        ensures { (own : OwnPart) → slice_get self.old.machine.tasks x ≡ Some own → self.new ≡ turned self.old x (effect (Action.Out piece.output piece.at piece.words) own) }
    {
        self.tasks[x as usize].go_on();
        self.last = Some(Turn {
            task: x,
            visible: true,
            wrote: Some(piece),
        });
    }
}

impl Running {
    ghost use Rattle.std.specs.Prelude.{◌≡◌, ◌<◌, List, ℕ, ℤ, All, IfNone, IfSome, Some, length, map, nat_le, slice_get, slice_index};
    ghost use Rattle.std.specs.Option.{option_map, option_copied};
    ghost use Rattle.tower_syntax.specs.View.{events_of};
    ghost use Rattle.task_code.specs.Machine.{HeldBy};
    ghost use Rattle.task_machine.specs.Lock.{free_words_at};
    ghost use Rattle.task_machine.specs.Policy.{IsBelow};
    ghost use Rattle.task_machine.specs.State.{State, holds, wrote_last};

    /// For each task the monitor whose lock it holds.
    pub fn holds(&self) -> &[Option<u32>]
        ensures held { result.now ≡ holds self.now }
        ensures below { All (IsBelow (length self.now.program.monitors)) result.now }
        ensures count { length result.now ≡ length self.now.program.tasks }
    {
        self.holds.as_slice()
    }

    /// The words of a monitor, where no task holds its lock.
    pub fn monitor(&self, m: usize) -> Option<&[i128]>
        requires { m < length self.now.program.monitors }
        ensures words { option_copied result ≡ free_words_at (slice_get self.now.machine.locks m) }
        ensures locked { IfNone result ((t : ℕ) × (slice_get self.now.machine.locks m ≡ Some (HeldBy t))) }
        ensures length { IfSome result (λ ws. length ws.now ≡ slice_index self.now.program.monitors m) }
    {
        match self.locks.get(m) {
            Some(lock) => lock.words(),
            None => None,
        }
    }

    /// The output of the last step and the words that it got, where that step was an OUT.
    pub fn wrote(&self) -> Option<(u32, &[i128])>
        ensures value { option_map (λ w. (w.0, w.1.now)) result ≡ wrote_last self.now }
        ensures output { IfSome result (λ w. w.0 < length self.now.program.outputs) }
    {
        let turn = self.last?;
        let piece = turn.wrote?;
        let words = match self.tasks.get(turn.task as usize) {
            Some(own) => own.words(),
            None => &[],
        };
        Some((piece.output, part(words, piece.at, piece.words)))
    }

    /// How many messages of a source were dropped.
    pub fn lost(&self, source: usize) -> u64
        requires { source < length self.now.program.tasks }
        ensures { result ≡ slice_index self.now.machine.lost source }
    {
        self.queues[source].lost()
    }

    /// Is the record at its end.
    pub fn has_ended(&self) -> bool
        ensures { result ≡ nat_le (length (events_of self.now.events).entries) self.now.machine.place }
    {
        self.place >= self.events.entries.len()
    }

    /// The task of the last step and whether its instruction was visible, where that step was one of a task.
    pub fn last(&self) -> Option<(u32, bool)>
        ensures value { result ≡ option_map (λ t. (t.task, t.visible)) self.now.last }
        ensures task { IfSome result (λ t. t.0 < length self.now.program.tasks) }
    {
        match self.last {
            Some(turn) => Some((turn.task, turn.visible)),
            None => None,
        }
    }
}

impl Running {
    ghost use Rattle.std.specs.Prelude.{◌≡◌, ◌<◌, length};
    ghost use Rattle.task_code.specs.Run.{mark_of};
    ghost use Rattle.task_code.specs.Standing.{IsReady};
    ghost use Rattle.task_machine.specs.State.{standing_in, does_next, turned, first_of};
    ghost use Rattle.task_machine.specs.Noted.{IsNext};

    /// A task that is ready executes its next instruction, which comes to this. Answers the mark that this makes.
    pub fn turn(&mut self, x: u32, action: Action) -> Option<Mark>
        requires task { x < length self.old.program.tasks }
        requires next { IsNext self.old x action }
        requires ready { standing_in self.old x ≡ IsReady }
        ensures state { self.new ≡ turned self.old x (does_next self.old x) }
        ensures mark { result ≡ first_of (mark_of x (does_next self.old x)) }
    {
        match action {
            Action::Stuck => unreachable!(),
            Action::Private(change) => {
                self.change(x, change);
                None
            }
            Action::Take(at) => {
                self.take(x, at);
                Some(Mark::Start(x))
            }
            Action::Lock(monitor) => {
                self.lock(x, monitor);
                None
            }
            Action::Unlock => {
                self.unlock(x);
                Some(Mark::Run(x))
            }
            Action::Out(output, at, words) => {
                self.out(x, Piece { output, at, words });
                Some(Mark::Out(x))
            }
        }
    }
}

/// What the next entry of the record is.
#[derive(Clone, Copy, Debug)]
pub enum Arrival {
    Tick,
    Signal(u32),
}

impl Running {
    ghost use Rattle.std.specs.Prelude.{◌≡◌, ◌<◌, Some, length};
    ghost use Rattle.tower_types.specs.Value.{Value};
    ghost use Rattle.tower_syntax.specs.Arch.{tick, signal};
    ghost use Rattle.task_machine.specs.State.{Comes, arrived, next_entry};
    ghost use Rattle.task_machine.specs.Arriving.{IsArrival, IsSignal, Stays, reaches, came_of};

    /// The next entry of the record comes, if there is one.
    pub fn event(&mut self) -> Option<Arrival>
        ensures step { Comes self.old (next_entry self.old) (came_of result) self.new }
        ensures stays { Stays (reaches result self.new) self.old self.new }
    {
        match self.next_arrival() {
            None => None,
            Some(Arrival::Tick) => {
                self.tick();
                Some(Arrival::Tick)
            }
            Some(Arrival::Signal(x)) => {
                self.signal(x);
                Some(Arrival::Signal(x))
            }
        }
    }

    /// Did an entry that has come bring a message to a source, also one that was dropped.
    pub fn is_reached(&self, arrival: Arrival, x: usize) -> bool
        requires { x < length self.now.program.tasks }
        ensures { result ≡ reaches (Some arrival) self.now x }
    {
        match arrival {
            Arrival::Tick => is_due(self.ticks, self.events.kinds.as_slice()[x]),
            Arrival::Signal(y) => y as usize == x,
        }
    }

    fn next_arrival(&self) -> Option<Arrival>
        ensures { IsArrival result (next_entry self.now) }
    {
        match sqlite_items::at(self.events.entries.as_slice(), self.place) {
            Some(Entry::Tick) => Some(Arrival::Tick),
            Some(Entry::Signal(x, _)) => Some(Arrival::Signal(*x)),
            None => None,
        }
    }

    fn tick(&mut self)
        requires { next_entry self.old ≡ Some tick }
        ensures step { self.new ≡ arrived self.old tick }
        ensures stays { Stays (reaches (Some Arrival.Tick) self.new) self.old self.new }
    {
        prove!(self.place < self.events.entries.len());
        self.ticks += 1;
        bring_tick(
            self.events.kinds.as_slice(),
            self.events.depths.as_slice(),
            self.ticks,
            &mut self.queues,
        );
        self.place += 1;
        self.last = None;
    }

    fn signal(&mut self, x: u32)
        requires { IsSignal x (next_entry self.old) }
        ensures step { (v : Value) → next_entry self.old ≡ Some (signal x v) → self.new ≡ arrived self.old (signal x v) }
        ensures stays { Stays (reaches (Some (Arrival.Signal x)) self.new) self.old self.new }
    {
        prove!(self.place < self.events.entries.len());
        match self.messages.pop_front() {
            Some(words) => bring(
                self.events.depths.as_slice(),
                &mut self.queues,
                x as usize,
                Message::Words(words),
            ),
            None => unreachable!(),
        }
        self.place += 1;
        self.last = None;
    }
}
