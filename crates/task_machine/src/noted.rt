ghost use Rattle.std.specs.Prelude.{◌≡◌, ◌<◌, ℕ, Some, IfOk, true, false, length, replicate, slice_get, slice_set};
ghost use Rattle.std.specs.List.{list_all};
ghost use Rattle.task_code.specs.Standing.{is_idle};
ghost use Rattle.task_machine.specs.Bits.{words_for};
ghost use Rattle.task_machine.specs.State.{State, standing_in};
ghost use Rattle.task_machine.specs.Arriving.{reaches};
ghost use Rattle.task_machine.specs.Noted.{IsNext, AreNext, IsFlagged, lock_in, ready_by, clear_in};

use crate::action::Action;
use crate::bits::{Bits, mark};
use crate::running::{Arrival, Running};
use crate::standing::Standing;
use std::alloc::Global;
use std::marker::Model;
use tower_types::NoMemory;

/// What a machine keeps of how its tasks stand, so that a step looks only at the tasks whose standing it can change.
#[derive(Drop)]
pub struct Noted {
    /// Of each task what its next instruction comes to.
    actions: Vec<Action>,
    /// Of each task whether it is ready.
    ready: Vec<bool>,
    /// Of each monitor the tasks that are at a LOCK of it.
    at_lock: Vec<Bits>,
    /// No task.
    blank: Bits,
    /// Is the initialisation over.
    clear: bool,
}

impl Model for Noted {
    ghost use Rattle.task_machine.specs.Noted.{Notes};

    ghost Value = { Notes };

    ghost view = { λ n. record { actions = n.actions.items; ready = n.ready.items; rows = n.at_lock.items; blank = n.blank; clear = n.clear } };
}

/// So many tasks that do nothing.
fn no_actions(alloc: Global, tasks: usize) -> Result<Vec<Action>, NoMemory>
    ensures { IfOk result (λ actions. actions.items ≡ replicate tasks Action.Stuck) }
{
    Ok(vec![in alloc; Action::Stuck; tasks]?)
}

/// So many tasks that are not ready.
fn no_flags(alloc: Global, tasks: usize) -> Result<Vec<bool>, NoMemory>
    ensures { IfOk result (λ flags. flags.items ≡ replicate tasks false) }
{
    Ok(vec![in alloc; false; tasks]?)
}

/// For so many monitors no task at a LOCK.
fn no_rows(alloc: Global, monitors: usize, tasks: usize) -> Result<Vec<Bits>, NoMemory>
    ensures { IfOk result (λ rows. rows.items ≡ replicate monitors (replicate (words_for tasks) 0)) }
{
    let mut rows = Vec::new(alloc);
    for _ in 0..monitors {
        rows.push(Bits::none(alloc, tasks)?)?;
    }
    Ok(rows)
}

/// Notes whether a task is ready.
fn stand(running: &Running, actions: &[Action], clear: bool, x: usize, ready: &mut Vec<bool>)
    requires task { x < length running.now.program.tasks }
    requires next { (a : Action) → slice_get actions.now x ≡ Some a → IsNext running.now x a }
    requires actions { length actions.now ≡ length running.now.program.tasks }
    requires ready { length ready.old.items ≡ length running.now.program.tasks }
    ensures { ready.new.items ≡ slice_set ready.old.items x (ready_by clear running.now x) }
{
    ready[x] = running.stands(x, actions[x], clear).is_ready();
}

/// Notes of all tasks whether they are ready.
fn stand_all(running: &Running, actions: &[Action], clear: bool, ready: &mut Vec<bool>)
    requires next { AreNext running.now actions.now }
    requires actions { length actions.now ≡ length running.now.program.tasks }
    requires ready { length ready.old.items ≡ length running.now.program.tasks }
    ensures each { (x : ℕ) → x < length running.now.program.tasks → IsFlagged clear running.now ready.new.items x }
    ensures count { length ready.new.items ≡ length ready.old.items }
{
    for x in 0..actions.len() {
        stand(running, actions, clear, x, ready);
    }
}

/// Notes of the tasks that an entry reached whether they are ready.
fn stand_reached(
    running: &Running,
    actions: &[Action],
    clear: bool,
    arrival: Arrival,
    ready: &mut Vec<bool>,
)
    requires next { AreNext running.now actions.now }
    requires actions { length actions.now ≡ length running.now.program.tasks }
    requires ready { length ready.old.items ≡ length running.now.program.tasks }
    ensures reached { (x : ℕ) → x < length running.now.program.tasks → reaches (Some arrival) running.now x ≡ true → IsFlagged clear running.now ready.new.items x }
    ensures others { (x : ℕ) → reaches (Some arrival) running.now x ≡ false → slice_get ready.new.items x ≡ slice_get ready.old.items x }
    ensures count { length ready.new.items ≡ length ready.old.items }
{
    for x in 0..actions.len() {
        if running.is_reached(arrival, x) {
            stand(running, actions, clear, x, ready);
        }
    }
}

/// The monitor at whose LOCK a task is.
fn lock_in(action: Action) -> Option<u32>
    ensures { result ≡ lock_in action }
{
    match action {
        Action::Lock(monitor) => Some(monitor),
        Action::Stuck | Action::Private(_) | Action::Take(_) => None,
        Action::Unlock | Action::Out(_, _, _) => None,
    }
}

impl Noted {
    ghost use Rattle.task_machine.specs.Noted.{HasPlaces, IsNoted, IsInNone, AreNoted, OthersStay};

    /// What is to be noted of a machine, with all the memory that this ever takes.
    pub fn new(alloc: Global, running: &Running) -> Result<Noted, NoMemory>
        ensures { IfOk result (λ n. AreNoted running.now n) }
    {
        let tasks = running.sources();
        let mut noted = Noted {
            actions: no_actions(alloc, tasks)?,
            ready: no_flags(alloc, tasks)?,
            at_lock: no_rows(alloc, running.monitors(), tasks)?,
            blank: Bits::none(alloc, tasks)?,
            clear: running.inits_clear(),
        };
        noted.note_all(running);
        Ok(noted)
    }

    /// Notes what the next instruction of a task comes to, which is at no LOCK so far.
    fn note(&mut self, running: &Running, x: usize)
        requires task { x < length running.now.program.tasks }
        requires places { HasPlaces running.now self.old }
        requires none { IsInNone self.old x }
        ensures places { HasPlaces running.now self.new }
        ensures here { IsNoted running.now self.new x }
        ensures others { OthersStay x self.old self.new }
    {
        let action = running.action(x);
        self.actions[x] = action;
        match lock_in(action) {
            Some(m) => self.at_lock[m as usize].add(x),
            None => {}
        }
    }

    /// Notes all of all tasks, which are at no LOCK so far.
    fn note_all(&mut self, running: &Running)
        requires places { HasPlaces running.now self.old }
        requires none { (x : ℕ) → IsInNone self.old x }
        requires clear { self.old.clear ≡ clear_in running.now }
        ensures { AreNoted running.now self.new }
    {
        self.note_actions(running);
        stand_all(
            running,
            self.actions.as_slice(),
            self.clear,
            &mut self.ready,
        );
    }

    fn note_actions(&mut self, running: &Running)
        requires places { HasPlaces running.now self.old }
        requires none { (x : ℕ) → IsInNone self.old x }
        ensures places { HasPlaces running.now self.new }
        ensures each { (x : ℕ) → IsNoted running.now self.new x }
        ensures clear { self.new.clear ≡ self.old.clear }
    {
        for x in 0..running.sources() {
            self.note(running, x);
        }
    }
}

impl Noted {
    ghost use Rattle.std.specs.Prelude.{None, IfSome};
    ghost use Rattle.task_machine.specs.Noted.{AreNoted, IsLeft, IsStale, IsReached};

    /// Task `x` has executed an instruction, which took or gave back the lock of the monitor that was touched. Notes how
    /// it stands now, those at a LOCK of that monitor, and, where the last initialisation is over, all tasks.
    pub fn settle(&mut self, running: &Running, x: usize, touched: Option<u32>)
        requires task { x < length running.now.program.tasks }
        requires monitor { IfSome touched (λ m. m < length running.now.program.monitors) }
        requires left { IsLeft x touched running.now self.old }
        ensures { AreNoted running.now self.new }
    {
        self.release(running, x, touched);
        self.note(running, x);
        self.stand(running, x);
    }

    /// Notes that task `x` is at no LOCK of the monitor that was touched, and of those that are whether they are ready.
    fn release(&mut self, running: &Running, x: usize, touched: Option<u32>)
        requires task { x < length running.now.program.tasks }
        requires monitor { IfSome touched (λ m. m < length running.now.program.monitors) }
        requires left { IsLeft x touched running.now self.old }
        ensures { IsLeft x None running.now self.new }
    {
        match touched {
            Some(m) => self.release_at(running, x, m as usize),
            None => {}
        }
    }

    fn release_at(&mut self, running: &Running, x: usize, m: usize)
        requires task { x < length running.now.program.tasks }
        requires monitor { m < length running.now.program.monitors }
        requires left { IsLeft x (Some m) running.now self.old }
        ensures { IsLeft x None running.now self.new }
    {
        let free = running.is_free(m);
        self.at_lock[m].remove(x);
        mark(self.at_lock[m].words(), &mut self.ready, free);
    }

    /// Is the initialisation over, after an instruction of task `x`.
    fn is_clear_after(&self, running: &Running, x: usize) -> bool
        requires task { x < length running.now.program.tasks }
        requires stale { IsStale x running.now self.now }
        ensures { result ≡ clear_in running.now }
    {
        if running.is_init(x) {
            running.is_clear(x) && running.inits_clear()
        } else {
            self.clear
        }
    }

    /// Notes whether task `x` is ready, and where the initialisation is over now, whether each is.
    fn stand(&mut self, running: &Running, x: usize)
        requires task { x < length running.now.program.tasks }
        requires stale { IsStale x running.now self.old }
        ensures { AreNoted running.now self.new }
    {
        let clear = self.is_clear_after(running, x);
        if clear == self.clear {
            stand(running, self.actions.as_slice(), clear, x, &mut self.ready);
        } else {
            self.clear = clear;
            stand_all(running, self.actions.as_slice(), clear, &mut self.ready);
        }
    }

    /// An entry came. Notes of the tasks that it reaches whether they are ready.
    pub fn reach(&mut self, running: &Running, arrival: Arrival)
        requires { IsReached (reaches (Some arrival) running.now) running.now self.old }
        ensures { AreNoted running.now self.new }
    {
        stand_reached(
            running,
            self.actions.as_slice(),
            self.clear,
            arrival,
            &mut self.ready,
        );
    }
}

impl Noted {
    ghost use Rattle.std.specs.Prelude.{◌↔◌};
    ghost use Rattle.task_code.specs.Standing.{IsWaiting};
    ghost use Rattle.task_machine.specs.Bits.{bit};
    ghost use Rattle.task_machine.specs.Noted.{AreNoted};
    ghost use Rattle.task_machine.specs.State.{ready};
    ghost use Rattle.task_machine.specs.Standing.{standing_of};
    ghost use Rattle.task_code.specs.Standing.{standings};
    ghost use Rattle.tower_syntax.specs.View.{events_of};

    /// Which tasks are ready.
    pub fn ready(&self) -> &[bool]
        ensures { (s : State) → AreNoted s self.now → result.now ≡ ready s }
    {
        self.ready.as_slice()
    }

    /// The tasks that wait for a monitor.
    pub fn waiters(&self, running: &Running, m: usize) -> &[u64]
        requires monitor { m < length running.now.program.monitors }
        requires noted { AreNoted running.now self.now }
        ensures count { length result.now ≡ words_for (length running.now.program.tasks) }
        ensures bits { (t : ℕ) → (bit result.now t ≡ 1) ↔ (standing_in running.now t ≡ IsWaiting m) }
    {
        if running.is_free(m) {
            self.blank.words()
        } else {
            self.at_lock[m].words()
        }
    }

    /// What the next instruction of a task comes to.
    pub fn action(&self, running: &Running, x: usize) -> Action
        requires task { x < length running.now.program.tasks }
        requires noted { AreNoted running.now self.now }
        ensures { IsNext running.now x result }
    {
        self.actions[x]
    }

    /// How a task stands.
    pub fn standing(&self, running: &Running, x: usize) -> Standing
        requires task { x < length running.now.program.tasks }
        requires noted { AreNoted running.now self.now }
        ensures { standing_of result ≡ standing_in running.now x }
    {
        running.stands(x, self.action(running, x), self.clear)
    }

    /// Are all tasks idle.
    pub fn are_idle(&self, running: &Running) -> bool
        requires { AreNoted running.now self.now }
        ensures { result ≡ list_all is_idle (standings running.now.program (events_of running.now.events) running.now.machine) }
    {
        for x in 0..running.sources() {
            if !self.standing(running, x).is_idle() {
                return false;
            }
        }
        true
    }
}
