use crate::action::Action;
use crate::running::Running;

/// How a task stands.
#[derive(Clone, Copy, Debug, PartialEq, Eq)]
pub enum Standing {
    Ready,
    /// It is at TAKE, and its queue is empty or it is held back by the initialisation.
    Idle,
    /// Another task holds the lock of the monitor.
    Waiting(u32),
    /// Its place is past the code, or the condition of its instruction fails.
    Stuck,
}

impl Standing {
    ghost use Rattle.std.specs.Prelude.{◌≡◌};
    ghost use Rattle.task_code.specs.Standing.{is_ready, is_idle};
    ghost use Rattle.task_machine.specs.Standing.{standing_of};

    pub fn is_ready(self) -> bool
        ensures { result ≡ is_ready (standing_of self) }
    {
        match self {
            Standing::Ready => true,
            Standing::Idle => false,
            Standing::Waiting(_) => false,
            Standing::Stuck => false,
        }
    }

    pub fn is_idle(self) -> bool
        ensures { result ≡ is_idle (standing_of self) }
    {
        match self {
            Standing::Idle => true,
            Standing::Ready => false,
            Standing::Waiting(_) => false,
            Standing::Stuck => false,
        }
    }
}

impl Running {
    ghost use Rattle.std.specs.Prelude.{◌≡◌, ◌<◌, ◌&&◌, not, length, slice_get};
    ghost use Rattle.tower_syntax.specs.View.{events_of};
    ghost use Rattle.task_code.specs.Standing.{inits_clear, at_queue, at_lock, kind_at};
    ghost use Rattle.tower_syntax.specs.Arrival.{is_init};
    ghost use Rattle.task_code.specs.Machine.{queue};
    ghost use Rattle.task_machine.specs.State.{does_next};
    ghost use Rattle.task_machine.specs.Noted.{IsNext, clear_in, stands_by};
    ghost use Rattle.task_machine.specs.Standing.{standing_of};

    /// Is the task of each initialisation at TAKE, with an empty queue.
    pub fn inits_clear(&self) -> bool
        ensures { result ≡ clear_in self.now }
    {
        for x in 0..self.sources() {
            if self.is_init(x) && !self.is_clear(x) {
                return false;
            }
        }
        true
    }

    /// How a task stands whose next instruction comes to this, where it is known whether the initialisation is over.
    pub fn stands(&self, x: usize, action: Action, clear: bool) -> Standing
        requires task { x < length self.now.program.tasks }
        requires next { IsNext self.now x action }
        ensures { standing_of result ≡ stands_by clear self.now x (does_next self.now x) }
    {
        match action {
            Action::Stuck => Standing::Stuck,
            Action::Private(_) => Standing::Ready,
            Action::Take(_) => self.stands_at_take(x, clear),
            Action::Lock(m) => self.stands_at_lock(m),
            Action::Unlock => Standing::Ready,
            Action::Out(_, _, _) => Standing::Ready,
        }
    }

    fn stands_at_take(&self, x: usize, clear: bool) -> Standing
        ensures { standing_of result ≡ at_queue (not (is_init (kind_at (events_of self.now.events) x)) && not clear) (queue self.now.machine x) }
    {
        if self.has_message(x) && (clear || self.is_init(x)) {
            Standing::Ready
        } else {
            Standing::Idle
        }
    }

    fn stands_at_lock(&self, m: u32) -> Standing
        ensures { standing_of result ≡ at_lock m (slice_get self.now.machine.locks m) }
    {
        if self.is_free(m as usize) {
            Standing::Ready
        } else {
            Standing::Waiting(m)
        }
    }
}
