use sqlite_items::Items;
use std::marker::Model;

/// The lock of a monitor: free, with the monitor's words, or with the task that holds it and has the words.
#[derive(Drop)]
pub struct Lock {
    kept: Kept,
}

#[derive(Drop)]
enum Kept {
    Free(Items<i128>),
    HeldBy(u32),
}

impl Model for Lock {
    ghost use Rattle.task_code.specs.Machine.{Lock as MonitorLock};

    ghost Value = { MonitorLock };

    ghost use Rattle.task_machine.specs.Lock.{lock_of};

    ghost view = { λ l. lock_of l.kept };
}

impl Lock {
    ghost use Rattle.std.specs.Prelude.{◌≡◌};
    ghost use Rattle.std.specs.Option.{option_copied};
    ghost use Rattle.task_code.specs.Machine.{Free as IsFree, HeldBy as IsHeldBy};
    ghost use Rattle.task_machine.specs.Lock.{free_words};

    pub fn free(words: Items<i128>) -> Lock
        ensures { result ≡ IsFree words }
    {
        Lock {
            kept: Kept::Free(words),
        }
    }

    /// The monitor's words, where the lock is free.
    pub fn words(&self) -> Option<&[i128]>
        ensures { option_copied result ≡ free_words self.now }
    {
        match &self.kept {
            Kept::Free(words) => Some(words.as_slice()),
            Kept::HeldBy(_) => None,
        }
    }

    /// The task holds the lock. Gives the monitor's words, where the lock was free.
    pub fn seize(&mut self, task: u32) -> Option<Items<i128>>
        ensures words { result ≡ free_words self.old }
        ensures held { self.new ≡ IsHeldBy task }
    {
        match std::mem::replace(&mut self.kept, Kept::HeldBy(task)) {
            Kept::Free(words) => Some(words),
            Kept::HeldBy(_) => None,
        }
    }
}
