ghost use Rattle.std.specs.Prelude.{◌≡◌, ◌+◌, ◌≤◌, ◌<◌, ◌^◌, length};
ghost use Rattle.task_machine.specs.Action.{with_message};
ghost use Rattle.task_machine.specs.Message.{said_words};

use crate::own::Own;
use sqlite_items::Items;

/// A message that comes to a source.
#[derive(Drop)]
pub enum Message {
    /// The number of a tick, or 0 for an initialisation.
    Number(u64),
    /// The words of a signal's value.
    Words(Items<i128>),
}

impl Message {
    /// A task takes the message, to its private words from an address on.
    pub fn give(self, own: &mut Own, at: usize)
        requires within { at + length (said_words self) ≤ length own.old.words }
        requires place { own.old.place + 1 < 2 ^ 64 }
        ensures { own.new ≡ with_message at own.old (said_words self) }
    {
        match self {
            Message::Number(n) => own.take(at, &[i128::from(n)]),
            Message::Words(words) => own.take(at, words.as_slice()),
        }
    }
}
