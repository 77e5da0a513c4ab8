//! The words of messages.

ghost use Rattle.std.specs.Prelude.{◌≡◌, IfOk};
ghost use Rattle.tower_syntax.specs.Weights.{message_words};
ghost use Rattle.tower_syntax.specs.WellNumbered.{IsNumberedOn};

use channel_graph::words_on;
use tower_syntax::{Arch, On};
use tower_types::NoMemory;

/// The words of a message from a source or channel. A number that is no `u32` is told as want of memory.
pub fn message_words(arch: &Arch, on: On) -> Result<u32, NoMemory>
    requires { IsNumberedOn arch.now on }
    ensures { IfOk result (λ n. n ≡ message_words arch.now on) }
{
    match u32::try_from(words_on(arch, on)) {
        Ok(count) => Ok(count),
        Err(_) => Err(NoMemory),
    }
}
