//! Shelves: texts by name, read in pieces.
ghost use Rattle.std.specs.Prelude.{◌≡◌, ℕ, Option, ◌≤◌, List, [], Some, None, take, drop, length, IsSome, IfSome};
ghost use Rattle.tower_io.specs.Faults.{Rose};
ghost use Rattle.tower_io.specs.Shelves.{Takes, OnBegun, OnNotBegun, OnBeginFailed, UnlessBeginFailed, OnGot, OnNotGot, OnEnd, OnNextFailed, UnlessNextFailed};

use crate::answers::{Begin, Next};
use std::alloc::Global;

/// Texts by name, of which at most one is open and is read in pieces.
///
/// No call changes what is held. Every answer but `Failed` leaves the count of faults and the blamed
/// name as they were.
pub trait Shelf {
    // The text of each name, where the shelf tells it.
    ghost held: { Self → List ℕ → Option (List ℕ) };

    // The name with which the open text was begun, or none where no text is open.
    ghost opened: { Self → Option (List ℕ) };

    // The rest of the open text, where the shelf tells it.
    ghost left: { Self → Option (List ℕ) };

    // The name in the last call that answered `Failed`, and empty before the first.
    ghost blamed: { Self → List ℕ };

    // How many faults there were, as far as a `u64` counts.
    ghost faults: { Self → ℕ };

    /// How many faults there were; the count stays at `u64::MAX` once it is there.
    fn faults(&self) -> u64
        ensures { result ≡ faults self.now };

    /// The name in the last call that answered `Failed`, and empty before the first.
    fn blamed(&self) -> &str
        ensures { result.now ≡ blamed self.now };

    /// Opens the text of a name, and gives up the text that was open.
    ///
    /// After `Failed` and `NoMemory` none is open.
    fn begin(&mut self, alloc: Global, name: &str) -> Begin
        ensures opens { OnBegun result (opened self.new ≡ Some name.now) }
        ensures whole { OnBegun result (left self.new ≡ held self.old name.now) }
        ensures gives_up { OnNotBegun result (opened self.new ≡ None) }

        ensures rose { OnBeginFailed result (Rose (faults self.old) (faults self.new)) }
        ensures blames { OnBeginFailed result (blamed self.new ≡ name.now) }
        ensures calm { UnlessBeginFailed result (faults self.new ≡ faults self.old) }
        ensures blames_none { UnlessBeginFailed result (blamed self.new ≡ blamed self.old) }

        ensures never_falls { faults self.old ≤ faults self.new }
        ensures holds { held self.new ≡ held self.old };

    /// Reads the next piece of the open text into the front of `room`, from 1 byte to all of it.
    ///
    /// It takes no memory. After `End` and `Failed` no text is open, and `room` is as before. Where the
    /// rest is told, `End` comes exactly where it is empty and the call does not fail, since a piece
    /// has at least one byte.
    fn next(&mut self, room: &mut [u8]) -> Next
        requires has_open { IsSome (opened self.old) }
        requires some_room { 1 ≤ length room.old }
        requires piece { length room.old ≤ 4096 }

        ensures some { OnGot result (λ n. 1 ≤ n) }
        ensures fits { OnGot result (λ n. n ≤ length room.old) }
        ensures takes { OnGot result (λ n. Takes (left self.old) (left self.new) (take n room.new)) }
        ensures beyond { OnGot result (λ n. drop n room.new ≡ drop n room.old) }
        ensures stays_open { OnGot result (λ n. opened self.new ≡ opened self.old) }

        ensures at_end { OnEnd result (IfSome (left self.old) (λ rest. rest ≡ [])) }
        ensures gives_up { OnNotGot result (opened self.new ≡ None) }
        ensures untouched { OnNotGot result (room.new ≡ room.old) }

        ensures rose { OnNextFailed result (Rose (faults self.old) (faults self.new)) }
        ensures blames { OnNextFailed result (opened self.old ≡ Some (blamed self.new)) }
        ensures calm { UnlessNextFailed result (faults self.new ≡ faults self.old) }
        ensures blames_none { UnlessNextFailed result (blamed self.new ≡ blamed self.old) }

        ensures never_falls { faults self.old ≤ faults self.new }
        ensures holds { held self.new ≡ held self.old };
}
