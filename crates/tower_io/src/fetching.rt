//! A whole text from a shelf, up to a number of bytes.
ghost use Rattle.std.specs.Prelude.{◌≡◌, ℕ, ◌+◌, ◌^◌, ◌<◌, ◌≤◌, List, [], Some, take, length, vec_len, IfSome, IsSome};
ghost use Rattle.tower_io.specs.Faults.{Rose};
ghost use Rattle.tower_io.specs.Fetching.{OnFetched, OnLong, OnNotFetched, OnFetchFailed, UnlessFetchFailed};

use crate::answers::{Begin, Fetch, Next};
use crate::shelves::Shelf;
use std::alloc::Global;

/// The largest piece that is asked of a shelf at once, in bytes.
const PIECE: usize = 4096;

/// Reads the text of a name into `out`, whose old contents are dropped.
///
/// `Done`: `out` is the whole text. `Long`: the text is longer than `most` bytes, and `out` is its
/// first `most + 1`. After `Failed` and `NoMemory` `out` is empty. A text that was open is given up,
/// and what is open after the call is not said. Each turn of the loop takes at least one byte.
pub fn fetch<F: Shelf>(
    alloc: Global,
    shelf: &mut F,
    name: &str,
    most: usize,
    out: &mut Vec<u8>,
) -> Fetch
    requires { most < 2 ^ 32 }

    ensures text { OnFetched result
        (IfSome (F.held shelf.old name.now) (λ text. out.new.items ≡ text)) }
    ensures short { OnFetched result (vec_len out.new ≤ most) }
    ensures front { OnLong result
        (IfSome (F.held shelf.old name.now) (λ text. out.new.items ≡ take (most + 1) text)) }
    ensures long { OnLong result (vec_len out.new ≡ most + 1) }
    ensures empty { OnNotFetched result (out.new.items ≡ []) }

    ensures rose { OnFetchFailed result (Rose (F.faults shelf.old) (F.faults shelf.new)) }
    ensures blames { OnFetchFailed result (F.blamed shelf.new ≡ name.now) }
    ensures calm { UnlessFetchFailed result (F.faults shelf.new ≡ F.faults shelf.old) }
    ensures blames_none { UnlessFetchFailed result (F.blamed shelf.new ≡ F.blamed shelf.old) }

    ensures never_falls { F.faults shelf.old ≤ F.faults shelf.new }
    ensures holds { F.held shelf.new ≡ F.held shelf.old }
{
    out.clear();
    match shelf.begin(alloc, name) {
        Begin::Begun => {}
        Begin::Failed => return Fetch::Failed,
        Begin::NoMemory => return Fetch::NoMemory,
    }
    let answer = gather(shelf, most, out);
    match &answer {
        Fetch::Done | Fetch::Long => {}
        Fetch::Failed | Fetch::NoMemory => out.clear(),
    }
    answer
}

// Reads what is left of the open text into `out`, which is empty, up to `most + 1` bytes.
fn gather<F: Shelf>(shelf: &mut F, most: usize, out: &mut Vec<u8>) -> Fetch
    requires bound { most < 2 ^ 32 }
    requires has_open { IsSome (F.opened shelf.old) }
    requires empty { out.old.items ≡ [] }

    ensures text { OnFetched result (IfSome (F.left shelf.old) (λ text. out.new.items ≡ text)) }
    ensures short { OnFetched result (vec_len out.new ≤ most) }
    ensures front { OnLong result
        (IfSome (F.left shelf.old) (λ text. out.new.items ≡ take (most + 1) text)) }
    ensures long { OnLong result (vec_len out.new ≡ most + 1) }

    ensures rose { OnFetchFailed result (Rose (F.faults shelf.old) (F.faults shelf.new)) }
    ensures blames { OnFetchFailed result (F.opened shelf.old ≡ Some (F.blamed shelf.new)) }
    ensures calm { UnlessFetchFailed result (F.faults shelf.new ≡ F.faults shelf.old) }
    ensures blames_none { UnlessFetchFailed result (F.blamed shelf.new ≡ F.blamed shelf.old) }

    ensures never_falls { F.faults shelf.old ≤ F.faults shelf.new }
    ensures holds { F.held shelf.new ≡ F.held shelf.old }
{
    let mut room = [0u8; PIECE];
    while out.len() <= most {
        let want = (most + 1 - out.len()).min(PIECE);
        match shelf.next(&mut room[..want]) {
            Next::Got(n) => {
                if out.extend_from_slice(&room[..n]).is_err() {
                    return Fetch::NoMemory;
                }
            }
            Next::End => return Fetch::Done,
            Next::Failed => return Fetch::Failed,
        }
    }
    Fetch::Long
}
