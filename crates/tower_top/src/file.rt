//! FILE, read in pieces, and checked.
ghost use Rattle.std.specs.Prelude.{◌≡◌, ◌+◌, ◌<◌, ◌≤◌, ◌++◌, List, [], ℕ, Some, length, IsSome, OnOk, IfOk};
ghost use Rattle.tower_io.specs.Faults.{Rose};
ghost use Rattle.tower_io.specs.Fetching.{OnFetched, OnLong, OnFetchFailed, UnlessFetchFailed};
ghost use Rattle.tower_syntax.specs.RawView.{raw_of};
ghost use Rattle.tower_reader.specs.Spelled.{Spells};
ghost use Rattle.tower_reader.specs.Faults.{IsFault as IsReadFault};
ghost use Rattle.arch_checks.specs.Offences.{IsAccepted, IsFault};
ghost use Rattle.tower_top.specs.Calls.{shelf_change, sink_change};
ghost use Rattle.tower_top.specs.Endings.{Reads};
ghost use Rattle.tower_top.specs.Fetched.{IsFetched};
ghost use Rattle.tower_top.specs.File.{HasTaken, IsTold};
ghost use Rattle.tower_top.specs.Inputs.{file_input};

use crate::fetched::Fetched;
use crate::status::{Status, after};
use arch_checks::{Checked, Fault, check_raw};
use std::alloc::Global;
use tower_io::{Begin, Fetch, Next, Shelf, Sink};
use tower_reader::{Fed, ReadFault, Reader};
use tower_report::{put_fault, put_unread};
use tower_syntax::Raw;
use tower_types::NoMemory;

/// The greatest length of FILE in bytes.
const TEXT_LIMIT: usize = 1_048_576;

/// The largest piece that is asked of a shelf at once, in bytes.
const PIECE: usize = 4096;

/// A text of which pieces have come.
#[derive(Drop)]
struct Pieces {
    reader: Reader,
    /// How many bytes have come.
    taken: usize,
}

impl Pieces {
    fn new(alloc: Global) -> Result<Pieces, NoMemory>
        ensures stands { IfOk result (λ p. HasTaken p []) }
        ensures counts { IfOk result (λ p. p.taken ≡ 0) }
    {
        let reader = Reader::new(alloc)?;
        Ok(Pieces { reader, taken: 0 })
    }

    /// Takes the next piece.
    fn take(&mut self, piece: &[u8]) -> Result<(), NoMemory>
        requires { self.old.taken + length piece.now ≤ 1048577 }
        ensures stands { OnOk result ((text : List ℕ) → HasTaken self.old text → HasTaken self.new (text ++ piece.now)) }
        ensures counts { OnOk result (self.new.taken ≡ self.old.taken + length piece.now) }
    {
        if self.reader.feed(piece) == Fed::NoMemory {
            return Err(NoMemory);
        }
        self.taken += piece.len();
        Ok(())
    }
}

/// Reads what is left of the open text, to its end or until one byte more than the limit has come. Each turn of the
/// loop takes at least one byte.
fn read_on<F: Shelf>(shelf: &mut F, pieces: &mut Pieces) -> Fetch
    requires has_open { IsSome (F.opened shelf.old) }
    requires stands { HasTaken pieces.old [] }
    requires counts { pieces.old.taken ≡ 0 }

    ensures text { OnFetched result ((text : List ℕ) × IsTold (F.left shelf.old) text × HasTaken pieces.new text) }
    ensures long { OnLong result ((text : List ℕ) × IsTold (F.left shelf.old) text × (1048576 < length text)) }

    ensures rose { OnFetchFailed result (Rose (F.faults shelf.old) (F.faults shelf.new)) }
    ensures blames { OnFetchFailed result (F.opened shelf.old ≡ Some (F.blamed shelf.new)) }
    ensures calm { UnlessFetchFailed result (F.faults shelf.new ≡ F.faults shelf.old) }
    ensures blames_none { UnlessFetchFailed result (F.blamed shelf.new ≡ F.blamed shelf.old) }
    ensures never_falls { F.faults shelf.old ≤ F.faults shelf.new }
    ensures holds { F.held shelf.new ≡ F.held shelf.old }
{
    let mut room = [0u8; PIECE];
    while pieces.taken <= TEXT_LIMIT {
        let want = (TEXT_LIMIT + 1 - pieces.taken).min(PIECE);
        match shelf.next(&mut room[..want]) {
            Next::Got(n) => {
                if pieces.take(&room[..n]).is_err() {
                    return Fetch::NoMemory;
                }
            }
            Next::End => return Fetch::Done,
            Next::Failed => return Fetch::Failed,
        }
    }
    Fetch::Long
}

/// Reads the tree of FILE, or the first fault of its text.
fn read_tree<F: Shelf>(alloc: Global, shelf: &mut F, name: &str) -> Fetched<Raw, ReadFault>
    ensures { IsFetched (shelf_change F.held F.blamed F.faults shelf.old shelf.new) name.now (λ text raw. Spells text (raw_of raw)) IsReadFault result }
{
    let Ok(mut pieces) = Pieces::new(alloc) else {
        return Fetched::NoMemory;
    };
    match shelf.begin(alloc, name) {
        Begin::Begun => {}
        Begin::Failed => return Fetched::Unread,
        Begin::NoMemory => return Fetched::NoMemory,
    }
    match read_on(shelf, &mut pieces) {
        Fetch::Done => {}
        Fetch::Long => {
            return Fetched::Wrong(ReadFault::Long {
                limit: TEXT_LIMIT as u64,
            });
        }
        Fetch::Failed => return Fetched::Unread,
        Fetch::NoMemory => return Fetched::NoMemory,
    }
    match pieces.reader.finish() {
        Ok(raw) => Fetched::Valid(raw),
        Err(ReadFault::NoMemory) => Fetched::NoMemory,
        Err(fault) => Fetched::Wrong(fault),
    }
}

/// Reads and checks FILE.
fn read_checked<F: Shelf>(alloc: Global, shelf: &mut F, name: &str) -> Fetched<Checked, Fault>
    ensures { IsFetched (shelf_change F.held F.blamed F.faults shelf.old shelf.new) name.now IsAccepted IsFault result }
{
    let raw = match read_tree(alloc, shelf, name) {
        Fetched::Valid(raw) => raw,
        Fetched::Wrong(fault) => return Fetched::Wrong(Fault::from(fault)),
        Fetched::Unread => return Fetched::Unread,
        Fetched::NoMemory => return Fetched::NoMemory,
    };
    match check_raw(alloc, &raw) {
        Ok(checked) => Fetched::Valid(checked),
        Err(Fault::NoMemory) => Fetched::NoMemory,
        Err(fault) => Fetched::Wrong(fault),
    }
}

/// Reads and checks FILE, and tells where it could not be read or has a fault.
pub fn read_file<F: Shelf, E: Sink>(
    alloc: Global,
    name: &str,
    shelf: &mut F,
    err: &mut E,
) -> Result<Checked, Status>
    ensures { Reads (file_input name.now) (λ arch. arch) (shelf_change F.held F.blamed F.faults shelf.old shelf.new)
        (sink_change E.written E.faults err.old err.new) result }
{
    match read_checked(alloc, shelf, name) {
        Fetched::Valid(checked) => Ok(checked),
        Fetched::Wrong(fault) => Err(after(put_fault(err, &fault), Status::Refused)),
        Fetched::Unread => Err(after(put_unread(err, shelf.blamed()), Status::ReadFault)),
        Fetched::NoMemory => Err(Status::NoMemory),
    }
}
