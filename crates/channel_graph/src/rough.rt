//! For all emitters of a handler at once, numbers that are at least how many messages it may emit, cut at 2^64 - 1:
//! each statement is looked at once, and an `if` takes back only what its first branch has changed.

ghost use Rattle.std.specs.Prelude.{◌≡◌, ◌*◌, ℕ, [], ◌∷◌, length, slice_index_or, slice_set, IfOk, OnOk};
ghost use Rattle.tower_syntax.specs.View.{stmt_of, all_stmts_of, handler_of};
ghost use Rattle.tower_syntax.specs.Weights.{most_of_stmt, most_of_stmts};
ghost use Rattle.channel_graph.specs.Rough.{GrowsBy, Tops, Covers, Changes, Logs, one_of, IsRough};

use sqlite_items::Items;
use std::alloc::Global;
use tower_syntax::{Handler, Stmt};
use tower_types::NoMemory;

/// What stood at a place of the totals, before a change or at its peak.
#[derive(Clone, Copy)]
struct Noted {
    place: u32,
    total: u64,
}

/// A total for each emitter, and a log: for each change of a total what stood there before, the last change last.
#[derive(Drop)]
struct Counts {
    totals: Items<u64>,
    log: Items<Noted>,
}

impl Counts {
    /// The total at a place, 0 if there is none.
    fn total(&self, place: u32) -> u64
        ensures { result ≡ slice_index_or self.now.totals place 0 }
    {
        if (place as usize) < self.totals.len() {
            self.totals.as_slice()[place as usize]
        } else {
            0
        }
    }

    /// Puts a number at a place, if there is one.
    fn write(&mut self, place: u32, total: u64)
        ensures totals { self.new.totals ≡ slice_set self.old.totals place total }
        ensures log { self.new.log ≡ self.old.log }
    {
        if (place as usize) < self.totals.len() {
            self.totals.set(place as usize, total);
        }
    }

    /// Puts a number at a place, and what stood there behind the log.
    fn change(&mut self, place: u32, total: u64) -> Result<(), NoMemory>
        ensures { OnOk result (Changes place total self.old self.new) }
    {
        let before = self.total(place);
        self.log.push(Noted {
            place,
            total: before,
        })?;
        self.write(place, total);
        Ok(())
    }

    /// Adds to the total of emitter `k`, if there is one.
    fn add(&mut self, k: u32, more: u64) -> Result<(), NoMemory>
        ensures totals { OnOk result (GrowsBy (λ e. more * one_of k e) self.old.totals self.new.totals) }
        ensures log { OnOk result (Logs self.old self.new) }
    {
        let total = self.total(k).saturating_add(more);
        self.change(k, total)?;
        Ok(())
    }

    /// Raises the total at the place of a peak to at least that peak.
    fn raise_to(&mut self, peak: Noted) -> Result<(), NoMemory>
        ensures totals { OnOk result (Tops self.old.totals (peak ∷ []) self.new.totals) }
        ensures log { OnOk result (Logs self.old self.new) }
    {
        if self.total(peak.place) < peak.total {
            self.change(peak.place, peak.total)?;
        }
        Ok(())
    }

    /// Raises the totals at the places of peaks to at least these.
    fn raise(&mut self, peaks: &[Noted]) -> Result<(), NoMemory>
        ensures totals { OnOk result (Tops self.old.totals peaks.now self.new.totals) }
        ensures log { OnOk result (Logs self.old self.new) }
    {
        for peak in peaks {
            self.raise_to(*peak)?;
        }
        Ok(())
    }

    /// Takes back the last change, if there is one, and adds what it had put there to the peaks.
    fn undo(&mut self, peaks: &mut Items<Noted>) -> Result<(), NoMemory>
        ensures back { OnOk result ((mid : Counts) (place total : ℕ) → Changes place total mid self.old → self.new ≡ mid) }
        ensures peaks { OnOk result (Covers self.old.totals peaks.old self.new.totals peaks.new) }
    {
        if let Some(change) = self.log.pop() {
            let total = self.total(change.place);
            peaks.push(Noted {
                place: change.place,
                total,
            })?;
            self.write(change.place, change.total);
        }
        Ok(())
    }

    /// Takes back all changes since the log had the length `mark`. Answers what they had put where.
    fn take_back(&mut self, alloc: Global, mark: usize) -> Result<Items<Noted>, NoMemory>
        ensures back { OnOk result ((start : Counts) → Logs start self.old → length start.log ≡ mark → self.new ≡ start) }
        ensures peaks { IfOk result (Covers self.old.totals [] self.new.totals) }
    {
        let mut peaks = Items::new(alloc);
        for _change in mark..self.log.len() {
            self.undo(&mut peaks)?;
        }
        Ok(peaks)
    }
}

/// Adds what some statements emit in so many turns.
#[cycle(roughly)]
fn add_stmts(alloc: Global, counts: &mut Counts, stmts: &[Stmt], turns: u64) -> Result<(), NoMemory>
    ensures totals { OnOk result
        (GrowsBy (λ e. turns * most_of_stmts e (all_stmts_of stmts.now)) counts.old.totals counts.new.totals) }
    ensures log { OnOk result (Logs counts.old counts.new) }
{
    for stmt in stmts {
        add_stmt(alloc, counts, stmt, turns)?;
    }
    Ok(())
}

/// Adds what a statement emits in so many turns: of an `if`, for each emitter what the branch emits that emits more.
#[cycle(roughly)]
fn add_stmt(alloc: Global, counts: &mut Counts, stmt: &Stmt, turns: u64) -> Result<(), NoMemory>
    ensures totals { OnOk result
        (GrowsBy (λ e. turns * most_of_stmt e (stmt_of stmt.now)) counts.old.totals counts.new.totals) }
    ensures log { OnOk result (Logs counts.old counts.new) }
{
    match stmt {
        Stmt::Bind(_, _) | Stmt::Local(_) | Stmt::Set(_, _) | Stmt::Copy(_, _) => Ok(()),
        Stmt::Branch(_, first, second) => {
            let mark = counts.log.len();
            add_stmts(alloc, counts, first.as_slice(), turns)?;
            let peaks = counts.take_back(alloc, mark)?;
            add_stmts(alloc, counts, second.as_slice(), turns)?;
            counts.raise(peaks.as_slice())?;
            Ok(())
        }
        Stmt::Loop(_, times, body) => {
            let all = turns.saturating_mul(u64::from(*times));
            add_stmts(alloc, counts, body.as_slice(), all)?;
            Ok(())
        }
        Stmt::Emit(k, _) => {
            counts.add(*k, turns)?;
            Ok(())
        }
    }
}

/// A number for each emitter of a handler: no message of the handler puts more on it.
pub(crate) fn rough(alloc: Global, h: &Handler) -> Result<Items<u64>, NoMemory>
    ensures { IfOk result (IsRough (handler_of h.now)) }
{
    let mut counts = Counts {
        totals: Items::from_vec(vec![in alloc; 0u64; h.emitters.len()]?),
        log: Items::new(alloc),
    };
    for body in h.callbacks.as_slice() {
        add_stmts(alloc, &mut counts, body.stmts.as_slice(), 1)?;
    }
    let Counts { totals, log: _ } = counts;
    Ok(totals)
}
