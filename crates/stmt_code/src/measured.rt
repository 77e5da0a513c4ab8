//! Where each field of a record and each state of a monitor begins: summed once, and then looked up.

ghost use Rattle.std.specs.Prelude.{◌≡◌, ◌<◌, ℕ, List, length, IfOk};
ghost use Rattle.tower_types.specs.Ty.{table_of};
ghost use Rattle.tower_types.specs.View.{fields_of};
ghost use Rattle.tower_syntax.specs.Weights.{field_shapes, states_of};
ghost use Rattle.tower_syntax.specs.WellNumbered.{AreNumberedFields};
ghost use Rattle.arch_checks.specs.Offences.{IsAccepted};
ghost use Rattle.stmt_code.specs.Measured.{start_at, AreStarts, AreRecordStarts, AreMonitorStarts, IsTableOf};

use crate::framing::lay_names;
use arch_checks::Checked;
use sqlite_items::Items;
use std::alloc::Global;
use std::marker::Model;
use tower_syntax::Arch;
use tower_types::{Name, NoMemory, Ty};

/// Where parts begin that lie one behind the other, and where the last ends.
#[derive(Debug, Drop)]
pub(crate) struct Starts {
    starts: Items<u32>,
    end: u32,
}

impl Starts {
    /// The words before part `k`, or of all parts where there are no more.
    pub(crate) fn at(&self, k: u32) -> u32
        ensures { result ≡ start_at self.now k }
    {
        match self.starts.get(k as usize) {
            Some(start) => *start,
            None => self.end,
        }
    }
}

/// Where the fields of each record and the states of each monitor of a system begin.
#[derive(Debug, Drop)]
pub struct StartTable {
    records: Items<Starts>,
    monitors: Items<Starts>,
}

/// Where each of the fields begins.
fn starts_of(alloc: Global, arch: &Arch, fields: &[(Name, Ty)]) -> Result<Starts, NoMemory>
    requires { AreNumberedFields (length arch.now.records) (fields_of fields.now) }
    ensures { IfOk result (AreStarts (field_shapes (table_of arch.now.records) (fields_of fields.now))) }
{
    let mut end = 0;
    let starts = lay_names(alloc, arch, &mut end, fields)?;
    Ok(Starts { starts, end })
}

/// Where the fields of each record begin.
fn record_starts(alloc: Global, arch: &Arch) -> Result<Items<Starts>, NoMemory>
    ensures { IfOk result (AreRecordStarts arch.now (length arch.now.records)) }
{
    let records = arch.records();
    let mut all = Items::new(alloc);
    for r in 0..records.len() {
        let starts = starts_of(alloc, arch, records.fields(r as u32))?;
        all.push(starts)?;
    }
    Ok(all)
}

/// Where the states of each monitor begin.
fn monitor_starts(alloc: Global, arch: &Arch) -> Result<Items<Starts>, NoMemory>
    ensures { IfOk result (AreMonitorStarts arch.now (length arch.now.monitors)) }
{
    let mut all = Items::new(alloc);
    for m in 0..arch.monitors().len() {
        let monitor = arch.monitor(m as u32);
        let starts = starts_of(alloc, arch, monitor.states.as_slice())?;
        all.push(starts)?;
    }
    Ok(all)
}

impl StartTable {
    /// The table of a system. A number of words that is no `u32` is told as want of memory.
    pub fn new(alloc: Global, checked: &Checked) -> Result<StartTable, NoMemory>
        ensures { IfOk result (λ t. IsTableOf checked.now t) }
    {
        let arch = checked.arch();
        let records = record_starts(alloc, arch)?;
        let monitors = monitor_starts(alloc, arch)?;
        Ok(StartTable { records, monitors })
    }
}

/// A system that was accepted, with the table of where its fields and states begin. Contracts see the system.
#[derive(Drop)]
pub struct Measured<'a> {
    checked: &'a Checked,
    table: &'a StartTable,
}

impl<'a> Model for Measured<'a> {
    ghost use Rattle.tower_syntax.specs.Arch.{Arch};
    ghost use Rattle.tower_syntax.specs.Codes.{coded_arch};

    ghost Value = { Arch };

    ghost coded = { coded_arch };

    ghost use Rattle.stmt_code.specs.Measured.{IsTableOf};

    ghost view = { λ m. m.checked.now };

    ghost invariant = { λ m. IsTableOf m.checked.now m.table.now };
}

impl<'a> Measured<'a> {
    /// The system with its table.
    pub fn new(checked: &'a Checked, table: &'a StartTable) -> Measured<'a>
        requires { IsTableOf checked.now table.now }
        ensures { result ≡ checked.now }
    {
        Measured { checked, table }
    }

    /// The system as it was accepted.
    pub fn checked(&self) -> &'a Checked
        ensures { result.now ≡ self.now }
    {
        self.checked
    }

    /// The system.
    pub fn arch(&self) -> &'a Arch
        ensures value { result.now ≡ self.now }
        ensures accepted { (bs : List ℕ) × IsAccepted bs self.now }
    {
        self.checked.arch()
    }

    /// For each record, where its fields begin.
    pub(crate) fn records(&self) -> &'a [Starts]
        ensures { AreRecordStarts self.now (length self.now.records) result.now }
    {
        self.table.records.as_slice()
    }

    /// Where the states of monitor `m` begin.
    pub(crate) fn states(&self, m: u32) -> &'a Starts
        requires { m < length self.now.monitors }
        ensures { AreStarts (field_shapes (table_of self.now.records) (states_of self.now m)) result.now }
    {
        &self.table.monitors.as_slice()[m as usize]
    }
}
