//! The entries that a ledger holds: those logged in the known epoch, and those executed.

ghost use Rattle.std.specs.Prelude.{◌≡◌, ◌<◌, ◌++◌, ℕ, [], List, length, slice_get, Some, IfOk, OnOk};
ghost use Rattle.std.specs.List.{AllByRecursion};
ghost use Rattle.crsm_base.specs.declared.Entry.{Entry};
ghost use Rattle.crsm_base.specs.Spelling.{FitsEntry};
ghost use Rattle.crsm_spec.specs.Lines.{exec_lines};
ghost use Rattle.crsm_spec.specs.Log.{with_entry};
ghost use Rattle.crsm_ledger.specs.Executed.{HistoryStands, Spells};
ghost use Rattle.crsm_ledger.specs.Held.{CanBeLogged, ExecutesNext, HasEntries, HasNext, Holds};
ghost use Rattle.crsm_ledger.specs.Sorted.{AreKeptFor};

use crate::history::History;
use crate::logged::Logged;
use crsm_base::{Entry, Line, Lines, NoMemory};
use std::alloc::Global;

/// The logged entries of the known epoch and the executed entries. Of an entry that is both, the logged ones have the
/// place among the executed ones.
#[derive(Drop)]
pub struct HeldEntries {
    pub logged: Logged,
    pub history: History,
    ghost held: { ∥ HasEntries history.spelt history.epoch logged ∥₁ },
}

impl HeldEntries {
    /// Returns no entries. `NoMemory` if memory runs out.
    pub fn new(alloc: Global) -> Result<HeldEntries, NoMemory>
        ensures { IfOk result (λ held. Holds held.history held.logged 0 [] []) }
    {
        let history = History::new(alloc)?;
        let logged = Logged::new(alloc);
        Ok(HeldEntries { logged, history })
    }

    /// Logs an entry. `NoMemory` if memory runs out; nothing has changed then.
    pub fn log(&mut self, entry: Entry) -> Result<(), NoMemory>
        requires fits { FitsEntry entry }
        requires next { CanBeLogged self.old.history.epoch self.old.logged entry }
        ensures { (x : ℕ) (done es : List Entry) → Holds self.old.history self.old.logged x done es → OnOk result (Holds self.new.history self.new.logged x done (with_entry entry es)) }
    {
        self.logged.insert(entry)?;
        Ok(())
    }

    /// Begins the next epoch, in which nothing is logged or executed yet.
    pub fn begin_epoch(&mut self, epoch: u64)
        ensures { (x : ℕ) (done es : List Entry) → Holds self.old.history self.old.logged x done es → AllByRecursion (λ e. e.epoch < epoch) done → Holds self.new.history self.new.logged epoch done [] }
    {
        self.history.begin_epoch(epoch);
        self.logged.clear();
    }

    /// Executes the first logged entry above the last executed one, and returns its line for replica `me`. `NoMemory`
    /// if memory runs out.
    pub fn run_next(&mut self, me: u32) -> Result<Line, NoMemory>
        requires { HasNext self.old.history.last_stamp self.old.logged }
        ensures { (x : ℕ) (done es : List Entry) → Holds self.old.history self.old.logged x done es → IfOk result (λ line. ExecutesNext me x done es line self.new.history self.new.logged) }
    {
        let index = self.logged.first_above(self.history.last_stamp());
        let place = self.history.len();
        let line = self.history.run_kept(me, &self.logged.at(index).kept)?;
        self.logged.mark_executed(index, place);
        Ok(line)
    }

    /// Executes entries without writing their lines. `NoMemory` if memory runs out.
    pub fn run_all(&mut self, entries: &[Entry]) -> Result<(), NoMemory>
        requires { AllByRecursion FitsEntry entries.now }
        ensures executed { (x : ℕ) (es : List Entry) → HistoryStands self.old.history x es → OnOk result (HistoryStands self.new.history x (es ++ entries.now)) }
        ensures logged { self.new.logged ≡ self.old.logged }
    {
        self.history.run_all(entries)?;
        Ok(())
    }

    /// Executes entries and appends their lines for replica `me`. `NoMemory` if memory runs out.
    pub fn execute_all(
        &mut self,
        me: u32,
        entries: &[Entry],
        lines: &mut Lines,
    ) -> Result<(), NoMemory>
        requires { AllByRecursion FitsEntry entries.now }
        ensures executed { (x : ℕ) (es : List Entry) → HistoryStands self.old.history x es → OnOk result (HistoryStands self.new.history x (es ++ entries.now) × (lines.new ≡ lines.old ++ exec_lines me es entries.now)) }
        ensures logged { self.new.logged ≡ self.old.logged }
    {
        self.history.execute_all(me, entries, lines)?;
        Ok(())
    }

    /// Returns the logged entry with this index. `NoMemory` if memory runs out.
    pub fn entry(&self, index: usize) -> Result<Entry, NoMemory>
        requires { index < length self.now.logged }
        ensures value { (done es : List Entry) → Spells self.now.history.spelt done → AreKeptFor done self.now.logged es → IfOk result (λ e. slice_get es index ≡ Some e) }
        ensures fit { IfOk result FitsEntry }
    {
        let entry = self.history.copy(&self.logged.at(index).kept)?;
        Ok(entry)
    }
}
