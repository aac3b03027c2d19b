//! The executed entries as bytes, the store that they lead to, and the last one.

ghost use Rattle.std.specs.Prelude.{◌≡◌, ◌<◌, ◌^◌, ℕ, [], ◌∷◌, ◌++◌, List, length, slice_get, Some, IfOk, IfSome, OnOk};
ghost use Rattle.std.specs.List.{AllByRecursion};
ghost use Rattle.std.specs.Option.{option_copied, option_map};
ghost use Rattle.crsm_base.specs.declared.Entry.{Entry};
ghost use Rattle.crsm_base.specs.Spelling.{FitsEntry, FitsOption, FitsStamp, entry_bytes};
ghost use Rattle.crsm_base.specs.Store.{apply};
ghost use Rattle.crsm_spec.specs.Lines.{exec_line, exec_lines};
ghost use Rattle.crsm_ledger.specs.Executed.{Grows, HistoryStands, Spells, last_stamp_in, position_of};
ghost use Rattle.crsm_ledger.specs.Pieces.{IsSpelling};
ghost use Rattle.crsm_ledger.specs.Sorted.{FitsKept, IsKept, IsPlaced};

use crate::fields::LastStamp;
use crate::kept::Kept;
use crate::spelt::Spelt;
use crsm_base::{Answer, Bytes, Entry, Line, Lines, NoMemory, Stamp};
use crsm_codec::read_entry;
use crsm_kv::Store;
use crsm_text_fields::put_entry;
use std::alloc::Global;

/// The position of an entry in the global order.
#[derive(Clone, Copy)]
pub struct Position {
    pub epoch: u64,
    pub stamp: Stamp,
}

/// The executed entries, and the store that they lead to.
#[derive(Drop)]
pub struct History {
    alloc: Global,
    spelt: Spelt,
    // A buffer in which an entry is encoded before it is recorded.
    spelling: Bytes,
    store: Store,
    last: Option<Position>,
    /// The number of the known epoch.
    epoch: u64,
    /// The stamp of the last executed entry of the known epoch.
    last_stamp: LastStamp,
}

#[tactic(auto, using(crate::proofs::ExecutedLemmas::executed_rules))]
impl History {
    /// Returns the history before any entry was executed. `NoMemory` if memory runs out.
    #[tactic(auto, unfolding(crsm_base::specs::Store::after, crate::specs::Executed::position_of, crate::specs::Executed::last_stamp_in, crsm_spec::specs::Lists::last_of))]
    pub fn new(alloc: Global) -> Result<History, NoMemory>
        ensures { IfOk result (λ history. HistoryStands history 0 []) }
    {
        Ok(History {
            alloc,
            spelt: Spelt::new(alloc),
            spelling: Bytes::new(alloc),
            store: Store::new(alloc)?,
            last: None,
            epoch: 0,
            last_stamp: LastStamp { stamp: None },
        })
    }

    /// Returns the number of executed entries.
    pub fn len(&self) -> u64
        ensures value { (x : ℕ) (es : List Entry) → HistoryStands self.now x es → result ≡ length es }
        ensures count { result ≡ length self.now.spelt }
        ensures few { result < 2 ^ 63 }
    {
        self.spelt.len() as u64
    }

    /// Returns the position of the last executed entry in the global order, or `None` if there is none.
    pub fn last(&self) -> Option<Position>
        ensures { (x : ℕ) (es : List Entry) → HistoryStands self.now x es → result ≡ position_of es }
    {
        self.last
    }

    /// Returns the stamp of the last executed entry of the known epoch, or `None` if there is none.
    pub fn last_stamp(&self) -> Option<Stamp>
        ensures value { (x : ℕ) (es : List Entry) → HistoryStands self.now x es → result ≡ last_stamp_in x es }
        ensures is { result ≡ self.now.last_stamp }
        ensures fits { FitsOption FitsStamp result }
    {
        self.last_stamp.get()
    }

    /// Returns the number of the known epoch.
    pub fn epoch(&self) -> u64
        ensures { result ≡ self.now.epoch }
    {
        self.epoch
    }

    /// Begins the next epoch, in which no entry is executed yet.
    pub fn begin_epoch(&mut self, epoch: u64)
        ensures epoch { self.new.epoch ≡ epoch }
        ensures spelt { self.new.spelt ≡ self.old.spelt }
        ensures begun { (x : ℕ) (es : List Entry) → HistoryStands self.old x es → AllByRecursion (λ e. e.epoch < epoch) es → HistoryStands self.new epoch es }
    {
        self.epoch = epoch;
        self.last_stamp = LastStamp { stamp: None };
    }

    /// Returns the encoding of the executed entry with this index, or `None` if there are not that many.
    pub fn spelt(&self, place: u64) -> Option<&[u8]>
        ensures { (x : ℕ) (es : List Entry) → HistoryStands self.now x es → option_copied result ≡ option_map entry_bytes (slice_get es place) }
    {
        self.spelt.get(place as usize)
    }

    /// Returns the executed entry with this index. `NoMemory` if memory runs out.
    pub fn entry(&self, place: u64) -> Result<Entry, NoMemory>
        requires { place < length self.now.spelt }
        ensures value { (es : List Entry) → Spells self.now.spelt es → IfOk result (λ e. slice_get es place ≡ Some e) }
        ensures fit { IfOk result FitsEntry }
    {
        let entry = read_back(self.alloc, self.spelt.at(place as usize))?;
        Ok(entry)
    }

    /// Returns the executed entry with this index, or `None` if there are not that many. `NoMemory` if memory runs out.
    #[tactic(auto, using(std::proofs::lemmas::Option::slice_get_past))]
    pub fn executed(&self, place: u64) -> Result<Option<Entry>, NoMemory>
        ensures value { (x : ℕ) (es : List Entry) → HistoryStands self.now x es → IfOk result (λ r. r ≡ slice_get es place) }
        ensures fit { IfOk result (λ r. IfSome r FitsEntry) }
    {
        if place < self.len() {
            Ok(Some(self.entry(place)?))
        } else {
            Ok(None)
        }
    }

    /// Returns a copy of the logged entry of which this is kept. `NoMemory` if memory runs out.
    pub fn copy(&self, kept: &Kept) -> Result<Entry, NoMemory>
        requires { IsPlaced (length self.now.spelt) kept.now }
        ensures value { (es : List Entry) (e : Entry) → Spells self.now.spelt es → IsKept es kept.now e → IfOk result (λ r. r ≡ e) }
        ensures fit { FitsKept kept.now → IfOk result FitsEntry }
    {
        match kept {
            Kept::Whole { entry } => {
                let copy = entry.copy(self.alloc)?;
                Ok(copy)
            }
            Kept::Executed { place } => self.entry(*place),
        }
    }

    /// Executes the logged entry of which this is kept, and returns its line. `NoMemory` if memory runs out.
    pub fn run_kept(&mut self, me: u32, kept: &Kept) -> Result<Line, NoMemory>
        requires placed { IsPlaced (length self.old.spelt) kept.now }
        requires fits { FitsKept kept.now }
        ensures executed { (x : ℕ) (es : List Entry) (e : Entry) → HistoryStands self.old x es → IsKept es kept.now e → IfOk result (λ line. HistoryStands self.new x (es ++ e ∷ []) × (line ≡ exec_line me es e)) }
        ensures spelt { (es : List Entry) (e : Entry) → Spells self.old.spelt es → IsKept es kept.now e → OnOk result (Spells self.new.spelt (es ++ e ∷ [])) }
        ensures grows { Grows self.old self.new }
    {
        match kept {
            Kept::Whole { entry } => self.run_line(me, entry),
            Kept::Executed { place } => {
                let entry = self.entry(*place)?;
                let line = self.run_line(me, &entry);
                drop(entry);
                line
            }
        }
    }

    /// Executes an entry and returns its line. `NoMemory` if memory runs out.
    fn run_line(&mut self, me: u32, entry: &Entry) -> Result<Line, NoMemory>
        requires { FitsEntry entry.now }
        ensures executed { (x : ℕ) (es : List Entry) → HistoryStands self.old x es → IfOk result (λ line. HistoryStands self.new x (es ++ entry.now ∷ []) × (line ≡ exec_line me es entry.now)) }
        ensures spelt { OnOk result (self.new.spelt ≡ self.old.spelt ++ entry_bytes entry.now ∷ []) }
        ensures grows { Grows self.old self.new }
    {
        let place = self.spelt.len() as u64;
        let answer = self.run(entry)?;
        Ok(Line::Exec {
            replica: me,
            place,
            epoch: entry.epoch,
            stamp: entry.stamp,
            client: entry.command.client,
            number: entry.command.number,
            answer,
        })
    }

    /// Executes an entry and appends its line. `NoMemory` if memory runs out.
    fn execute(&mut self, me: u32, entry: &Entry, lines: &mut Lines) -> Result<(), NoMemory>
        requires { FitsEntry entry.now }
        ensures executed { (x : ℕ) (es : List Entry) → HistoryStands self.old x es → OnOk result (HistoryStands self.new x (es ++ entry.now ∷ []) × (lines.new ≡ lines.old ++ exec_line me es entry.now ∷ [])) }
        ensures grows { Grows self.old self.new }
    {
        let line = self.run_line(me, entry)?;
        lines.push(line)
    }

    /// Executes an entry and returns the store's answer. `NoMemory` if memory runs out.
    fn run(&mut self, entry: &Entry) -> Result<Answer, NoMemory>
        requires { FitsEntry entry.now }
        ensures executed { (x : ℕ) (es : List Entry) → HistoryStands self.old x es → OnOk result (HistoryStands self.new x (es ++ entry.now ∷ [])) }
        ensures answer { IfOk result (λ answer. answer ≡ (apply self.old.store entry.now.command).1) }
        ensures spelt { OnOk result (self.new.spelt ≡ self.old.spelt ++ entry_bytes entry.now ∷ []) }
        ensures grows { Grows self.old self.new }
    {
        self.spelling.clear();
        put_entry(entry, &mut self.spelling)?;
        self.spelt.push(self.spelling.as_slice())?;
        let answer = self.store.apply(&entry.command)?;
        self.last = Some(Position {
            epoch: entry.epoch,
            stamp: entry.stamp,
        });
        if entry.epoch == self.epoch {
            self.last_stamp = LastStamp {
                stamp: Some(entry.stamp),
            };
        }
        Ok(answer)
    }

    /// Executes entries without writing their lines. `NoMemory` if memory runs out.
    pub fn run_all(&mut self, entries: &[Entry]) -> Result<(), NoMemory>
        requires { AllByRecursion FitsEntry entries.now }
        ensures executed { (x : ℕ) (es : List Entry) → HistoryStands self.old x es → OnOk result (HistoryStands self.new x (es ++ entries.now)) }
        ensures grows { Grows self.old self.new }
    {
        for entry in entries {
            let answer = self.run(entry)?;
            drop(answer);
        }
        Ok(())
    }

    /// Executes entries and appends their lines. `NoMemory` if memory runs out.
    pub fn execute_all(
        &mut self,
        me: u32,
        entries: &[Entry],
        lines: &mut Lines,
    ) -> Result<(), NoMemory>
        requires { AllByRecursion FitsEntry entries.now }
        ensures executed { (x : ℕ) (es : List Entry) → HistoryStands self.old x es → OnOk result (HistoryStands self.new x (es ++ entries.now) × (lines.new ≡ lines.old ++ exec_lines me es entries.now)) }
        ensures grows { Grows self.old self.new }
    {
        for entry in entries {
            self.execute(me, entry, lines)?;
        }
        Ok(())
    }
}

/// Decodes an entry. `NoMemory` if memory runs out.
fn read_back(alloc: Global, bytes: &[u8]) -> Result<Entry, NoMemory>
    requires { IsSpelling bytes.now }
    ensures value { (e : Entry) → FitsEntry e → bytes.now ≡ entry_bytes e → IfOk result (λ r. r ≡ e) }
    ensures fit { IfOk result FitsEntry }
{
    match read_entry(alloc, bytes)? {
        Some((entry, _)) => Ok(entry),
        None => unreachable!(),
    }
}
