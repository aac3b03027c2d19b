//! Recording of the account of a sheet, line by line.

ghost use Rattle.std.specs.Prelude.{◌≡◌, ◌<◌, ◌∷◌, ◌++◌, ℕ, [], List, Some, OnOk, slice_get};
ghost use Rattle.std.specs.List.{AllByRecursion};
ghost use Rattle.crsm_base.specs.Records.{FitsRec, SpeltBody};
ghost use Rattle.crsm_base.specs.Spelling.{FitsEntry, entry_bytes};
ghost use Rattle.crsm_ledger.specs.Ledger.{LedgerStands, executed_count};
ghost use Rattle.crsm_replica_rerun.specs.Replaying.{IsOfSome};
ghost use Rattle.crsm_spec.specs.Types.{Entry, Rec};
ghost use Rattle.crsm_spec.specs.Lists.{IsPrefixOf};
ghost use Rattle.crsm_spec.specs.Log.{Log, executed};
ghost use Rattle.crsm_audit.specs.Accounts.{dropped_in, dropped_of, own_in, own_of, spelt};
ghost use Rattle.crsm_audit.specs.Entries.{no_lists};

use crate::account::Account;
use crate::entries::AccountEntries;
use crate::place::Dropped;
use crsm_base::{Bytes, Entry, Line, NoMemory, Rec};
use crsm_codec::{read_recs, write_entry};
use crsm_ledger::Ledger;
use crsm_replica_output::Batch;
use std::alloc::Global;

impl Account {
    /// Returns the account of a sheet of node `me` before its first line.
    pub fn new(alloc: Global, me: u32) -> Account
        requires { me < 15 }
        ensures me { result.me ≡ me }
        ensures entries { result.entries ≡ no_lists }
        ensures dropped { result.dropped.items ≡ [] }
    {
        Account {
            alloc,
            me,
            entries: AccountEntries::new(alloc),
            dropped: Vec::new(alloc),
        }
    }

    /// Adds the node's own entries in a body of the log. A body that is not a list of records is left to the replica
    /// that boots on it. `NoMemory` if memory runs out.
    pub fn find(&mut self, body: &[u8]) -> Result<(), NoMemory>
        ensures held { (recs : List Rec) → SpeltBody recs body.now → OnOk result (self.new.entries.held ≡ self.old.entries.held ++ spelt (own_in self.old.me recs)) }
        ensures me { self.new.me ≡ self.old.me }
        ensures list { self.new.entries.list ≡ self.old.entries.list }
        ensures dropped { self.new.dropped.items ≡ self.old.dropped.items }
    {
        let Some(recs) = read_recs(self.alloc, body)? else {
            return Ok(());
        };
        self.hold_all(recs.as_slice())
    }

    /// Adds the replica's output at the input line `at`, after which its ledger is `ledger`. `NoMemory` if memory runs
    /// out.
    pub fn take(&mut self, at: u64, batch: &Batch, ledger: &Ledger) -> Result<(), NoMemory>
        requires records { AllByRecursion FitsRec batch.now.records }
        requires ledger { ∥ IsOfSome ledger.now ∥₁ }
        ensures held { OnOk result (self.new.entries.held ≡ self.old.entries.held ++ spelt (own_in self.old.me batch.now.records)) }
        ensures dropped { OnOk result (self.new.dropped.items ≡ self.old.dropped.items ++ dropped_in at batch.now.lines) }
        ensures list { (me n : ℕ) (log : Log) (es : List Entry) → LedgerStands me n ledger.now log → IsPrefixOf es (executed log) → self.old.entries.list ≡ spelt es
            → OnOk result (self.new.entries.list ≡ spelt (executed log)) }
        ensures me { self.new.me ≡ self.old.me }
    {
        self.hold_all(batch.records.as_slice())?;
        self.note_dropped(at, batch.lines.as_slice())?;
        self.follow(ledger)
    }

    /// Adds the entry if it is the node's own.
    fn hold_entry(&mut self, entry: &Entry) -> Result<(), NoMemory>
        requires { FitsEntry entry.now }
        ensures held { OnOk result (self.new.entries.held ≡ self.old.entries.held ++ spelt (own_of self.old.me (Rec.Prepare entry.now))) }
        ensures same { (self.new.me ≡ self.old.me) × (self.new.entries.list ≡ self.old.entries.list) × (self.new.dropped.items ≡ self.old.dropped.items) }
    {
        if entry.stamp.origin != self.me {
            return Ok(());
        }
        let mut bytes = Bytes::new(self.alloc);
        write_entry(self.alloc, entry, &mut bytes)?;
        self.entries.hold(bytes.as_slice())
    }

    /// Adds the own entries of records.
    fn hold_all(&mut self, recs: &[Rec]) -> Result<(), NoMemory>
        requires { AllByRecursion FitsRec recs.now }
        ensures held { OnOk result (self.new.entries.held ≡ self.old.entries.held ++ spelt (own_in self.old.me recs.now)) }
        ensures same { (self.new.me ≡ self.old.me) × (self.new.entries.list ≡ self.old.entries.list) × (self.new.dropped.items ≡ self.old.dropped.items) }
    {
        for rec in recs {
            self.hold(rec)?;
        }
        Ok(())
    }

    /// Adds the own entry of a record.
    fn hold(&mut self, rec: &Rec) -> Result<(), NoMemory>
        requires { FitsRec rec.now }
        ensures held { OnOk result (self.new.entries.held ≡ self.old.entries.held ++ spelt (own_of self.old.me rec.now)) }
        ensures same { (self.new.me ≡ self.old.me) × (self.new.entries.list ≡ self.old.entries.list) × (self.new.dropped.items ≡ self.old.dropped.items) }
    {
        match rec {
            Rec::Prepare { entry } => self.hold_entry(entry),
            _ => Ok(()),
        }
    }

    /// Adds the commands that these lines report as dropped.
    fn note_dropped(&mut self, at: u64, lines: &[Line]) -> Result<(), NoMemory>
        ensures dropped { OnOk result (self.new.dropped.items ≡ self.old.dropped.items ++ dropped_in at lines.now) }
        ensures same { (self.new.me ≡ self.old.me) × (self.new.entries.list ≡ self.old.entries.list) × (self.new.entries.held ≡ self.old.entries.held) }
    {
        for line in lines {
            self.note(at, line)?;
        }
        Ok(())
    }

    /// Adds the command that a line reports as dropped.
    fn note(&mut self, at: u64, line: &Line) -> Result<(), NoMemory>
        ensures dropped { OnOk result (self.new.dropped.items ≡ self.old.dropped.items ++ dropped_of at line.now) }
        ensures same { (self.new.me ≡ self.old.me) × (self.new.entries.list ≡ self.old.entries.list) × (self.new.entries.held ≡ self.old.entries.held) }
    {
        if let Line::ReplyDropped { epoch, stamp, .. } = line {
            let name = Dropped {
                line: at,
                epoch: *epoch,
                stamp: *stamp,
            };
            self.dropped.push(name)?;
        }
        Ok(())
    }

    /// Adds the entries executed since the last line.
    fn follow(&mut self, ledger: &Ledger) -> Result<(), NoMemory>
        requires { ∥ IsOfSome ledger.now ∥₁ }
        ensures list { (me n : ℕ) (log : Log) (es : List Entry) → LedgerStands me n ledger.now log → IsPrefixOf es (executed log) → self.old.entries.list ≡ spelt es
            → OnOk result (self.new.entries.list ≡ spelt (executed log)) }
        ensures same { (self.new.me ≡ self.old.me) × (self.new.entries.held ≡ self.old.entries.held) × (self.new.dropped.items ≡ self.old.dropped.items) }
    {
        for place in self.entries.list_len() as u64..ledger.executed_len() {
            self.add_executed(ledger, place)?;
        }
        Ok(())
    }

    /// Adds the executed entry with this index.
    fn add_executed(&mut self, ledger: &Ledger, place: u64) -> Result<(), NoMemory>
        requires ledger { ∥ IsOfSome ledger.now ∥₁ }
        requires place { place < executed_count ledger.now }
        ensures list { (me n : ℕ) (log : Log) (e : Entry) → LedgerStands me n ledger.now log → slice_get (executed log) place ≡ Some e
            → OnOk result (self.new.entries.list ≡ self.old.entries.list ++ entry_bytes e ∷ []) }
        ensures same { (self.new.me ≡ self.old.me) × (self.new.entries.held ≡ self.old.entries.held) × (self.new.dropped.items ≡ self.old.dropped.items) }
    {
        match ledger.spelt(place) {
            Some(bytes) => self.entries.execute(bytes),
            None => unreachable!(),
        }
    }
}
