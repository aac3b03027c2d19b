//! The effect and the lines of the records that contain entries.

ghost use Rattle.std.specs.Prelude.{◌≡◌, ℕ, ◌∷◌, [], List};
ghost use Rattle.crsm_base.specs.declared.Rec.{Rec};
ghost use Rattle.crsm_base.specs.declared.Stamp.{Stamp};
ghost use Rattle.crsm_base.specs.Spelling.{FitsEntry, FitsEntries, FitsDecision};
ghost use Rattle.crsm_spec.specs.Lines.{lines_of};
ghost use Rattle.crsm_ledger.specs.Held.{CanBeLogged, HasNext};
ghost use Rattle.crsm_ledger.specs.Ledger.{Keeps};

use crate::ledger::Ledger;
use crate::steps::one_line;
use crsm_base::{Decision, Entries, Entry, Line, Lines, NoMemory};

impl Ledger {
    pub(crate) fn keep_prepare(&mut self, entry: &Entry) -> Result<Lines, NoMemory>
        requires fits { FitsEntry entry.now }
        requires next { CanBeLogged self.old.held.history.epoch self.old.held.logged entry.now }
        ensures kept { Keeps self.old (Rec.Prepare entry.now) result self.new }
        ensures mark { self.new.is_spent ≡ self.old.is_spent }
    {
        let lines = one_line(self.alloc, prepare_line(self.me, entry))?;
        let copy = entry.copy(self.alloc)?;
        self.follow_prepare(copy)?;
        Ok(lines)
    }

    pub(crate) fn keep_commit(&mut self) -> Result<Lines, NoMemory>
        requires { HasNext self.old.held.history.last_stamp self.old.held.logged }
        ensures kept { (stamp : Stamp) → Keeps self.old (Rec.Commit stamp) result self.new }
        ensures mark { self.new.is_spent ≡ self.old.is_spent }
    {
        let line = self.held.run_next(self.me)?;
        let lines = one_line(self.alloc, line)?;
        Ok(lines)
    }

    pub(crate) fn keep_adopt(&mut self, entries: &Entries) -> Result<Lines, NoMemory>
        requires { FitsEntries entries.now }
        ensures kept { (place : ℕ) → Keeps self.old (Rec.Adopt place entries.now) result self.new }
        ensures mark { self.new.is_spent ≡ self.old.is_spent }
    {
        let mut lines = Lines::new(self.alloc);
        self.held
            .execute_all(self.me, entries.as_slice(), &mut lines)?;
        Ok(lines)
    }

    pub(crate) fn keep_decide(&mut self, decision: &Decision) -> Result<Lines, NoMemory>
        requires { FitsDecision decision.now }
        ensures kept { Keeps self.old (Rec.Decide decision.now) result self.new }
        ensures mark { self.new.is_spent ≡ self.old.is_spent }
    {
        let count = decision.tail.as_slice().len() as u64;
        let members = decision.members.copy(self.alloc)?;
        let line = Line::Decide {
            replica: self.me,
            epoch: decision.epoch,
            members,
            base_len: decision.base_len,
            count,
        };
        let lines = one_line(self.alloc, line)?;
        let known = decision.copy(self.alloc)?;
        self.follow_decide(known);
        Ok(lines)
    }
}

/// Returns the line of an entry that replica `me` logs.
#[tactic(auto, unfolding(crsm_spec::specs::Lines::lines_of))]
fn prepare_line(me: u32, entry: &Entry) -> Line
    ensures { (log : List Rec) → result ∷ [] ≡ lines_of me log (Rec.Prepare entry.now) }
{
    if entry.stamp.origin == me {
        Line::Submit {
            replica: me,
            epoch: entry.epoch,
            time: entry.stamp.time,
            client: entry.command.client,
            number: entry.command.number,
        }
    } else {
        Line::Log {
            replica: me,
            epoch: entry.epoch,
            stamp: entry.stamp,
        }
    }
}
