//! The effect and the lines of the records that contain no entry.

ghost use Rattle.std.specs.Prelude.{◌≡◌, ℕ, ◌∷◌, [], IfOk};
ghost use Rattle.crsm_base.specs.declared.Rec.{Rec};
ghost use Rattle.crsm_base.specs.Records.{FitsRec};
ghost use Rattle.crsm_base.specs.Spelling.{FitsBallot, FitsDecision};
ghost use Rattle.crsm_ledger.specs.Ledger.{CanFollow, Keeps};

use crate::ledger::Ledger;
use crsm_base::{Ballot, Decision, Line, Lines, NoMemory, Rec};
use std::alloc::Global;

/// Returns a list of one line. `NoMemory` if memory runs out.
pub(crate) fn one_line(alloc: Global, line: Line) -> Result<Lines, NoMemory>
    ensures { IfOk result (λ lines. lines ≡ line ∷ []) }
{
    let mut lines = Lines::new(alloc);
    lines.push(line)?;
    Ok(lines)
}

impl Ledger {
    /// Applies a record that may come next, and returns its lines. `NoMemory` if memory runs out; the fields are then
    /// unspecified.
    pub(crate) fn keep(&mut self, rec: &Rec) -> Result<Lines, NoMemory>
        requires fits { FitsRec rec.now }
        requires can { CanFollow self.old rec.now }
        ensures kept { Keeps self.old rec.now result self.new }
        ensures mark { self.new.is_spent ≡ self.old.is_spent }
    {
        match rec {
            Rec::Boot { .. } => self.keep_boot(),
            Rec::Prepare { entry } => self.keep_prepare(entry),
            Rec::Commit { .. } => self.keep_commit(),
            Rec::Adopt { entries, .. } => self.keep_adopt(entries),
            Rec::Suspend { epoch } => self.keep_suspend(*epoch),
            Rec::Promise { instance, ballot } => self.keep_promise(*instance, *ballot),
            Rec::Accept {
                instance,
                ballot,
                decision,
            } => self.keep_accept(*instance, *ballot, decision),
            Rec::Decide { decision } => self.keep_decide(decision),
            Rec::Enter { epoch } => self.keep_enter(*epoch),
        }
    }

    fn keep_boot(&mut self) -> Result<Lines, NoMemory>
        ensures kept { (me n : ℕ) → Keeps self.old (Rec.Boot me n) result self.new }
        ensures mark { self.new.is_spent ≡ self.old.is_spent }
    {
        let replica = self.me;
        let count = self.boots.saturating_add(1);
        let lines = one_line(self.alloc, Line::Boot { replica, count })?;
        self.follow_boot();
        Ok(lines)
    }

    fn keep_suspend(&mut self, epoch: u64) -> Result<Lines, NoMemory>
        ensures kept { Keeps self.old (Rec.Suspend epoch) result self.new }
        ensures mark { self.new.is_spent ≡ self.old.is_spent }
    {
        let replica = self.me;
        let lines = one_line(self.alloc, Line::Suspend { replica, epoch })?;
        self.follow_suspend();
        Ok(lines)
    }

    fn keep_promise(&mut self, instance: u64, ballot: Ballot) -> Result<Lines, NoMemory>
        requires { FitsBallot ballot }
        ensures kept { Keeps self.old (Rec.Promise instance ballot) result self.new }
        ensures mark { self.new.is_spent ≡ self.old.is_spent }
    {
        let line = Line::Promise {
            replica: self.me,
            instance,
            round: ballot.round,
            by: ballot.by,
        };
        let lines = one_line(self.alloc, line)?;
        self.follow_promise(ballot);
        Ok(lines)
    }

    fn keep_accept(
        &mut self,
        instance: u64,
        ballot: Ballot,
        decision: &Decision,
    ) -> Result<Lines, NoMemory>
        requires ballot { FitsBallot ballot }
        requires decision { FitsDecision decision.now }
        ensures kept { Keeps self.old (Rec.Accept instance ballot decision.now) result self.new }
        ensures mark { self.new.is_spent ≡ self.old.is_spent }
    {
        let line = Line::Accept {
            replica: self.me,
            instance,
            round: ballot.round,
            by: ballot.by,
        };
        let lines = one_line(self.alloc, line)?;
        let accepted = decision.copy(self.alloc)?;
        self.follow_accept(ballot, accepted);
        Ok(lines)
    }

    fn keep_enter(&mut self, epoch: u64) -> Result<Lines, NoMemory>
        ensures kept { Keeps self.old (Rec.Enter epoch) result self.new }
        ensures mark { self.new.is_spent ≡ self.old.is_spent }
    {
        let replica = self.me;
        let lines = one_line(self.alloc, Line::Enter { replica, epoch })?;
        self.follow_enter();
        Ok(lines)
    }
}
