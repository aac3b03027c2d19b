//! The effect of records whose lines are not wanted.

ghost use Rattle.std.specs.Prelude.{◌≡◌, ℕ, None, OnOk, Option, Some};
ghost use Rattle.crsm_spec.specs.Types.{Ballot as BallotOnPaper, Decision as DecisionOnPaper};
ghost use Rattle.crsm_base.specs.declared.Rec.{Rec};
ghost use Rattle.crsm_base.specs.declared.Stamp.{Stamp};
ghost use Rattle.crsm_base.specs.Records.{FitsRec};
ghost use Rattle.crsm_base.specs.Spelling.{FitsBallot, FitsEntry, FitsEntries, FitsDecision};
ghost use Rattle.crsm_ledger.specs.Held.{CanBeLogged, HasNext};
ghost use Rattle.crsm_ledger.specs.Ledger.{CanFollow, Follows};

use crate::fields::{AcceptedVote, KnownDecision, PromisedBallot};
use crate::ledger::{Ledger, NO_BALLOT};
use crsm_base::{Ballot, Decision, Entries, Entry, NoMemory, Rec};

impl Ledger {
    /// Applies a record that may come next, by value. `NoMemory` if memory runs out; the fields are then unspecified.
    pub(crate) fn follow(&mut self, rec: Rec) -> Result<(), NoMemory>
        requires fits { FitsRec rec }
        requires can { CanFollow self.old rec }
        ensures kept { OnOk result (Follows self.old rec self.new) }
        ensures mark { self.new.is_spent ≡ self.old.is_spent }
    {
        match rec {
            Rec::Prepare { entry } => return self.follow_prepare(entry),
            Rec::Commit { .. } => return self.follow_commit(),
            Rec::Adopt { entries, .. } => return self.follow_adopt(&entries),
            Rec::Boot { .. } => self.follow_boot(),
            Rec::Suspend { .. } => self.follow_suspend(),
            Rec::Promise { ballot, .. } => self.follow_promise(ballot),
            Rec::Accept {
                ballot,
                decision,
                ..
            } => self.follow_accept(ballot, decision),
            Rec::Decide { decision } => self.follow_decide(decision),
            Rec::Enter { .. } => self.follow_enter(),
        }
        Ok(())
    }

    pub(crate) fn follow_boot(&mut self)
        ensures kept { (me n : ℕ) → Follows self.old (Rec.Boot me n) self.new }
        ensures accepted { self.new.accepted ≡ self.old.accepted }
        ensures known { self.new.known ≡ self.old.known }
        ensures mark { self.new.is_spent ≡ self.old.is_spent }
    {
        self.boots = self.boots.saturating_add(1);
        self.is_live = false;
    }

    pub(crate) fn follow_prepare(&mut self, entry: Entry) -> Result<(), NoMemory>
        requires fits { FitsEntry entry }
        requires next { CanBeLogged self.old.held.history.epoch self.old.held.logged entry }
        ensures kept { OnOk result (Follows self.old (Rec.Prepare entry) self.new) }
        ensures accepted { self.new.accepted ≡ self.old.accepted }
        ensures known { self.new.known ≡ self.old.known }
        ensures mark { self.new.is_spent ≡ self.old.is_spent }
    {
        self.held.log(entry)?;
        Ok(())
    }

    pub(crate) fn follow_commit(&mut self) -> Result<(), NoMemory>
        requires { HasNext self.old.held.history.last_stamp self.old.held.logged }
        ensures kept { (stamp : Stamp) → OnOk result (Follows self.old (Rec.Commit stamp) self.new) }
        ensures accepted { self.new.accepted ≡ self.old.accepted }
        ensures known { self.new.known ≡ self.old.known }
        ensures mark { self.new.is_spent ≡ self.old.is_spent }
    {
        let line = self.held.run_next(self.me)?;
        drop(line);
        Ok(())
    }

    fn follow_adopt(&mut self, entries: &Entries) -> Result<(), NoMemory>
        requires { FitsEntries entries.now }
        ensures kept { (place : ℕ) → OnOk result (Follows self.old (Rec.Adopt place entries.now) self.new) }
        ensures mark { self.new.is_spent ≡ self.old.is_spent }
    {
        self.held.run_all(entries.as_slice())?;
        Ok(())
    }

    pub(crate) fn follow_suspend(&mut self)
        ensures kept { (epoch : ℕ) → Follows self.old (Rec.Suspend epoch) self.new }
        ensures accepted { self.new.accepted ≡ self.old.accepted }
        ensures known { self.new.known ≡ self.old.known }
        ensures mark { self.new.is_spent ≡ self.old.is_spent }
    {
        self.is_suspended = true;
    }

    pub(crate) fn follow_promise(&mut self, ballot: Ballot)
        requires { FitsBallot ballot }
        ensures kept { (instance : ℕ) → Follows self.old (Rec.Promise instance ballot) self.new }
        ensures accepted { self.new.accepted ≡ self.old.accepted }
        ensures known { self.new.known ≡ self.old.known }
        ensures mark { self.new.is_spent ≡ self.old.is_spent }
    {
        self.promised = PromisedBallot { ballot };
    }

    pub(crate) fn follow_accept(&mut self, ballot: Ballot, decision: Decision)
        requires ballot { FitsBallot ballot }
        requires decision { FitsDecision decision }
        ensures kept { (instance : ℕ) → Follows self.old (Rec.Accept instance ballot decision) self.new }
        ensures anew { (a : Option (BallotOnPaper × DecisionOnPaper)) (instance : ℕ) → Follows (record self.old { accepted = a }) (Rec.Accept instance ballot decision) self.new }
        ensures accepted { self.new.accepted ≡ Some (ballot, decision) }
        ensures known { self.new.known ≡ self.old.known }
        ensures mark { self.new.is_spent ≡ self.old.is_spent }
    {
        self.promised = PromisedBallot { ballot };
        self.accepted = AcceptedVote {
            vote: Some((ballot, decision)),
        };
    }

    pub(crate) fn follow_decide(&mut self, decision: Decision)
        requires { FitsDecision decision }
        ensures kept { Follows self.old (Rec.Decide decision) self.new }
        ensures anew { (a : Option (BallotOnPaper × DecisionOnPaper)) → Follows (record self.old { accepted = a }) (Rec.Decide decision) self.new }
        ensures accepted { self.new.accepted ≡ None }
        ensures known { self.new.known ≡ decision }
        ensures mark { self.new.is_spent ≡ self.old.is_spent }
    {
        self.start = decision.base_len + decision.tail.as_slice().len() as u64;
        self.held.begin_epoch(decision.epoch);
        self.known = KnownDecision { decision };
        self.is_live = false;
        self.is_suspended = false;
        self.has_entered = false;
        self.promised = PromisedBallot { ballot: NO_BALLOT };
        self.accepted = AcceptedVote { vote: None };
    }

    pub(crate) fn follow_enter(&mut self)
        ensures kept { (epoch : ℕ) → Follows self.old (Rec.Enter epoch) self.new }
        ensures accepted { self.new.accepted ≡ self.old.accepted }
        ensures known { self.new.known ≡ self.old.known }
        ensures mark { self.new.is_spent ≡ self.old.is_spent }
    {
        self.is_live = true;
        self.has_entered = true;
    }
}
