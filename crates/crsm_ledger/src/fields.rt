//! Fields of a ledger whose values have encodings: the type of each says so.

ghost use Rattle.std.specs.Prelude.{◌≡◌, ◌≤◌, None, Option};
ghost use Rattle.crsm_base.specs.Messages.{FitsVote};
ghost use Rattle.crsm_base.specs.Spelling.{FitsBallot, FitsDecision, FitsOption, FitsStamp};

use crsm_base::{Ballot, Decision, Stamp};
use std::marker::Model;
use std::mem;

/// The ballot that is promised.
#[derive(Drop)]
pub struct PromisedBallot {
    pub ballot: Ballot,
}

impl Model for PromisedBallot {
    ghost use Rattle.crsm_base.specs.declared.stamp.Ballot.{Ballot};
    ghost use Rattle.crsm_base.specs.Spelling.{FitsBallot};

    ghost Value = { Ballot };

    ghost view = { λ p. p.ballot };

    ghost invariant = { λ p. FitsBallot p.ballot };
}

impl PromisedBallot {
    /// Returns the ballot.
    pub fn get(&self) -> Ballot
        ensures value { result ≡ self.now }
        ensures fits { FitsBallot result }
    {
        self.ballot
    }
}

/// The decision that was accepted last, with its ballot, or `None` if none was.
#[derive(Drop)]
pub struct AcceptedVote {
    pub vote: Option<(Ballot, Decision)>,
}

impl Model for AcceptedVote {
    ghost use Rattle.std.specs.Prelude.{Option};
    ghost use Rattle.crsm_base.specs.declared.stamp.Ballot.{Ballot};
    ghost use Rattle.crsm_base.specs.declared.decision.Decision.{Decision};
    ghost use Rattle.crsm_base.specs.Messages.{FitsVote};
    ghost use Rattle.crsm_base.specs.Spelling.{FitsOption};

    ghost Value = { Option (Ballot × Decision) };

    ghost view = { λ a. a.vote };

    ghost invariant = { λ a. FitsOption FitsVote a.vote };
}

impl AcceptedVote {
    /// Returns the ballot and the decision.
    pub fn get(&self) -> &Option<(Ballot, Decision)>
        ensures value { result.now ≡ self.now }
        ensures fits { FitsOption FitsVote result.now }
    {
        &self.vote
    }

    /// Removes the ballot and the decision, and returns them.
    pub fn take(&mut self) -> Option<(Ballot, Decision)>
        ensures value { result ≡ self.old }
        ensures none { self.new ≡ None }
        ensures fits { FitsOption FitsVote result }
    {
        mem::replace(&mut self.vote, None)
    }
}

/// The decision of the known epoch.
#[derive(Drop)]
pub struct KnownDecision {
    pub decision: Decision,
}

impl Model for KnownDecision {
    ghost use Rattle.crsm_base.specs.declared.decision.Decision.{Decision};
    ghost use Rattle.crsm_ledger.specs.Fields.{FitsOnceDecided};

    ghost Value = { Decision };

    ghost view = { λ k. k.decision };

    ghost invariant = { λ k. FitsOnceDecided k.decision };
}

impl KnownDecision {
    /// Returns the decision.
    pub fn get(&self) -> &Decision
        ensures value { result.now ≡ self.now }
        ensures fits { 1 ≤ result.now.epoch → FitsDecision result.now }
    {
        &self.decision
    }
}

/// The stamp of the last executed entry of the known epoch, or `None` if there is none.
#[derive(Drop)]
pub struct LastStamp {
    pub stamp: Option<Stamp>,
}

impl Model for LastStamp {
    ghost use Rattle.std.specs.Prelude.{Option};
    ghost use Rattle.crsm_base.specs.declared.stamp.Stamp.{Stamp};
    ghost use Rattle.crsm_base.specs.Spelling.{FitsOption, FitsStamp};

    ghost Value = { Option Stamp };

    ghost view = { λ l. l.stamp };

    ghost invariant = { λ l. FitsOption FitsStamp l.stamp };
}

impl LastStamp {
    /// Returns the stamp.
    pub fn get(&self) -> Option<Stamp>
        ensures value { result ≡ self.now }
        ensures fits { FitsOption FitsStamp result }
    {
        self.stamp
    }
}
