//! The stages of a replica that ends an epoch.

ghost use Rattle.std.specs.Prelude.{◌≡◌, IfOk};
ghost use Rattle.crsm_base.specs.Spelling.{FitsBallot, FitsDecision};
ghost use Rattle.crsm_replica_coordinator.specs.Retries.{FitsRetry};

use crsm_base::{Ballot, Decision, NoMemory};
use crsm_paxos::Proposer;
use crsm_suspend::Collect;
use std::alloc::Global;
use std::marker::Model;

/// The coordinator of a replica: the stage of a membership change or of the end of an epoch.
#[derive(Drop)]
pub enum Coordinator {
    /// It does nothing.
    Idle,
    /// It collects the frozen logs of a majority.
    Collecting(Collect),
    /// It asks for promises, or proposes a decision.
    Proposing(Proposer),
    /// Its ballot was preempted. It proposes its own decision again.
    Preempted(Retry),
}

/// An own decision that is to be proposed again, above the ballot that preempted it. Both have encodings.
#[derive(Drop)]
pub struct Retry {
    own: Decision,
    seen: Ballot,
}

impl Model for Retry {
    ghost use Rattle.crsm_base.specs.declared.decision.Decision.{Decision};
    ghost use Rattle.crsm_base.specs.declared.stamp.Ballot.{Ballot};
    ghost use Rattle.crsm_replica_coordinator.specs.Retries.{FitsRetry};

    ghost Value = { Decision × Ballot };

    ghost view = { λ r. (r.own, r.seen) };

    ghost invariant = { λ r. FitsRetry (r.own, r.seen) };
}

impl Retry {
    /// Returns the retry of a decision that was preempted by the ballot `seen`.
    pub(crate) fn new(own: Decision, seen: Ballot) -> Retry
        requires own { FitsDecision own }
        requires seen { FitsBallot seen }
        ensures { result ≡ (own, seen) }
    {
        Retry { own, seen }
    }

    /// Returns a copy of the decision, and the ballot that preempted it. `NoMemory` if memory runs out.
    pub(crate) fn copy(&self, alloc: Global) -> Result<(Decision, Ballot), NoMemory>
        ensures value { IfOk result (λ r. r ≡ self.now) }
        ensures fits { IfOk result FitsRetry }
    {
        Ok((self.own.copy(alloc)?, self.seen))
    }
}

/// The stage of a coordinator.
#[derive(Clone, Copy)]
pub enum Stage {
    Idle,
    Collecting,
    Preparing,
    Proposing,
    Preempted,
}

/// The result of counting a vote.
#[derive(Drop)]
pub enum Voted {
    /// More votes are needed.
    More(Coordinator),
    /// A majority has voted for this decision.
    Chosen(Decision),
}
