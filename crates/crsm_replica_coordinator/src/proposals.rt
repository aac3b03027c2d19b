//! The proposal of a coordinator, and the replicas that have not answered it.

ghost use Rattle.std.specs.Prelude.{◌≡◌, ◌<◌, ℕ, Option, List, not, filter, All, IfOk};
ghost use Rattle.crsm_base.specs.declared.Decision.{Decision};
ghost use Rattle.crsm_base.specs.Messages.{FitsVote};
ghost use Rattle.crsm_base.specs.Spelling.{FitsOption};
ghost use Rattle.crsm_spec.specs.Lists.{has};
ghost use Rattle.crsm_spec.specs.Replica.{Coordinator as CoordinatorOnPaper};
ghost use Rattle.crsm_replica_coordinator.specs.Coordinator.{CoordinatorStands, counted_of, proposal_of, proposal_with, counted_by, proposal_by, proposal_by_with, WhereStands};

use crate::coordinator::Coordinator;
use crsm_base::{Ballot, Decision, NoMemory};
use crsm_paxos::Proposer;
use std::alloc::Global;

impl Coordinator {
    /// Returns the ballot in which it proposes and the decision, or `None` if it proposes nothing. `NoMemory` if memory
    /// runs out.
    pub fn proposal(&self, alloc: Global) -> Result<Option<(Ballot, Decision)>, NoMemory>
        ensures value { WhereStands self.now (λ me n known m. IfOk result (λ p. p ≡ proposal_of m)) }
        ensures fits { IfOk result (FitsOption FitsVote) }
    {
        match self {
            Coordinator::Proposing(proposer) => proposal_in(alloc, proposer),
            _ => Ok(None),
        }
    }

    /// Returns the proposal after the promise of replica `k`, which is not counted yet, or `None` if it proposes
    /// nothing. `NoMemory` if memory runs out.
    pub fn proposal_with(
        &self,
        alloc: Global,
        k: u32,
        accepted: &Option<(Ballot, Decision)>,
    ) -> Result<Option<(Ballot, Decision)>, NoMemory>
        requires { FitsOption FitsVote accepted.now }
        ensures value { WhereStands self.now (λ me n known m. IfOk result (λ p. p ≡ proposal_with m (record { replica = k; accepted = accepted.now }))) }
        ensures fits { IfOk result (FitsOption FitsVote) }
    {
        match self {
            Coordinator::Proposing(proposer) => proposal_in_with(alloc, proposer, k, accepted),
            _ => Ok(None),
        }
    }

    /// Returns the replicas whose promise or vote is not counted. `NoMemory` if memory runs out.
    pub fn missing(&self, alloc: Global, replicas: &[u32]) -> Result<Vec<u32>, NoMemory>
        requires { All (λ k. k < 15) replicas.now }
        ensures value { WhereStands self.now (λ me n known m. IfOk result (λ ks. ks.items ≡ filter (λ k. not (has (counted_of m) k)) replicas.now)) }
        ensures below { IfOk result (λ ks. All (λ k. k < 15) ks.items) }
    {
        let mut missing = Vec::new(alloc);
        for k in replicas {
            if !self.counts(*k) {
                missing.push(*k)?;
            }
        }
        Ok(missing)
    }

    /// Returns whether the promise or vote of a replica is counted.
    fn counts(&self, k: u32) -> bool
        ensures { WhereStands self.now (λ me n known m. result ≡ has (counted_of m) k) }
    {
        match self {
            Coordinator::Proposing(proposer) => is_counted(proposer, k),
            _ => false,
        }
    }
}

#[tactic(auto, unfolding(crsm_spec::specs::Lists::has))]
fn is_counted(proposer: &Proposer, k: u32) -> bool
    ensures { result ≡ has (counted_by proposer.now) k }
{
    if proposer.has_proposed() {
        proposer.has_vote_of(k)
    } else {
        proposer.has_promise_of(k)
    }
}

fn proposal_in(alloc: Global, proposer: &Proposer) -> Result<Option<(Ballot, Decision)>, NoMemory>
    ensures value { IfOk result (λ p. p ≡ proposal_by proposer.now) }
    ensures fits { IfOk result (FitsOption FitsVote) }
{
    if !proposer.has_proposed() {
        return Ok(None);
    }
    let value = proposer.value().copy(alloc)?;
    Ok(Some((proposer.ballot(), value)))
}

fn proposal_in_with(
    alloc: Global,
    proposer: &Proposer,
    k: u32,
    accepted: &Option<(Ballot, Decision)>,
) -> Result<Option<(Ballot, Decision)>, NoMemory>
    requires { FitsOption FitsVote accepted.now }
    ensures value { IfOk result (λ p. p ≡ proposal_by_with proposer.now k accepted.now) }
    ensures fits { IfOk result (FitsOption FitsVote) }
{
    if proposer.has_proposed() {
        return Ok(None);
    }
    let value = proposer.value_with(k, accepted).copy(alloc)?;
    Ok(Some((proposer.ballot(), value)))
}
