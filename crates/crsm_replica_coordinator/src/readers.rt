//! Readers of a coordinator.

ghost use Rattle.std.specs.Prelude.{◌≡◌, ◌&&◌, Option, [], ◌∷◌, ◌++◌, true, false, not, map};
ghost use Rattle.crsm_base.specs.declared.Ballot.{Ballot};
ghost use Rattle.crsm_base.specs.Order.{ballot_eq, ballot_lt};
ghost use Rattle.crsm_spec.specs.Lists.{has};
ghost use Rattle.crsm_spec.specs.Quorum.{spec_decided, has_majority};
ghost use Rattle.crsm_replica_coordinator.specs.Coordinator.{takes_answer, takes_vote, is_ended_by, ballot_of, is_chosen_with, stage_of, WhereStands};
ghost use Rattle.crsm_replica_coordinator.specs.Stages.{WhereAnswerCounts, WhereProposing};

use crate::coordinator::{Coordinator, Stage};
use crsm_base::{Ballot, ballot_precedes, is_same_ballot};
use crsm_paxos::Proposer;

impl Coordinator {
    /// Returns the coordinator's stage.
    pub fn stage(&self) -> Stage
        ensures { WhereStands self.now (λ me n known m. result ≡ stage_of m) }
    {
        match self {
            Coordinator::Idle => Stage::Idle,
            Coordinator::Collecting(_) => Stage::Collecting,
            Coordinator::Proposing(proposer) => stage_in(proposer.has_proposed()),
            Coordinator::Preempted(_) => Stage::Preempted,
        }
    }

    /// Returns whether the promise of replica `k` in this ballot counts.
    pub fn takes_answer(&self, b: Ballot, k: u32) -> bool
        ensures { WhereStands self.now (λ me n known m. result ≡ takes_answer m b k) }
    {
        match self {
            Coordinator::Proposing(proposer) => is_answer(proposer, b, k),
            _ => false,
        }
    }

    /// Returns whether the vote of replica `k` in this ballot counts.
    pub fn takes_vote(&self, b: Ballot, k: u32) -> bool
        ensures { WhereStands self.now (λ me n known m. result ≡ takes_vote m b k) }
    {
        match self {
            Coordinator::Proposing(proposer) => is_vote(proposer, b, k),
            _ => false,
        }
    }

    /// Returns whether `b` is the ballot of its proposal, and the promised ballot `top` preempts it.
    pub fn is_ended_by(&self, b: Ballot, top: Ballot) -> bool
        ensures { WhereStands self.now (λ me n known m. result ≡ is_ended_by m b top) }
    {
        match self {
            Coordinator::Proposing(proposer) => is_end(proposer, b, top),
            _ => false,
        }
    }

    /// Returns the ballot in which it asks for promises or proposes, or `None` in other stages.
    pub fn ballot(&self) -> Option<Ballot>
        ensures { WhereStands self.now (λ me n known m. result ≡ ballot_of m) }
    {
        match self {
            Coordinator::Proposing(proposer) => Some(proposer.ballot()),
            _ => None,
        }
    }

    /// Returns whether one more promise of a counted replica makes a majority.
    pub fn is_last_answer(&self) -> bool
        ensures { WhereAnswerCounts self.now (λ me n known answers a. result ≡ has_majority (spec_decided n known) (map (λ f. f.replica) (answers ++ a ∷ []))) }
    {
        match self {
            Coordinator::Proposing(proposer) => proposer.is_last_promise(),
            _ => false,
        }
    }

    /// Returns whether the vote of replica `k`, which counts, makes a majority with the votes before.
    pub fn is_last_vote(&self, k: u32) -> bool
        ensures { WhereProposing self.now (λ me n known b own value acceptors. has (spec_decided n known) k ≡ true → result ≡ has_majority (spec_decided n known) (k ∷ acceptors)) }
    {
        match self {
            Coordinator::Proposing(proposer) => is_chosen_with(proposer, k),
            _ => false,
        }
    }
}

fn stage_in(has_proposed: bool) -> Stage
    ensures proposing { has_proposed ≡ true → result ≡ Stage.Proposing }
    ensures asking { has_proposed ≡ false → result ≡ Stage.Preparing }
{
    if has_proposed {
        Stage::Proposing
    } else {
        Stage::Preparing
    }
}

#[tactic(auto, unfolding(crsm_spec::specs::Lists::has))]
fn is_answer(proposer: &Proposer, b: Ballot, k: u32) -> bool
    ensures { result ≡ (not proposer.now.has_proposed && (ballot_eq b proposer.now.ballot && not (has proposer.now.received k))) }
{
    !proposer.has_proposed() && is_same_ballot(b, proposer.ballot()) && !proposer.has_promise_of(k)
}

#[tactic(auto, unfolding(crsm_spec::specs::Lists::has))]
fn is_vote(proposer: &Proposer, b: Ballot, k: u32) -> bool
    ensures { result ≡ (proposer.now.has_proposed && (ballot_eq b proposer.now.ballot && not (has proposer.now.voters k))) }
{
    proposer.has_proposed() && is_same_ballot(b, proposer.ballot()) && !proposer.has_vote_of(k)
}

fn is_end(proposer: &Proposer, b: Ballot, top: Ballot) -> bool
    ensures { result ≡ (ballot_eq b proposer.now.ballot && ballot_lt b top) }
{
    is_same_ballot(b, proposer.ballot()) && ballot_precedes(b, top)
}

#[tactic(auto, unfolding(crsm_spec::specs::Lists::has))]
/// Returns whether the votes are a majority together with this one, which may be counted already.
pub(crate) fn is_chosen_with(proposer: &Proposer, k: u32) -> bool
    ensures { result ≡ is_chosen_with proposer.now k }
{
    if proposer.has_vote_of(k) {
        proposer.is_chosen()
    } else {
        proposer.is_last_vote()
    }
}
