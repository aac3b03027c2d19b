//! The transitions of a coordinator.

ghost use Rattle.std.specs.Prelude.{◌≡◌, ◌<◌, ◌+◌, ◌^◌, ℕ, Option, Some, [], ◌∷◌, ◌++◌, true, IfOk};
ghost use Rattle.crsm_base.specs.declared.Decision.{Decision};
ghost use Rattle.crsm_base.specs.declared.Ballot.{Ballot};
ghost use Rattle.crsm_base.specs.Messages.{FitsVote};
ghost use Rattle.crsm_base.specs.Spelling.{FitsBallot, FitsDecision, FitsOption};
ghost use Rattle.crsm_spec.specs.Lists.{has};
ghost use Rattle.crsm_spec.specs.Quorum.{spec_decided};
ghost use Rattle.crsm_spec.specs.Replica.{Coordinator as CoordinatorOnPaper};
ghost use Rattle.crsm_replica_coordinator.specs.Coordinator.{CoordinatorStands, IsOwn, VotedIs, preempted_by, WhereStands};
ghost use Rattle.crsm_replica_coordinator.specs.Retries.{FitsRetry};
ghost use Rattle.crsm_replica_coordinator.specs.Stages.{AnsweredIs, WhereNextRound, WherePreempted, WhereProposing, WhereUnanswered, answer_of};

use crate::coordinator::{Coordinator, Retry, Voted};
use crate::readers::is_chosen_with;
use crsm_base::{Ballot, Decision, Members, NoMemory};
use crsm_paxos::Proposer;
use std::alloc::Global;

impl Coordinator {
    #[tactic(auto, unfolding(crate::specs::Coordinator::CoordinatorStands))]
    /// Returns an idle coordinator.
    pub fn quiet() -> Coordinator
        ensures { (me n : ℕ) (known : Option Decision) → CoordinatorStands result me n known CoordinatorOnPaper.Idle }
    {
        Coordinator::Idle
    }

    /// Returns a coordinator that asks for promises in the round after that of a ballot, which exists, over this
    /// replica set. The promise of `me` is counted, with the decision that it had accepted. `NoMemory` if memory runs
    /// out.
    pub fn asking(
        alloc: Global,
        own: Decision,
        above: Ballot,
        me: u32,
        spec: &Members,
        accepted: Option<(Ballot, Decision)>,
    ) -> Result<Coordinator, NoMemory>
        requires me { me < 15 }
        requires next { above.round + 1 < 2 ^ 64 }
        requires own { FitsDecision own }
        requires accepted { FitsOption FitsVote accepted }
        ensures { WhereNextRound me own spec.now above (λ n known b. IfOk result (λ coordinator. AnsweredIs coordinator me n known b own (answer_of me accepted ∷ []))) }
    {
        let size = spec.count();
        let mut proposer = Proposer::start(alloc, own, above, me, size);
        let ballot = proposer.ballot();
        let Ok(next) = proposer.on_p1b(me, ballot, accepted) else {
            drop(proposer);
            return Err(NoMemory);
        };
        drop(next);
        Ok(Coordinator::Proposing(proposer))
    }

    /// Counts the promise of a replica, with the decision that it had accepted. `NoMemory` if memory runs out.
    pub fn with_answer(
        self,
        k: u32,
        accepted: Option<(Ballot, Decision)>,
    ) -> Result<Coordinator, NoMemory>
        requires below { k < 15 }
        requires accepted { FitsOption FitsVote accepted }
        ensures { WhereUnanswered self k (λ me n known b own answers. IfOk result (λ coordinator. AnsweredIs coordinator me n known b own (answers ++ answer_of k accepted ∷ []))) }
    {
        match self {
            Coordinator::Proposing(mut proposer) => {
                let ballot = proposer.ballot();
                let Ok(next) = proposer.on_p1b(k, ballot, accepted) else {
                    drop(proposer);
                    return Err(NoMemory);
                };
                drop(next);
                Ok(Coordinator::Proposing(proposer))
            }
            other => {
                drop(accepted);
                Ok(other)
            }
        }
    }

    /// Counts the vote of a replica, once. `NoMemory` if memory runs out.
    pub fn with_vote(self, k: u32) -> Result<Voted, NoMemory>
        requires { k < 15 }
        ensures { WhereProposing self (λ me n known b own value acceptors. has (spec_decided n known) k ≡ true → IfOk result (λ voted. VotedIs voted me n known b own value (k ∷ acceptors))) }
    {
        match self {
            Coordinator::Proposing(mut proposer) => {
                if is_chosen_with(&proposer, k) {
                    return Ok(Voted::Chosen(proposer.into_value()));
                }
                let ballot = proposer.ballot();
                let Ok(next) = proposer.on_p2b(k, ballot) else {
                    drop(proposer);
                    return Err(NoMemory);
                };
                drop(next);
                Ok(Voted::More(Coordinator::Proposing(proposer)))
            }
            other => Ok(Voted::More(other)),
        }
    }

    /// Ends the proposal, which is preempted by the ballot `top`.
    pub fn preempted(self, top: Ballot) -> Coordinator
        requires { FitsBallot top }
        ensures { WhereStands self (λ me n known m. CoordinatorStands result me n known (preempted_by m top)) }
    {
        match self {
            Coordinator::Proposing(proposer) => {
                Coordinator::Preempted(Retry::new(proposer.into_own(), top))
            }
            other => other,
        }
    }

    /// Returns the coordinator's own decision, to be proposed again, and the ballot that preempted it. `None` unless it
    /// is preempted. `NoMemory` if memory runs out.
    pub fn own_again(&self, alloc: Global) -> Result<Option<(Decision, Ballot)>, NoMemory>
        ensures value { WherePreempted self.now (λ me n known own seen. IfOk result (λ again. (again ≡ Some (own, seen)) × IsOwn me n known own × FitsBallot seen)) }
        ensures fits { IfOk result (FitsOption FitsRetry) }
    {
        match self {
            Coordinator::Preempted(retry) => Ok(Some(retry.copy(alloc)?)),
            _ => Ok(None),
        }
    }
}
