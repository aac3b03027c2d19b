//! Counting of promises for the ballot in progress.

ghost use Rattle.std.specs.Prelude.{◌≡◌, ◌<◌, ◌++◌, ◌∷◌, [], false, IfOk};
ghost use Rattle.crsm_base.specs.Messages.{FitsVote};
ghost use Rattle.crsm_base.specs.Spelling.{FitsOption};
ghost use Rattle.crsm_spec.specs.Replica.{spec_of};
ghost use Rattle.crsm_spec.specs.Draft.{noting};
ghost use Rattle.crsm_spec.specs.Coordinate.{count_answer};
ghost use Rattle.crsm_spec.specs.Step.{if_fitting};
ghost use Rattle.crsm_replica_coordinator.specs.Coordinator.{answered};
ghost use Rattle.crsm_replica.specs.Replica.{ReplicaStands};
ghost use Rattle.crsm_replica_reconfigure.specs.Rules.{Follows, receives_answer};
ghost use Rattle.crsm_replica_coordinator.specs.Stages.{answer_of};
ghost use Rattle.crsm_replica_reconfigure.specs.Stages.{WhereAnswerCounts, WhereAnswerIsLast};

use crate::beginning::is_alone;
use crate::counting::is_counted;
use crate::fitting::fits_own;
use crate::renewing::accept_and_send;
use crsm_base::{Ballot, Decision, NoMemory};
use crsm_replica::{ReplicaState, states_are_sound};
use std::alloc::Global;

/// Counts a promise of replica `k` while its ballot asks for promises, the first of each replica. At a majority it
/// proposes the value that the promises determine. `NoMemory` if memory runs out.
pub fn on_p1b(
    state: &mut ReplicaState,
    k: u32,
    instance: u64,
    ballot: Ballot,
    accepted: &Option<(Ballot, Decision)>,
) -> Result<(), NoMemory>
    requires from { k < 15 }
    requires spelt { FitsOption FitsVote accepted.now }
    ensures { Follows (receives_answer k instance ballot accepted.now) state.old result state.new }
{
    let counts = is_counted(state, k, instance);
    if !counts {
        return Ok(());
    }
    let takes = state.coordinator().takes_answer(ballot, k);
    if !takes {
        return Ok(());
    }
    count_answer(state, k, accepted)
}

/// Counts the promise of a replica. If it makes a majority, the value that the promises determine is proposed; if the
/// records for that would not fit, nothing changes.
fn count_answer(
    state: &mut ReplicaState,
    k: u32,
    accepted: &Option<(Ballot, Decision)>,
) -> Result<(), NoMemory>
    requires from { k < 15 }
    requires spelt { FitsOption FitsVote accepted.now }
    ensures { IfOk result (λ _. WhereAnswerCounts state.old k (λ x b own answers. ReplicaStands state.new (if_fitting x (count_answer b own answers (answer_of k accepted.now) x)))) }
{
    states_are_sound();
    let is_last = state.coordinator().is_last_answer();
    if is_last {
        let fits = may_propose_with(state, k, accepted)?;
        if !fits {
            return Ok(());
        }
        put_answer(state, k, accepted)?;
        return accept_and_send(state);
    }
    put_answer(state, k, accepted)
}

/// Returns whether the records of the replica's own acceptance would fit once this promise makes the majority.
fn may_propose_with(
    state: &ReplicaState,
    k: u32,
    accepted: &Option<(Ballot, Decision)>,
) -> Result<bool, NoMemory>
    requires { FitsOption FitsVote accepted.now }
    ensures { IfOk result (λ fit. WhereAnswerIsLast state.now k accepted.now (λ x b own answers. fit ≡ (count_answer b own answers (answer_of k accepted.now) x).fitting)) }
{
    let found = state
        .coordinator()
        .proposal_with(state.alloc(), k, accepted)?;
    let Some((ballot, value)) = found else {
        return Ok(false);
    };
    let Ok(is_alone) = is_alone(state) else {
        drop(value);
        return Err(NoMemory);
    };
    let Ok(fits) = fits_own(state, ballot, &value, is_alone) else {
        drop(value);
        return Err(NoMemory);
    };
    drop(value);
    Ok(fits)
}

/// Adds the promise of a replica to the coordinator.
fn put_answer(
    state: &mut ReplicaState,
    k: u32,
    accepted: &Option<(Ballot, Decision)>,
) -> Result<(), NoMemory>
    requires from { k < 15 }
    requires spelt { FitsOption FitsVote accepted.now }
    ensures { IfOk result (λ _. WhereAnswerCounts state.old k (λ x b own answers. ReplicaStands state.new (noting (answered (spec_of x.replica) b own (answers ++ answer_of k accepted.now ∷ [])) x))) }
{
    let accepted = copied(state.alloc(), accepted)?;
    let coordinator = state.take_coordinator();
    let coordinator = coordinator.with_answer(k, accepted)?;
    state.set_coordinator(coordinator);
    Ok(())
}

/// Returns a copy of the accepted decision.
fn copied(
    alloc: Global,
    accepted: &Option<(Ballot, Decision)>,
) -> Result<Option<(Ballot, Decision)>, NoMemory>
    ensures { IfOk result (λ copy. copy ≡ accepted.now) }
{
    match accepted {
        Some((ballot, decision)) => Ok(Some((*ballot, decision.copy(alloc)?))),
        None => Ok(None),
    }
}
