//! Retries of a coordinator that proposes or was preempted.

ghost use Rattle.std.specs.Prelude.{◌≡◌, true, IfOk, Some};
ghost use Rattle.crsm_base.specs.Spelling.{FitsOption};
ghost use Rattle.crsm_replica_coordinator.specs.Retries.{FitsRetry};
ghost use Rattle.crsm_spec.specs.Replica.{Coordinator as CoordinatorOnPaper};
ghost use Rattle.crsm_spec.specs.Coordinate.{accept_own};
ghost use Rattle.crsm_spec.specs.Step.{renew};
ghost use Rattle.crsm_replica.specs.Replica.{ReplicaStands};
ghost use Rattle.crsm_replica_reconfigure.specs.Rules.{CanPropose};
ghost use Rattle.crsm_replica_reconfigure.specs.Stages.{TriesTo, WherePreempted, WhereProposing, CanAcceptOwn};

use crate::beginning::{begin_proposing, may_begin};
use crate::fitting::fits_own;
use crate::proposing::accept_own;
use crate::sending::send_proposal;
use crsm_base::{Ballot, Decision, NoMemory};
use crsm_replica::{ReplicaState, states_are_sound};

/// Retries the proposal: records the replica's own acceptance if missing, then resends the proposal to all that have
/// not accepted it. `false` if the records do not fit, `NoMemory` if memory runs out; with `false` the state is
/// unchanged.
pub fn renew_proposal(state: &mut ReplicaState) -> Result<bool, NoMemory>
    ensures { IfOk result (λ fit. WhereProposing state.old (λ x b own value acceptors. TriesTo fit state.new x (renew (CoordinatorOnPaper.Proposing b own value acceptors) x))) }
{
    states_are_sound();
    let found = state.coordinator().proposal(state.alloc())?;
    let Some((ballot, value)) = found else {
        return Ok(false);
    };
    let me = state.me();
    let is_chosen = state.coordinator().is_last_vote(me);
    let Ok(fits) = fits_own(state, ballot, &value, is_chosen) else {
        drop(value);
        return Err(NoMemory);
    };
    drop(value);
    if !fits {
        return Ok(false);
    }
    accept_and_send(state)?;
    Ok(true)
}

/// Proposes an own decision again after preemption, above the ballot that was seen. `false` if the records do not fit,
/// `NoMemory` if memory runs out; with `false` the state is unchanged.
pub fn renew_over(state: &mut ReplicaState) -> Result<bool, NoMemory>
    ensures { IfOk result (λ fit. WherePreempted state.old (λ x own seen. TriesTo fit state.new x (renew (CoordinatorOnPaper.Preempted own seen) x))) }
{
    states_are_sound();
    let found = own_again(state)?;
    let Some((own, seen)) = found else {
        return Ok(false);
    };
    let Ok(fits) = may_begin(state, &own, seen) else {
        drop(own);
        return Err(NoMemory);
    };
    if !fits {
        drop(own);
        return Ok(false);
    }
    begin_proposing(state, own, seen)?;
    Ok(true)
}

/// Returns the own decision to be proposed again, and the ballot that preempted it, or `None` if there is none.
fn own_again(state: &ReplicaState) -> Result<Option<(Decision, Ballot)>, NoMemory>
    ensures value { IfOk result (λ found. WherePreempted state.now (λ x own seen. (found ≡ Some (own, seen)) × CanPropose own seen x)) }
    ensures fits { IfOk result (FitsOption FitsRetry) }
{
    let found = state.coordinator().own_again(state.alloc())?;
    Ok(found)
}

/// Records the proposer's own acceptance, whose records must fit, and sends the proposal, if it still exists, to all
/// that have not accepted it. `NoMemory` if memory runs out.
pub fn accept_and_send(state: &mut ReplicaState) -> Result<(), NoMemory>
    ensures { IfOk result (λ _. WhereProposing state.old (λ x b own value acceptors. CanAcceptOwn b own value acceptors x → ReplicaStands state.new (renew (CoordinatorOnPaper.Proposing b own value acceptors) x))) }
{
    accept_own(state)?;
    send_proposal(state)
}
