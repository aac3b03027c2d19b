//! The proposer's own acceptance.

ghost use Rattle.std.specs.Prelude.{◌≡◌, ◌&&◌, not, nat_le, length, IfOk};
ghost use Rattle.crsm_spec.specs.Log.{executed};
ghost use Rattle.crsm_spec.specs.Draft.{Draft};
ghost use Rattle.crsm_spec.specs.Coordinate.{accept_own, has_accepted};
ghost use Rattle.crsm_replica.specs.Replica.{ReplicaStands};
ghost use Rattle.crsm_replica_reconfigure.specs.Stages.{WhereProposing, CanAcceptOwn};

use crate::counting::count_vote;
use crate::promising::accept;
use crsm_base::{Ballot, Decision, NoMemory, ballot_precedes};
use crsm_replica::{ReplicaState, states_are_sound};

/// Accepts the proposer's own proposal if the base is executed, and counts its vote; if a greater ballot was promised,
/// the proposal is preempted. The records must fit. `NoMemory` if memory runs out.
pub fn accept_own(state: &mut ReplicaState) -> Result<(), NoMemory>
    ensures { IfOk result (λ _. WhereProposing state.old (λ x b own value acceptors. CanAcceptOwn b own value acceptors x → ReplicaStands state.new (accept_own b own value acceptors x))) }
{
    states_are_sound();
    let found = state.coordinator().proposal(state.alloc())?;
    let Some((ballot, value)) = found else {
        return Ok(());
    };
    let top = state.promised();
    if ballot_precedes(ballot, top) {
        drop(value);
        let coordinator = state.take_coordinator();
        state.set_coordinator(coordinator.preempted(top));
        return Ok(());
    }
    let is_due = is_due(state, ballot, &value);
    if !is_due {
        drop(value);
        return Ok(());
    }
    let Ok(_) = accept(state, value.epoch, ballot, &value) else {
        drop(value);
        return Err(NoMemory);
    };
    drop(value);
    let me = state.me();
    count_vote(state, me)?;
    Ok(())
}

/// Returns whether the base is executed, and nothing is accepted in this ballot.
pub fn is_due(state: &ReplicaState, ballot: Ballot, value: &Decision) -> bool
    ensures { (x : Draft) → ReplicaStands state.now x → result ≡ (nat_le value.now.base_len (length (executed x.replica.log)) && not (has_accepted ballot x)) }
{
    let done = state.executed_len();
    let has_accepted = state.has_accepted(ballot);
    (value.base_len <= done) & !has_accepted
}
