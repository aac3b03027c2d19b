//! Counting of refusals and votes for the ballot in progress.

ghost use Rattle.std.specs.Prelude.{◌≡◌, ◌<◌, ◌+◌, ◌==◌, ◌&&◌, true, false, IfOk};
ghost use Rattle.crsm_base.specs.Spelling.{FitsBallot};
ghost use Rattle.crsm_spec.specs.Lists.{has};
ghost use Rattle.crsm_spec.specs.Log.{known};
ghost use Rattle.crsm_spec.specs.Replica.{spec_of};
ghost use Rattle.crsm_spec.specs.Draft.{Draft};
ghost use Rattle.crsm_spec.specs.Coordinate.{count_acceptor};
ghost use Rattle.crsm_replica.specs.Replica.{ReplicaStands};
ghost use Rattle.crsm_replica_reconfigure.specs.Rules.{Follows, receives_no, receives_vote};
ghost use Rattle.crsm_replica_reconfigure.specs.Stages.{TriesTo, WhereProposing};

use crate::choosing::choose;
use crsm_base::{Ballot, NoMemory};
use crsm_replica::{ReplicaState, states_are_sound};
use crsm_replica_coordinator::Voted;

/// Handles a refusal of replica `k`: it preempts the ballot if a greater one was promised. `NoMemory` if memory runs
/// out.
pub fn on_p1no(
    state: &mut ReplicaState,
    k: u32,
    instance: u64,
    ballot: Ballot,
    top: Ballot,
) -> Result<(), NoMemory>
    requires { FitsBallot top }
    ensures { Follows (receives_no k instance ballot top) state.old result state.new }
{
    states_are_sound();
    let counts = is_counted(state, k, instance);
    if !counts {
        return Ok(());
    }
    let is_ended = state.coordinator().is_ended_by(ballot, top);
    if !is_ended {
        return Ok(());
    }
    let coordinator = state.take_coordinator();
    state.set_coordinator(coordinator.preempted(top));
    Ok(())
}

/// Counts a vote of replica `k` while its ballot proposes. `NoMemory` if memory runs out.
pub fn on_p2b(
    state: &mut ReplicaState,
    k: u32,
    instance: u64,
    ballot: Ballot,
) -> Result<(), NoMemory>
    requires { k < 15 }
    ensures { Follows (receives_vote k instance ballot) state.old result state.new }
{
    let counts = is_counted(state, k, instance);
    if !counts {
        return Ok(());
    }
    let takes = state.coordinator().takes_vote(ballot, k);
    if !takes {
        return Ok(());
    }
    count_vote(state, k)?;
    Ok(())
}

/// Counts the vote of a replica for the proposal, which is chosen at a majority. `false` if the records for that do not
/// fit, `NoMemory` if memory runs out; with `false` the state is unchanged.
pub fn count_vote(state: &mut ReplicaState, k: u32) -> Result<bool, NoMemory>
    requires { k < 15 }
    ensures { IfOk result (λ fit. WhereProposing state.old (λ x b own value acceptors. has (spec_of x.replica) k ≡ true → TriesTo fit state.new x (count_acceptor b own value acceptors k x))) }
{
    states_are_sound();
    let is_last = state.coordinator().is_last_vote(k);
    if is_last {
        let found = state.coordinator().proposal(state.alloc())?;
        let Some((_, value)) = found else {
            return Ok(false);
        };
        let Ok(fits) = choose(state, &value) else {
            drop(value);
            return Err(NoMemory);
        };
        drop(value);
        return Ok(fits);
    }
    let coordinator = state.take_coordinator();
    let voted = coordinator.with_vote(k)?;
    match voted {
        Voted::More(coordinator) => {
            state.set_coordinator(coordinator);
            Ok(true)
        }
        chosen => {
            drop(chosen);
            Ok(false)
        }
    }
}

/// Returns whether replica `k` counts, and the instance is the next one.
pub(crate) fn is_counted(state: &ReplicaState, k: u32, instance: u64) -> bool
    ensures { (x : Draft) → ReplicaStands state.now x → result ≡ (has (spec_of x.replica) k && (instance == known x.replica.log + 1)) }
{
    let is_of_spec = state.is_of_spec(k);
    let known = state.known();
    is_of_spec & is_behind(instance, known)
}

fn is_behind(instance: u64, known: u64) -> bool
    ensures { result ≡ (instance == known + 1) }
{
    instance > known && instance - 1 == known
}
