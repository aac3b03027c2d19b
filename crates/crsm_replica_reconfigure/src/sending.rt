//! Messages of the ballot in progress to the replicas that have not answered.

ghost use Rattle.std.specs.Prelude.{◌≡◌, ◌<◌, ◌^◌, All, IfOk};
ghost use Rattle.crsm_base.specs.Spelling.{FitsBallot, FitsOption};
ghost use Rattle.crsm_spec.specs.Replica.{Coordinator as CoordinatorOnPaper};
ghost use Rattle.crsm_spec.specs.Coordinate.{send_ask, send_proposal};
ghost use Rattle.crsm_spec.specs.Step.{ask_all};
ghost use Rattle.crsm_replica.specs.Replica.{ReplicaStands, WhereStands, Makes};
ghost use Rattle.crsm_replica_coordinator.specs.Coordinator.{WhereStands as WhereCoordinates};
ghost use Rattle.crsm_replica_reconfigure.specs.Stages.{WherePreparing, round_of, not_counted};

use crate::telling::{tell_all, tell_each};
use crsm_base::{Ballot, Control, Decision, NoMemory};
use crsm_replica::{ReplicaState, states_are_sound};
use crsm_replica_coordinator::Coordinator;

/// Asks each counted replica that has not promised for its promise. `NoMemory` if memory runs out.
pub fn send_ask(state: &mut ReplicaState) -> Result<(), NoMemory>
    ensures { IfOk result (λ _. WherePreparing state.old (λ x b own answers. ReplicaStands state.new (send_ask (CoordinatorOnPaper.Preparing b own answers) x))) }
{
    let found = round_in(state.coordinator());
    let Some((instance, ballot)) = found else {
        return Ok(());
    };
    let missing = missing(state)?;
    let control = Control::P1a { instance, ballot };
    tell_each(state, missing, control)
}

/// Sends the proposal, if there is one, to each counted replica that has not accepted it. `NoMemory` if memory runs
/// out.
pub fn send_proposal(state: &mut ReplicaState) -> Result<(), NoMemory>
    ensures { Makes (λ x. send_proposal x.replica.coordinator x) state.old result state.new }
{
    let round = round_in(state.coordinator());
    let Some((instance, _)) = round else {
        return Ok(());
    };
    let found = state.coordinator().proposal(state.alloc())?;
    let Some((ballot, decision)) = found else {
        return Ok(());
    };
    let Ok(missing) = missing(state) else {
        drop(decision);
        return Err(NoMemory);
    };
    let control = Control::P2a {
        instance,
        ballot,
        decision,
    };
    tell_each(state, missing, control)
}

/// Returns the other counted replicas whose promise or vote is not counted. `NoMemory` if memory runs out.
fn missing(state: &ReplicaState) -> Result<Vec<u32>, NoMemory>
    ensures value { WhereStands state.now (λ x. IfOk result (λ ks. ks.items ≡ not_counted x.replica)) }
    ensures below { IfOk result (λ ks. All (λ k. k < 15) ks.items) }
{
    let others = state.others()?;
    let missing = state.coordinator().missing(state.alloc(), &others)?;
    Ok(missing)
}

/// Asks all other counted replicas for decisions and executed entries, unless this replica is active. `NoMemory` if
/// memory runs out.
pub fn ask_all(state: &mut ReplicaState) -> Result<(), NoMemory>
    ensures { Makes (ask_all) state.old result state.new }
{
    states_are_sound();
    let is_active = state.is_active();
    if is_active {
        return Ok(());
    }
    let known = state.known();
    let from = state.executed_len();
    let control = Control::Retrieve { known, from };
    tell_all(state, control)
}

/// Returns the instance that the coordinator's own decision is for, and its ballot, or `None` unless it asks for
/// promises or proposes.
fn round_in(coordinator: &Coordinator) -> Option<(u64, Ballot)>
    ensures value { WhereCoordinates coordinator.now (λ me n known m. result ≡ round_of m) }
    ensures fits { FitsOption (λ r. (r.0 < 2 ^ 64) × FitsBallot r.1) result }
{
    match coordinator {
        Coordinator::Proposing(proposer) => Some((instance_of(proposer.own()), proposer.ballot())),
        _ => None,
    }
}

/// Returns the instance that a decision is for.
fn instance_of(decision: &Decision) -> u64
    ensures { result ≡ decision.now.epoch }
{
    decision.epoch
}
