//! The beginning of a proposal of one's own decision.

ghost use Rattle.std.specs.Prelude.{◌≡◌, ◌+◌, ◌<◌, ◌^◌, ℕ, [], ◌∷◌, true, IfOk};
ghost use Rattle.crsm_base.specs.Spelling.{FitsBallot, FitsDecision};
ghost use Rattle.crsm_spec.specs.Log.{accepted};
ghost use Rattle.crsm_spec.specs.Paxos.{value_of};
ghost use Rattle.crsm_spec.specs.Quorum.{has_majority};
ghost use Rattle.crsm_spec.specs.Replica.{spec_of};
ghost use Rattle.crsm_spec.specs.Draft.{Draft};
ghost use Rattle.crsm_spec.specs.Coordinate.{greater_ballot, begin_proposing};
ghost use Rattle.crsm_replica_coordinator.specs.Coordinator.{answered};
ghost use Rattle.crsm_replica.specs.Replica.{ReplicaStands};
ghost use Rattle.crsm_replica_reconfigure.specs.Rules.{CanPropose, BeginsAlike, MakesWhere};
ghost use Rattle.crsm_replica_reconfigure.specs.Stages.{CoordinatesAs, WhereNextRound, own_answer};

use crate::fitting::fits_own;
use crate::promising::promise;
use crate::renewing::accept_and_send;
use crate::sending::send_ask;
use crsm_base::{Ballot, Decision, NoMemory, ballot_precedes};
use crsm_replica::{ReplicaState, states_are_sound};
use crsm_replica_coordinator::Coordinator;

/// Returns whether the records for proposing this own decision fit, one round above the ballots promised and seen. They
/// fit alike for each stage of the coordinator, and whether the epoch is suspended or not. `NoMemory` if memory runs
/// out.
pub fn may_begin(state: &ReplicaState, own: &Decision, seen: Ballot) -> Result<bool, NoMemory>
    ensures { IfOk result (λ fit. (x y : Draft) → ReplicaStands state.now x → CanPropose own.now seen x → BeginsAlike x y → fit ≡ (begin_proposing own.now seen y).fitting) }
{
    states_are_sound();
    let top = greater(state.promised(), seen);
    if top.round == u64::MAX {
        return Ok(true);
    }
    let is_alone = is_alone(state)?;
    if !is_alone {
        return Ok(true);
    }
    let ballot = above(top, state.me());
    let accepted = state.accepted()?;
    let value = value_alone(own, &accepted);
    let Ok(fits) = fits_own(state, ballot, value, true) else {
        drop(accepted);
        return Err(NoMemory);
    };
    drop(accepted);
    Ok(fits)
}

/// Begins to propose an own decision, one round above the ballots promised and seen. If there is no such round, the
/// coordinator becomes idle. `NoMemory` if memory runs out.
pub fn begin_proposing(
    state: &mut ReplicaState,
    own: Decision,
    seen: Ballot,
) -> Result<(), NoMemory>
    requires { FitsDecision own }
    ensures { MakesWhere (λ x. CanPropose own seen x × ((begin_proposing own seen x).fitting ≡ true)) (begin_proposing own seen) state.old result state.new }
{
    states_are_sound();
    let top = greater(state.promised(), seen);
    if top.round == u64::MAX {
        drop(own);
        state.set_coordinator(Coordinator::quiet());
        return Ok(());
    }
    let Ok(is_alone) = is_alone(state) else {
        drop(own);
        return Err(NoMemory);
    };
    let instance = own.epoch;
    let coordinator = asking(state, own, top)?;
    let ballot = above(top, state.me());
    let Ok(_) = promise(state, instance, ballot) else {
        drop(coordinator);
        return Err(NoMemory);
    };
    state.set_coordinator(coordinator);
    if is_alone {
        return accept_and_send(state);
    }
    send_ask(state)
}

/// Returns a coordinator that asks for promises in the round after this ballot's, with its own promise counted.
fn asking(state: &ReplicaState, own: Decision, top: Ballot) -> Result<Coordinator, NoMemory>
    requires next { top.round + 1 < 2 ^ 64 }
    requires own { FitsDecision own }
    ensures { IfOk result (λ coordinator. WhereNextRound state.now own top (λ x b. CoordinatesAs coordinator x (answered (spec_of x.replica) b own (own_answer x ∷ [])))) }
{
    states_are_sound();
    let me = state.me();
    let Ok(accepted) = state.accepted() else {
        drop(own);
        return Err(NoMemory);
    };
    let Ok(spec) = state.spec() else {
        drop((own, accepted));
        return Err(NoMemory);
    };
    let coordinator = Coordinator::asking(state.alloc(), own, top, me, &spec, accepted)?;
    Ok(coordinator)
}

/// Returns whether this replica alone is a majority.
pub(crate) fn is_alone(state: &ReplicaState) -> Result<bool, NoMemory>
    ensures { IfOk result (λ alone. (x : Draft) → ReplicaStands state.now x → alone ≡ has_majority (spec_of x.replica) (x.replica.me ∷ [])) }
{
    let spec = state.spec()?;
    Ok(is_majority_of(spec.as_slice(), state.me()))
}

/// Returns whether this replica alone is a majority of these.
#[tactic(auto, unfolding(crsm_spec::specs::Quorum::has_majority, crsm_spec::specs::Lists::has))]
fn is_majority_of(spec: &[u32], replica: u32) -> bool
    ensures { result ≡ has_majority spec.now (replica ∷ []) }
{
    let votes = spec.iter().filter(|other| **other == replica).count();
    spec.len() / 2 < votes
}

/// Returns the value that a replica proposes when only itself has answered.
fn value_alone<'a>(own: &'a Decision, accepted: &'a Option<(Ballot, Decision)>) -> &'a Decision
    ensures { (me : ℕ) → result.now ≡ value_of own.now (record { replica = me; accepted = accepted.now } ∷ []) }
{
    match accepted {
        Some((_, value)) => value,
        None => own,
    }
}

/// Returns the greater of two ballots.
fn greater(a: Ballot, b: Ballot) -> Ballot
    ensures { result ≡ greater_ballot a b }
{
    if ballot_precedes(a, b) { b } else { a }
}

/// Returns the ballot of a replica in the round after another ballot's, which is not the last.
fn above(top: Ballot, me: u32) -> Ballot
    requires next { top.round + 1 < 2 ^ 64 }
    requires me { me < 15 }
    ensures value { result ≡ record { round = top.round + 1; by = me } }
    ensures fits { FitsBallot result }
{
    Ballot {
        round: top.round + 1,
        by: me,
    }
}
